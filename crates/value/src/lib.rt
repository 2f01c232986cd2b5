//! Readings and parameters: what a sensor's reading becomes as a stored number, its status and its text, and the parameters of a
//! strategy read from their text.
#![tactic(auto)]

ghost use Rattle.std.specs.Prelude.{◌≡◌, cond, ◌*◌, ◌^◌, ◌<◌, ◌≤◌, eqb, take, Some, None};
ghost use Rattle.std.specs.Float.{binary64};
ghost use Rattle.std.specs.Float.Ieee.{of_bits};
ghost use Rattle.output.specs.Output.{output, Wrote};
ghost use Rattle.message.specs.Message.{arg};
ghost use Rattle.value.specs.Double.{exact1024, whole_of, within, within_signed};
ghost use Rattle.value.specs.Integer.{biased_integer, signed_in};
ghost use Rattle.value.specs.Reading.{valid, below, of_fit, invalid, only_for, sample_of, is_measured, zero_of};
ghost use Rattle.value.specs.Status.{range_status, status_of, status_text};
ghost use Rattle.value.specs.Value.{value_text};
ghost use Rattle.value.specs.Parameter.{whole_ok, fraction_ok, units, decimal_ok, integer_difference_of, float_difference_of, period_of, shortest_of};

use output::Notation;

// The stored number of the integer 0, as `output` has it, and signed.
const INTEGER_ZERO: i64 = output::INTEGER_ZERO as i64;
// The stored number of the float 0, in the width of a Fit.
const FLOAT_ZERO: u32 = output::FLOAT_ZERO as u32;
// The largest stored number of a float.
pub const MOST_FLOAT: u64 = numbers::LAST_FLOAT;
// Stored numbers of integers are below.
pub const INTEGERS: u64 = numbers::INTEGERS;
// Times are below, in milliseconds.
const TIMES: u64 = 10000000000000;
// The last time, in milliseconds.
pub const LAST_TIME: u64 = numbers::LAST_TIME;
// The longest period, in milliseconds.
pub const LONGEST_PERIOD: u64 = 86400000;
// The largest difference of floats, in millionths.
pub const MOST_FLOAT_DIFFERENCE: u64 = numbers::LAST_DIFFERENCE;
// The sign bit of a double.
const SIGN: u64 = 0x8000_0000_0000_0000;
// The implicit bit above its fraction.
const IMPLICIT: u64 = 0x10_0000_0000_0000;

// n 1024ths, negative or not.
fn fit_size(negative: bool, n: u64) -> Option<u32>
    ensures { result ≡ within negative n }
{
    if output::FLOAT_ZERO < n {
        return None;
    }
    // at most 2^30, so the cast loses nothing
    let size = n as u32;
    if negative {
        return Some(FLOAT_ZERO - size);
    }
    Some(FLOAT_ZERO + size)
}

// digits / 2^shift 1024ths, if whole.
fn fit_whole(negative: bool, digits: u64, shift: u64) -> Option<u32>
    ensures { result ≡ whole_of negative digits (2 ^ shift) }
{
    if 63 < shift {
        // below one 1024th
        if digits == 0 {
            return fit_size(negative, 0);
        }
        return None;
    }
    let unit: u64 = 1 << shift;
    let rest = digits % unit;
    if rest == 0 {
        return fit_size(negative, digits / unit);
    }
    None
}

// The double of this bit pattern, of a NaN's too.
fn fit_bits(bits: u64) -> Option<u32>
    ensures { result ≡ exact1024 (of_bits binary64 bits) }
{
    let negative = SIGN <= bits;
    let field = bits % SIGN / IMPLICIT;
    let digits = bits % IMPLICIT;
    if field == 0 {
        return fit_whole(negative, digits, 1064);
    }
    if 1043 < field {
        return None;
    }
    fit_whole(negative, IMPLICIT + digits, 1065 - field)
}

// The reading of a double: an exact multiple of 1/1024 within ±1,048,576.
pub fn exact_1024ths(x: f64) -> Option<u32>
    ensures { result ≡ exact1024 x }
{
    if x.is_nan() {
        return None;
    }
    fit_bits(x.to_bits())
}

// A signed integer plus 2^31.
pub fn biased_integer(x: i32) -> u64
    ensures { result ≡ biased_integer x }
{
    (x as i64 + INTEGER_ZERO) as u64
}

// Four bytes of a sheet, a signed big-endian number, plus 2^31.
pub fn biased_word(bytes: [u8; 4]) -> u64
    ensures { result ≡ biased_integer (signed_in bytes) }
{
    biased_integer(i32::from_be_bytes(bytes))
}

// Four bytes of a sheet, a signed big-endian number of 1024ths.
pub fn grid_word(bytes: [u8; 4]) -> Option<u32>
    ensures { result ≡ within_signed (signed_in bytes) }
{
    let n = i32::from_be_bytes(bytes);
    fit_size(n < 0, n.unsigned_abs() as u64)
}

// What a sensor can say.
#[derive(Clone, Copy)]
pub enum Reading {
    Integer(i32),
    Float(f64),
    Boolean(u8),
    // its place in the sensor's list of options
    Option(u8),
    Timestamp(u64),
    Failure,
    Unreachable,
    Inactive,
}

// A kind, 0 unknown, 1 valid, 2 failure, 3 unreachable, 4 inactive, and a stored number.
// kept: the kind, a sensor's type and a status are bytes and no enums, since the C interface hands in states and may hold any byte there: the
// check of a state refuses the others.
#[derive(Clone, Copy)]
pub struct Sample {
    pub kind: u8,
    pub number: u64,
}

fn valid_sample(number: u64) -> Option<Sample>
    ensures { result ≡ valid number }
{
    Some(Sample {
        kind: 1,
        number: number,
    })
}

// A number that must be below a limit.
fn sample_below(limit: u64, n: u64) -> Option<Sample>
    ensures { result ≡ below limit n }
{
    if n < limit {
        return valid_sample(n);
    }
    None
}

fn float_sample(x: f64) -> Option<Sample>
    ensures { result ≡ of_fit (exact1024 x) }
{
    valid_sample(exact_1024ths(x)? as u64)
}

// Whether a type has limits and differences: integer and float.
#[tactic(auto, unfolding(crate::specs::Reading::is_measured))]
pub fn is_measured(kind: u8) -> bool
    ensures { result ≡ is_measured kind }
{
    match kind {
        1 => true,
        2 => true,
        3 => false,
        4 => false,
        5 => false,
        _ => false,
    }
}

// Whether a type has options: discrete.
pub fn is_discrete(kind: u8) -> bool
    ensures { result ≡ eqb kind 4 }
{
    match kind {
        1 => false,
        2 => false,
        3 => false,
        4 => true,
        5 => false,
        _ => false,
    }
}

// The stored number of a type's zero.
#[tactic(auto, unfolding(crate::specs::Reading::zero_of))]
pub fn zero_of(kind: u8) -> u64
    ensures { result ≡ zero_of kind }
{
    match kind {
        1 => output::INTEGER_ZERO,
        2 => output::FLOAT_ZERO,
        3 => 0,
        4 => 0,
        5 => 0,
        _ => 0,
    }
}

// A sample that is not valid carries the type's zero.
pub fn invalid_sample(kind: u8, code: u8) -> Sample
    ensures { result ≡ invalid kind code }
{
    Sample {
        kind: code,
        number: zero_of(kind),
    }
}

// A sample of another type is unfit.
fn only_for(kind: u8, wanted: u8, sampled: Option<Sample>) -> Option<Sample>
    ensures { result ≡ only_for kind wanted sampled }
{
    if kind == wanted {
        return sampled;
    }
    None
}

// A reading at a sensor of this type with so many options.
pub fn sample_of(kind: u8, options: u8, reading: Reading) -> Option<Sample>
    ensures { result ≡ sample_of kind options reading }
{
    match reading {
        Reading::Integer(x) => only_for(kind, 1, valid_sample(biased_integer(x))),
        Reading::Float(x) => only_for(kind, 2, float_sample(x)),
        Reading::Boolean(b) => only_for(kind, 3, sample_below(2, b as u64)),
        Reading::Option(i) => only_for(kind, 4, sample_below(options as u64, i as u64)),
        Reading::Timestamp(m) => only_for(kind, 5, sample_below(TIMES, m)),
        Reading::Failure => Some(invalid_sample(kind, 2)),
        Reading::Unreachable => Some(invalid_sample(kind, 3)),
        Reading::Inactive => Some(invalid_sample(kind, 4)),
    }
}

// How many limits a sensor has, 0, 2 or 4, and the stored numbers of the limits.
#[derive(Clone, Copy, PartialEq, Eq)]
pub struct Limits {
    pub count: u8,
    pub nominal_min: u64,
    pub nominal_max: u64,
    pub warn_min: u64,
    pub warn_max: u64,
}

pub const NO_LIMITS: Limits = Limits {
    count: 0,
    nominal_min: 0,
    nominal_max: 0,
    warn_min: 0,
    warn_max: 0,
};

// The status of a valid number.
fn range_status(l: Limits, n: u64) -> u8
    ensures { result ≡ range_status l n }
{
    if (l.count == 0) | ((l.nominal_min <= n) & (n <= l.nominal_max)) {
        return 1;
    }
    if (l.count == 2) | ((l.warn_min <= n) & (n <= l.warn_max)) {
        return 2;
    }
    3
}

// The status of a sample: 0 unknown, 1 nominal, 2 warn, 3 error, 4 failure, 5 unreachable, 6 inactive.
#[tactic(auto, unfolding(crate::specs::Status::status_of))]
pub fn status_of(l: Limits, s: Sample) -> u8
    ensures { result ≡ status_of l s }
{
    let kind = s.kind;
    match kind {
        0 => 0,
        1 => range_status(l, s.number),
        2 => 4,
        3 => 5,
        4 => 6,
        _ => 6,
    }
}

// The word of a status as an argument.
#[tactic(auto, unfolding(crate::specs::Status::status_text))]
pub fn put_arg_status(out: &mut [u8], at: usize, status: u8) -> usize
    ensures { Wrote (output out.old at) (arg (status_text status)) (output out.new result) }
{
    match status {
        0 => message::put_arg(out, at, b"unknown"),
        1 => message::put_arg(out, at, b"nominal"),
        2 => message::put_arg(out, at, b"warn"),
        3 => message::put_arg(out, at, b"error"),
        4 => message::put_arg(out, at, b"failure"),
        5 => message::put_arg(out, at, b"unreachable"),
        6 => message::put_arg(out, at, b"inactive"),
        _ => message::put_arg(out, at, b"inactive"),
    }
}

// The text of the stored number `n` of a type as an argument. A discrete value is the option that it names, `len` bytes of `option`.
#[tactic(auto, unfolding(crate::specs::Value::value_text))]
pub fn put_arg_value(
    out: &mut [u8],
    at: usize,
    kind: u8,
    option: &[u8],
    len: usize,
    n: u64,
) -> usize
    ensures { Wrote (output out.old at) (arg (value_text kind (take len option.now) n)) (output out.new result) }
{
    match kind {
        1 => message::put_arg_number(out, at, Notation::Integer, n),
        2 => message::put_arg_number(out, at, Notation::Float, n),
        3 => message::put_arg_number(out, at, Notation::Decimal, n),
        4 => message::put_arg_prefix(out, at, option, len),
        5 => message::put_arg_number(out, at, Notation::Time, n),
        _ => message::put_arg_number(out, at, Notation::Time, n),
    }
}

// Digits before the point, without leading zeros.
pub fn whole_ok(w: &[u8]) -> bool
    ensures { result ≡ whole_ok w.now }
{
    if w.len() == 0 {
        return false;
    }
    (w[0] != b'0') | (w.len() == 1)
}

// Nothing, or a point and one or more digits.
fn fraction_ok(s: &[u8]) -> bool
    ensures { result ≡ fraction_ok s.now }
{
    if s.len() == 0 {
        return true;
    }
    let rest = texts::rest(s, 1);
    (s[0] == b'.') & ((1 <= rest.len()) & (texts::digits_len(rest) == rest.len()))
}

// A plain decimal with at most `places` fraction digits, counted in units of 10^-places, from `least` to `most`.
fn read_decimal(t: &[u8], places: usize, least: u64, most: u64) -> Option<u64>
    requires { most < 18446744073709551615 }
    ensures { result ≡ cond (decimal_ok places least most t.now) (Some (units places t.now)) None }
{
    let whole = texts::digits(t);
    let behind = texts::behind_digits(t);
    let plain = whole_ok(whole) & fraction_ok(behind);
    if !plain {
        return None;
    }
    let fraction = texts::rest(behind, 1);
    if places < fraction.len() {
        return None;
    }
    let above = most + 1;
    let digits = numbers::both_value(whole, fraction, above);
    let number = numbers::with_zeros(digits, places - fraction.len(), above);
    if (number < least) | (most < number) {
        return None;
    }
    Some(number)
}

// A difference of integers, in millionths.
pub fn read_integer_difference(t: &[u8]) -> Option<u64>
    ensures { result ≡ integer_difference_of t.now }
{
    let n = read_decimal(t, 0, 0, 4294967295)?;
    Some(n * output::MILLIONTHS)
}

// A difference of floats, in millionths.
#[tactic(auto, unfolding(crate::specs::Parameter::float_difference_of))]
pub fn read_float_difference(t: &[u8]) -> Option<u64>
    ensures { result ≡ float_difference_of t.now }
{
    scientific::read_millionths(t)
}

// A period, in milliseconds.
pub fn read_period(t: &[u8]) -> Option<u64>
    ensures { result ≡ period_of t.now }
{
    read_decimal(t, 3, 1, LONGEST_PERIOD)
}

// A shortest period, which may be 0, in milliseconds.
pub fn read_shortest(t: &[u8]) -> Option<u64>
    ensures { result ≡ shortest_of t.now }
{
    read_decimal(t, 3, 0, LONGEST_PERIOD)
}
