//! A lent output, and writers of bytes and numbers. A writer is lent the output and the place where it begins, and returns the
//! place after what it wrote. Where the output ends, so does the text: nothing past the end is written.
#![tactic(auto)]

ghost use Rattle.std.specs.Prelude.{cond, [], ◌∷◌, ◌+◌, ◌/◌, ◌%◌, ◌<◌, ◌≤◌};
ghost use Rattle.output.specs.Output.{output, Wrote};
ghost use Rattle.output.specs.Number.{digit, decimal, time, fraction_in, fixed, integer, float, difference, whole_difference, number_text};

// The stored number of the integer 0, which counts from -2^31.
pub const INTEGER_ZERO: u64 = 2147483648;
// The stored number of the float 0, which counts 1024ths from -2^30.
pub const FLOAT_ZERO: u64 = 1073741824;
// The parts of a float's unit.
pub const GRID: u64 = 1024;
// The parts of a difference's unit.
pub const MILLIONTHS: u64 = 1000000;

// How a stored number is written.
#[derive(Clone, Copy, Debug, PartialEq, Eq)]
pub enum Notation {
    Decimal,
    Time,
    Integer,
    Float,
    Difference,
    WholeDifference,
}

// One byte, where there is room.
pub fn put_byte(out: &mut [u8], at: usize, b: u8) -> usize
    ensures { Wrote (output out.old at) (b ∷ []) (output out.new result) }
{
    if at < out.len() {
        out[at] = b;
        at + 1
    } else {
        out.len()
    }
}

// All of s.
pub fn put_bytes(out: &mut [u8], at: usize, s: &[u8]) -> usize
    ensures { Wrote (output out.old at) s.now (output out.new result) }
{
    let mut p = at;
    for b in s {
        p = put_byte(out, p, *b);
    }
    p
}

// The last decimal digit of n.
fn put_digit(out: &mut [u8], at: usize, n: u64) -> usize
    ensures { Wrote (output out.old at) (digit n ∷ []) (output out.new result) }
{
    let d = (n % 10) as u8;
    put_byte(out, at, 48 + d)
}

// n without leading zeros.
pub fn put_decimal(out: &mut [u8], at: usize, n: u64) -> usize
    ensures { Wrote (output out.old at) (decimal n) (output out.new result) }
{
    if n < 10 {
        return put_digit(out, at, n);
    }
    let p = put_decimal(out, at, n / 10);
    put_digit(out, p, n)
}

// Whole milliseconds as seconds, point, three digits.
pub fn put_time(out: &mut [u8], at: usize, ms: u64) -> usize
    ensures { Wrote (output out.old at) (time ms) (output out.new result) }
{
    let p = put_decimal(out, at, ms / 1000);
    let p = put_byte(out, p, b'.');
    let p = put_digit(out, p, ms / 100);
    let p = put_digit(out, p, ms / 10);
    put_digit(out, p, ms)
}

// The digits of f / base after the point, left of them at most.
fn put_fraction(out: &mut [u8], at: usize, f: u64, base: u64, left: u64) -> usize
    requires { (f < base) × (base ≤ 1000000) }
    ensures { Wrote (output out.old at) (fraction_in base left f) (output out.new result) }
{
    if left == 0 {
        return at;
    }
    let p = put_digit(out, at, f * 10 / base);
    let rest = f * 10 % base;
    if rest == 0 {
        return p;
    }
    put_fraction(out, p, rest, base, left - 1)
}

// m / base, with places digits at most after the point.
fn put_fixed(out: &mut [u8], at: usize, m: u64, base: u64, places: u64) -> usize
    requires { (0 < base) × (base ≤ 1000000) }
    ensures { Wrote (output out.old at) (fixed base places m) (output out.new result) }
{
    let p = put_decimal(out, at, m / base);
    let p = put_byte(out, p, b'.');
    put_fraction(out, p, m % base, base, places)
}

// The minus of a number that is below 0.
fn put_sign(out: &mut [u8], at: usize, is_negative: bool) -> usize
    ensures { Wrote (output out.old at) (cond is_negative (45 ∷ []) []) (output out.new result) }
{
    if is_negative {
        return put_byte(out, at, b'-');
    }
    at
}

// A signed number: v counts from -2^31.
pub fn put_integer(out: &mut [u8], at: usize, v: u64) -> usize
    ensures { Wrote (output out.old at) (integer v) (output out.new result) }
{
    let p = put_sign(out, at, v < INTEGER_ZERO);
    put_decimal(out, p, v.abs_diff(INTEGER_ZERO))
}

// A float: v counts 1024ths from -2^30. Exact, without trailing zeros, one fraction digit at least.
pub fn put_float(out: &mut [u8], at: usize, v: u64) -> usize
    ensures { Wrote (output out.old at) (float v) (output out.new result) }
{
    let p = put_sign(out, at, v < FLOAT_ZERO);
    put_fixed(out, p, v.abs_diff(FLOAT_ZERO), GRID, 10)
}

// A difference of d millionths, written like a float.
pub fn put_difference(out: &mut [u8], at: usize, d: u64) -> usize
    ensures { Wrote (output out.old at) (difference d) (output out.new result) }
{
    put_fixed(out, at, d, MILLIONTHS, 6)
}

// A difference of d millionths, written as an integer: its whole part.
pub fn put_whole_difference(out: &mut [u8], at: usize, d: u64) -> usize
    ensures { Wrote (output out.old at) (whole_difference d) (output out.new result) }
{
    put_decimal(out, at, d / MILLIONTHS)
}

// A stored number in its notation.
pub fn put_number(out: &mut [u8], at: usize, notation: Notation, n: u64) -> usize
    ensures { Wrote (output out.old at) (number_text notation n) (output out.new result) }
{
    match notation {
        Notation::Decimal => put_decimal(out, at, n),
        Notation::Time => put_time(out, at, n),
        Notation::Integer => put_integer(out, at, n),
        Notation::Float => put_float(out, at, n),
        Notation::Difference => put_difference(out, at, n),
        Notation::WholeDifference => put_whole_difference(out, at, n),
    }
}
