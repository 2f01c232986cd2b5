//! What digits make, up to a cap; and the texts of numbers, read exactly as they are written: a text is that of a number where the number, written
//! again, is the text.
#![tactic(auto)]

ghost use Rattle.std.specs.Prelude.{◌≡◌, ◌++◌, ◌+◌, ◌-◌, ◌*◌, ◌/◌, ◌^◌, ◌<◌, ◌≤◌, min};
ghost use Rattle.output.specs.Read as reads;
ghost use Rattle.numbers.specs.Number.{held_parts, held_signed, held_number};

use output::Notation;

// The most bytes that a number's text has.
const LONGEST: usize = 20;

// Milliseconds of a second.
const THOUSAND: u64 = 1000;

// The parts of one that a float counts.
const BINARY_THOUSAND: u64 = output::GRID;

// Those that a difference counts.
const MILLION: u64 = output::MILLIONTHS;

const LAST_BOOLEAN: u64 = 1;

pub const LAST_TIME: u64 = 9999999999999;

// What integers count from, and how many there are.
const INTEGER_BIAS: u64 = output::INTEGER_ZERO;

pub const INTEGERS: u64 = 2 * INTEGER_BIAS;

// What floats count from, and the last one.
const FLOAT_BIAS: u64 = output::FLOAT_ZERO;

pub const LAST_FLOAT: u64 = 2 * FLOAT_BIAS;

pub const LAST_DIFFERENCE: u64 = 2097152000000;

const LAST_WHOLE_DIFFERENCE: u64 = 4294967295000000;

// n and one digit more, `most` at most.
fn with_digit(n: u64, b: u8, most: u64) -> u64
    ensures { result ≡ min (n * 10 + (b - 48)) most }
{
    let d = b.saturating_sub(b'0') as u64;
    n.saturating_mul(10).saturating_add(d).min(most)
}

// The number that digits make behind those of `n`, `most` at most.
fn digits_after(n: u64, t: &[u8], most: u64) -> u64
    requires { n ≤ most }
    ensures { result ≡ min (reads.value_from n t.now) most }
{
    let mut m = n;
    for b in t {
        m = with_digit(m, *b, most);
    }
    m
}

// The number that digits make, `most` at most.
pub fn digits_value(t: &[u8], most: u64) -> u64
    ensures { result ≡ min (reads.value_from 0 t.now) most }
{
    digits_after(0, t, most)
}

// The number that the digits of two texts make, those of b behind those of a, `most` at most.
pub fn both_value(a: &[u8], b: &[u8], most: u64) -> u64
    ensures { result ≡ min (reads.value_from 0 (a.now ++ b.now)) most }
{
    digits_after(digits_value(a, most), b, most)
}

// n with zeros behind its digits, `most` at most.
pub fn with_zeros(n: u64, count: usize, most: u64) -> u64
    ensures { result ≡ min (n * 10 ^ count) most }
{
    let mut m = n.min(most);
    for _ in 0..count {
        m = with_digit(m, b'0', most);
    }
    m
}

// n without its last digits.
fn without_digits(n: u64, places: usize) -> u64
    ensures { result ≡ n / 10 ^ places }
{
    let mut m = n;
    for _ in 0..places {
        m /= 10;
    }
    m
}

// A text with a point or without one, in parts of which `base` make one; another number where 64 bits do not hold what is computed.
fn parts_of(t: &[u8], base: u64) -> u64
    requires { 0 < base }
    ensures { result ≡ held_parts base t.now }
{
    let most = u64::MAX / base;
    let whole = texts::prefix(t, texts::len_before(t, b'.'));
    let fraction = texts::behind(t, b'.');
    let all = both_value(whole, fraction, most);
    without_digits(all * base, fraction.len())
}

// The same with a minus or without one, counted from `bias`, at most as far as `bias` is from 0.
fn signed_of(t: &[u8], bias: u64, base: u64) -> u64
    requires { (0 < base) × (bias ≤ 2 ^ 31) }
    ensures { result ≡ held_signed bias base t.now }
{
    if t.len() == 0 {
        return bias;
    }
    if t[0] == b'-' {
        return bias - parts_of(&t[1..], base).min(bias);
    }
    bias + parts_of(t, base).min(bias)
}

// The number that a text is tried as in a notation.
fn tried(notation: Notation, t: &[u8]) -> u64
    ensures { result ≡ held_number notation t.now }
{
    match notation {
        Notation::Decimal => digits_value(t, u64::MAX),
        Notation::Time => parts_of(t, THOUSAND),
        Notation::Integer => signed_of(t, INTEGER_BIAS, 1),
        Notation::Float => signed_of(t, FLOAT_BIAS, BINARY_THOUSAND),
        Notation::Difference => parts_of(t, MILLION),
        Notation::WholeDifference => digits_value(t, INTEGERS) * MILLION,
    }
}

// Whether a notation has the number n.
fn in_range(notation: Notation, n: u64) -> bool
    ensures { result ≡ reads.in_number notation n }
{
    match notation {
        Notation::Decimal => true, // all that 64 bits hold
        Notation::Time => n <= LAST_TIME,
        Notation::Integer => n < INTEGERS,
        Notation::Float => n <= LAST_FLOAT,
        Notation::Difference => n <= LAST_DIFFERENCE,
        Notation::WholeDifference => (n <= LAST_WHOLE_DIFFERENCE) & (n % MILLION == 0),
    }
}

// A number in its notation, as it is stored.
pub fn read(notation: Notation, t: &[u8]) -> Option<u64>
    ensures { result ≡ reads.read_number notation t.now }
{
    let n = tried(notation, t);
    let mut again = [0u8; LONGEST];
    let p = output::put_number(&mut again, 0, notation, n);
    (in_range(notation, n) & (texts::prefix(&again, p) == t)).then_some(n)
}

// A decimal that 64 bits hold.
pub fn read_decimal(t: &[u8]) -> Option<u64>
    ensures { result ≡ reads.read_decimal t.now }
{
    read(Notation::Decimal, t)
}

// A signed 32-bit number, counted from -2^31.
pub fn read_integer(t: &[u8]) -> Option<u64>
    ensures { result ≡ reads.read_integer t.now }
{
    read(Notation::Integer, t)
}

// A boolean: 0 or 1.
pub fn read_boolean(t: &[u8]) -> Option<u64>
    ensures { result ≡ reads.read_boolean t.now }
{
    let n = read_decimal(t)?;
    (n <= LAST_BOOLEAN).then_some(n)
}
