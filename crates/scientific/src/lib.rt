//! Decimals as C99 reads them, with a sign, a point and an exponent or without, counted exactly in millionths.
#![tactic(auto)]

ghost use Rattle.std.specs.Prelude.{◌≡◌, true, not, cond, ◌&&◌, ◌||◌, ◌++◌, ◌+◌, eqb, leb, length, Some, None};
ghost use Rattle.output.specs.Text as text;
ghost use Rattle.output.specs.Read.{value_from};
ghost use Rattle.scientific.specs.Decimal as decimal;
ghost use Rattle.scientific.specs.Shifted as points;

// Digits of a millionth behind the point.
const PLACES: usize = 6;

// Above every number that is taken.
const ABOVE: u64 = numbers::LAST_DIFFERENCE + 1;

// Above every exponent.
const EXPONENTS: u64 = 1000;

// The most digits that an exponent has.
const EXPONENT_DIGITS: usize = 3;

// What stands behind a sign, if there is one.
fn behind_sign(t: &[u8]) -> &[u8]
    ensures { result.now ≡ decimal.behind_sign t.now }
{
    match t {
        [b'+' | b'-', rest @ ..] => rest,
        _ => t,
    }
}

// What stands behind a point, if there is one.
fn behind_point(t: &[u8]) -> &[u8]
    ensures { result.now ≡ decimal.behind_point t.now }
{
    match t {
        [b'.', rest @ ..] => rest,
        _ => t,
    }
}

// The digits of an exponent.
fn exponent_digits(e: &[u8]) -> &[u8]
    ensures { result.now ≡ decimal.exponent_digits e.now }
{
    behind_sign(texts::rest(e, 1))
}

// Nothing, or `e`, a sign if any, and one to three digits.
fn exponent_ok(e: &[u8]) -> bool
    ensures { result ≡ decimal.exponent_ok e.now }
{
    let mark = texts::begins(e, b'e') | texts::begins(e, b'E');
    let digits = exponent_digits(e);
    let count = digits.len();
    (e.len() == 0)
        | (mark
            & ((1 <= count) & ((count <= EXPONENT_DIGITS) & (texts::digits_len(digits) == count))))
}

// Whether there is a digit before an exponent, and nothing but the exponent behind.
fn is_scientific(whole: &[u8], fraction: &[u8], exponent: &[u8]) -> bool
    ensures { result ≡ leb 1 (length (whole.now ++ fraction.now)) && decimal.exponent_ok exponent.now }
{
    ((0 < whole.len()) | (0 < fraction.len())) & exponent_ok(exponent)
}

// The digits `whole`, a point and the digits `fraction`, with the point moved `up` places to the right and `down` to the left:
// ABOVE where they make more, or where digits other than zeros are left behind the point.
fn shifted(whole: &[u8], fraction: &[u8], up: usize, down: usize) -> u64
    requires { (text.all text.is_digit whole.now ≡ true) × (text.all text.is_digit fraction.now ≡ true) }
    ensures { result ≡ points.shifted (value_from 0 (whole.now ++ fraction.now)) up (length fraction.now + down) }
{
    let right = up.saturating_sub(down);
    let keep = whole.len().saturating_sub(down.saturating_sub(up));
    let left_behind = numbers::both_value(
        texts::rest(whole, keep),
        texts::rest(fraction, right),
        1,
    );
    let lost = 0 < left_behind;
    if lost {
        return ABOVE;
    }
    let high = texts::prefix(whole, keep);
    let low = texts::prefix(fraction, right);
    let zeros = right.saturating_sub(fraction.len());
    numbers::with_zeros(numbers::both_value(high, low, ABOVE), zeros, ABOVE)
}

// The same in millionths, with the point moved as the exponent says.
fn millionths(whole: &[u8], fraction: &[u8], exponent: &[u8]) -> u64
    requires { ((text.all text.is_digit whole.now ≡ true) × (text.all text.is_digit fraction.now ≡ true)) × (decimal.exponent_ok exponent.now ≡ true) }
    ensures { result ≡ points.shifted (value_from 0 (whole.now ++ fraction.now)) (6 + decimal.raised exponent.now) (length fraction.now + decimal.lowered exponent.now) }
{
    // at most 1,000, so the cast loses nothing
    let size = numbers::digits_value(exponent_digits(exponent), EXPONENTS) as usize;
    if texts::begins(texts::rest(exponent, 1), b'-') {
        return shifted(whole, fraction, PLACES, size);
    }
    shifted(whole, fraction, PLACES + size, 0)
}

// A number that is not above the most, and with a minus only 0.
fn judged(n: u64, minus: bool) -> Option<u64>
    ensures { result ≡ cond (leb n 2097152000000 && (not minus || eqb n 0)) (Some n) None }
{
    if (n <= numbers::LAST_DIFFERENCE) & (!minus | (n == 0)) {
        return Some(n);
    }
    None
}

// A decimal up to 2,097,152 that is a whole number of millionths, counted in them.
pub fn read_millionths(t: &[u8]) -> Option<u64>
    ensures { result ≡ cond (decimal.scientific_ok 2097152000000 t.now) (Some (decimal.millionths t.now)) None }
{
    let unsigned = behind_sign(t);
    let whole = texts::digits(unsigned);
    let behind = behind_point(texts::behind_digits(unsigned));
    let fraction = texts::digits(behind);
    let exponent = texts::behind_digits(behind);
    if !is_scientific(whole, fraction, exponent) {
        return None;
    }
    judged(
        millionths(whole, fraction, exponent),
        texts::begins(t, b'-'),
    )
}
