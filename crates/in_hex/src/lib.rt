//! Bytes in lower-case hex: words that stand for bytes, and bytes written as such words.
#![tactic(auto)]

ghost use Rattle.std.specs.Prelude.{◌≡◌, ◌+◌, ◌*◌, ◌<◌, ◌≤◌, length};
ghost use Rattle.std.specs.Float.{binary64};
ghost use Rattle.std.specs.Float.Ieee.{of_bits};
ghost use Rattle.output.specs.Output.{output, Wrote};
ghost use Rattle.output.specs.Text.{all};
ghost use Rattle.in_hex.specs.Hex as spec;

fn is_hex_letter(b: u8) -> bool
    ensures { result ≡ spec.is_hex_letter b }
{
    matches!(b, b'a'..=b'f')
}

#[tactic(auto, unfolding(crate::specs::Hex::is_hex))]
fn is_hex(b: u8) -> bool
    ensures { result ≡ spec.is_hex b }
{
    texts::is_digit(b) | is_hex_letter(b)
}

// The number of a hex digit, 0 for every other byte.
#[tactic(auto, unfolding(crate::specs::Hex::hex_value, output::specs::Text::is_digit))]
fn hex_value(b: u8) -> u8
    ensures { (result ≡ spec.hex_value b) × (result < 16) }
{
    match b {
        b'0'..=b'9' => b - b'0',
        b'a'..=b'f' => b - b'a' + 10,
        _ => 0,
    }
}

// Whether each byte is a hex digit. It does not stop at one that is none, so that it takes many bytes at a time.
fn all_hex(t: &[u8]) -> bool
    ensures { result ≡ all spec.is_hex t.now }
{
    let mut ok = true;
    for b in t {
        ok = ok & is_hex(*b);
    }
    ok
}

// Whether a word stands for bytes.
#[tactic(auto, unfolding(crate::specs::Hex::is_bytes), using(texts::proofs::SameLaws::same_bytes))]
pub fn is_bytes(t: &[u8]) -> bool
    ensures { result ≡ spec.is_bytes t.now }
{
    (t == b"-".as_slice()) | ((2 <= t.len()) & ((t.len() % 2 == 0) & all_hex(t)))
}

// The byte of two hex digits.
fn byte_of(a: u8, b: u8) -> u8
    ensures { result ≡ spec.hex_value a * 16 + spec.hex_value b }
{
    hex_value(a) * 16 + hex_value(b)
}

// The bytes that a word stands for.
pub fn put_bytes_of(into: &mut [u8], at: usize, t: &[u8]) -> usize
    ensures { Wrote (output into.old at) (spec.bytes_of t.now) (output into.new result) }
{
    let mut p = at;
    for pair in t.chunks_exact(2) {
        p = output::put_byte(into, p, byte_of(pair[0], pair[1]));
    }
    p
}

// The digit of a number below 16.
#[tactic(auto, unfolding(crate::specs::Hex::hex_digit))]
fn hex_digit(n: u8) -> u8
    requires { n < 16 }
    ensures { result ≡ spec.hex_digit n }
{
    if n < 10 { b'0' + n } else { b'a' + (n - 10) }
}

// Two digits a byte.
fn put_hexed(into: &mut [u8], at: usize, bytes: &[u8]) -> usize
    ensures { Wrote (output into.old at) (spec.hexed bytes.now) (output into.new result) }
{
    let mut p = at;
    for b in bytes {
        p = output::put_byte(into, p, hex_digit(*b / 16));
        p = output::put_byte(into, p, hex_digit(*b % 16));
    }
    p
}

// Bytes in hex, `-` for none.
#[tactic(auto, unfolding(crate::specs::Hex::hex_text))]
pub fn put_text(into: &mut [u8], at: usize, bytes: &[u8]) -> usize
    ensures { Wrote (output into.old at) (spec.hex_text bytes.now) (output into.new result) }
{
    if bytes.is_empty() {
        return output::put_bytes(into, at, b"-");
    }
    put_hexed(into, at, bytes)
}

// The number that at most 16 hex digits make.
fn number_of(t: &[u8]) -> u64
    requires { length t.now ≤ 16 }
    ensures { result ≡ spec.hex_from 0 t.now }
{
    let mut n: u64 = 0;
    for b in t {
        n = n * 16 + hex_value(*b) as u64;
    }
    n
}

// 64 bits, of 16 hex digits.
#[tactic(auto, unfolding(crate::specs::Hex::bits_of))]
pub fn read_bits(t: &[u8]) -> Option<u64>
    ensures { result ≡ spec.bits_of t.now }
{
    (t.len() == 16 && all_hex(t)).then(|| number_of(t))
}

// The double of this bit pattern, of a NaN's too.
pub fn double_of(bits: u64) -> f64
    ensures { result ≡ of_bits binary64 bits }
{
    if 0x7ff0_0000_0000_0000 < bits % 0x8000_0000_0000_0000 {
        return 0.0 / 0.0;
    }
    f64::from_bits(bits)
}
