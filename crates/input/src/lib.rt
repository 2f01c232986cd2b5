//! What the programs read: lines out of a stream of bytes, the words of a line, and the signed numbers among them.
#![tactic(auto)]

ghost use Rattle.std.specs.Prelude.{◌≡◌, length};
ghost use Rattle.output.specs.Output.{laid};
ghost use Rattle.output.specs.Read.{read_integer};
ghost use Rattle.input.specs.Words.{word_at, spaces, has_words, is_natural, integer_of};
ghost use Rattle.input.specs.Window.{kept, first};

// The bytes of a buffer that were read and are not used yet: those from `from` up to `to`.
#[derive(Clone, Copy)]
pub struct Window {
    pub from: usize,
    pub to: usize,
}

// Room for more: the pending bytes are moved to the start of the buffer. Where they fill it, they are the start of one line that is too long
// whatever follows; of these the first `most` are kept.
pub fn make_room(buf: &mut [u8], w: Window, most: usize) -> Window
    ensures value { result ≡ first (length (kept buf.old w most)) }
    ensures buf_after { buf.new ≡ laid (kept buf.old w most) buf.old }
{
    let to = w.to.min(buf.len());
    let from = w.from.min(to);
    let n = to - from;
    if n == buf.len() {
        return Window {
            from: 0,
            to: most.min(n),
        };
    }
    buf.copy_within(from..to, 0);
    Window { from: 0, to: n }
}

// Word `k` of a line, from 0; empty where there is none.
pub fn word(line: &[u8], k: usize) -> &[u8]
    ensures { result.now ≡ word_at k line.now }
{
    line.split(|b| *b == b' ').nth(k).unwrap_or(&[])
}

// How many spaces a line has.
fn count_spaces(line: &[u8]) -> usize
    ensures { result ≡ spaces line.now }
{
    let mut n = 0;
    for b in line {
        n += usize::from(*b == b' ');
    }
    n
}

// Whether the first word of a line is `first`, with so many more words. They are counted only where it is: most lines are asked for most first words.
#[tactic(auto, unfolding(crate::specs::Words::has_words), using(texts::proofs::SameLaws::same_bytes))]
pub fn has_words(line: &[u8], first: &[u8], more: usize) -> bool
    ensures { result ≡ has_words first.now more line.now }
{
    word(line, 0) == first && count_spaces(line) == more
}

// Whether a text is a decimal, of any size.
pub fn is_natural(t: &[u8]) -> bool
    ensures { result ≡ is_natural t.now }
{
    value::whole_ok(t) & (texts::digits_len(t) == t.len())
}

// A signed 32-bit number.
pub fn read_integer(t: &[u8]) -> Option<i32>
    ensures { result ≡ integer_of (read_integer t.now) }
{
    let v = numbers::read_integer(t)?;
    i32::try_from(v as i64 - 2147483648).ok()
}
