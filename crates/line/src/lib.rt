//! Message lines: the bytes of a line to a message (document 01, "Message lines"). A line is cut at its spaces and tabs; each word
//! behind the first is an argument, which is found again by its place.
#![tactic(auto)]

ghost use Rattle.std.specs.Prelude.{◌≡◌, [], ◌∷◌, ◌++◌, ◌<◌, length, get_or, take, drop, MatchOption};
ghost use Rattle.output.specs.Output.{output, Wrote};
ghost use Rattle.line.specs.Line as spec;
ghost use Rattle.line.specs.Argument as arguments;
ghost use Rattle.line.specs.Answer as answers;

use texts::Class;

// The most bytes of a line.
pub const LONGEST: usize = 2048;

// What a backslash and a letter stand for.
#[derive(Clone, Copy)]
pub enum Meaning {
    Byte(u8),
    Nothing,
    Unknown,
}

// A message's kind byte, the length of its name, its identifier (0 for none) and the number of its arguments.
#[derive(Clone, Copy)]
pub struct Header {
    pub kind: u8,
    pub name: usize,
    pub id: u64,
    pub count: usize,
}

#[tactic(auto, unfolding(crate::specs::Line::kind_byte))]
fn kind_byte(b: u8) -> bool
    ensures { result ≡ spec.kind_byte b }
{
    matches!(b, b'?' | b'!' | b'#')
}

// A byte that stands raw in an argument: none of the seven that are escaped.
#[tactic(auto, unfolding(crate::specs::Line::plain))]
fn plain(b: u8) -> bool
    ensures { result ≡ spec.plain b }
{
    // backslash, space, null, newline, return, escape, tab
    !matches!(b, b'\\' | b' ' | 0 | 10 | 13 | 27 | 9)
}

// What the byte after a backslash stands for, in the guideline's sequence.
fn escape(c: u8) -> Meaning
    ensures { result ≡ spec.escape_of c }
{
    match c {
        b'\\' => Meaning::Byte(b'\\'), // backslash
        b'_' => Meaning::Byte(b' '), // space
        b'0' => Meaning::Byte(0), // null
        b'n' => Meaning::Byte(10), // newline
        b'r' => Meaning::Byte(13), // return
        b'e' => Meaning::Byte(27), // escape
        b't' => Meaning::Byte(9), // tab
        b'@' => Meaning::Nothing, // empty
        _ => Meaning::Unknown,
    }
}

fn known(c: u8) -> bool
    ensures { result ≡ spec.known (spec.escape_of c) }
{
    match escape(c) {
        Meaning::Byte(_) | Meaning::Nothing => true,
        Meaning::Unknown => false,
    }
}

// How many spaces and tabs `s` starts with.
fn lead(s: &[u8]) -> usize
    ensures { result ≡ answers.lead s.now }
{
    texts::run_len(s, Class::Blank)
}

// The length of the word that `s` starts with.
fn word_len(s: &[u8]) -> usize
    ensures { result ≡ length (spec.word s.now) }
{
    texts::run_len(s, Class::Word)
}

// The length of the name that `s` starts with.
fn name_len(s: &[u8]) -> usize
    ensures { result ≡ length (spec.name_of s.now) }
{
    texts::run_len(s, Class::Title)
}

// Whether a word is plain bytes and known escapes.
fn valid(w: &[u8]) -> bool
    ensures { result ≡ spec.valid w.now }
{
    let mut left = w;
    while let [b, rest @ ..] = left {
        if *b == b'\\' {
            let [c, behind @ ..] = rest else {
                return false;
            };
            if !known(*c) {
                return false;
            }
            left = behind;
        } else {
            if !plain(*b) {
                return false;
            }
            left = rest;
        }
    }
    true
}

// What a word's first byte stands for, or a backslash and the byte after it, and what follows; where a word ends, nothing does.
fn next_meaning(w: &[u8]) -> Option<(Meaning, &[u8])>
    ensures { MatchOption result (spec.unescape w.now ≡ []) (λ x. (spec.unescape w.now ≡ spec.meant x.0 ++ spec.unescape x.1.now) × (length x.1.now < length w.now)) }
{
    match w {
        [] | [b'\\'] => None,
        [b'\\', c, rest @ ..] => Some((escape(*c), rest)),
        [b, rest @ ..] => Some((Meaning::Byte(*b), rest)),
    }
}

// The length of the text that a word stands for.
fn text_len(w: &[u8]) -> usize
    ensures { result ≡ length (spec.unescape w.now) }
{
    let mut n = 0;
    let mut left = w;
    while let Some((meaning, rest)) = next_meaning(left) {
        if let Meaning::Byte(_) = meaning {
            n += 1;
        }
        left = rest;
    }
    n
}

// The text that a word stands for, written at `at`.
fn put_unescaped(into: &mut [u8], at: usize, w: &[u8]) -> usize
    ensures { Wrote (output into.old at) (spec.unescape w.now) (output into.new result) }
{
    let mut p = at;
    let mut left = w;
    while let Some((meaning, rest)) = next_meaning(left) {
        if let Meaning::Byte(x) = meaning {
            p = output::put_byte(into, p, x);
        }
        left = rest;
    }
    p
}

// The digits of an identifier, up to the `]` that ends `t`.
fn id_from(t: &[u8]) -> Option<u64>
    ensures { result ≡ spec.id_from 0 t.now }
{
    let mut n: u64 = 0;
    let mut left = t;
    while let [b, rest @ ..] = left {
        if !texts::is_digit(*b) {
            if (*b == b']') & ((1 <= n) & rest.is_empty()) {
                return Some(n);
            }
            return None;
        }
        n = n * 10 + u64::from(*b - b'0');
        if n < 1 {
            return None;
        }
        if 2147483647 < n {
            return None;
        }
        left = rest;
    }
    None
}

// What is behind the name in a head: nothing, or an identifier in brackets.
fn id_of(t: &[u8]) -> Option<u64>
    ensures { result ≡ spec.id_of t.now }
{
    match t {
        [] => Some(0),
        [b'[', digits @ ..] => id_from(digits),
        _ => None,
    }
}

// The first word of `s`, and what stands behind it; nothing where `s` has no word.
fn next_word(s: &[u8]) -> Option<(&[u8], &[u8])>
    ensures { MatchOption result (spec.words s.now ≡ []) (λ x. (spec.words s.now ≡ x.0.now ∷ spec.words x.1.now) × (length x.1.now < length s.now)) }
{
    let start = texts::rest(s, lead(s));
    let n = word_len(start);
    if n == 0 {
        return None;
    }
    Some(start.split_at(n))
}

// What stands behind the first word of a line, which may be empty.
fn behind(line: &[u8]) -> &[u8]
    ensures { spec.words result.now ≡ spec.behind line.now }
{
    texts::rest(line, word_len(line))
}

// The number of the arguments of a line, where each is valid.
fn arguments(line: &[u8]) -> Option<usize>
    ensures { result ≡ answers.count_of (spec.behind line.now) }
{
    let mut left = behind(line);
    let mut n = 0;
    while let Some((word, rest)) = next_word(left) {
        if !valid(word) {
            return None;
        }
        n += 1;
        left = rest;
    }
    Some(n)
}

// The word of argument `k`; where there is none, an empty one.
fn argument_word(line: &[u8], k: usize) -> &[u8]
    ensures { result.now ≡ get_or (spec.behind line.now) k [] }
{
    let mut left = behind(line);
    for _ in 0..k {
        let Some((_, rest)) = next_word(left) else {
            return &[];
        };
        left = rest;
    }
    match next_word(left) {
        Some((word, _)) => word,
        None => &[],
    }
}

// What the name and the identifier of a head say, of a line of `kind` with `count` arguments.
fn named(t: &[u8], kind: u8, count: usize) -> Option<Header>
    ensures { result ≡ answers.named_read kind t.now count }
{
    let n = name_len(t);
    if 64 < n {
        return None;
    }
    if n == 0 {
        return None;
    }
    if !texts::is_letter(t[0]) {
        return None;
    }
    let id = id_of(&t[n..])?;
    Some(Header {
        kind: kind,
        name: n,
        id: id,
        count: count,
    })
}

// What the first word of a line says, of a line with `count` arguments.
fn head(w: &[u8], count: usize) -> Option<Header>
    ensures { result ≡ answers.head_read w.now count }
{
    let (kind, rest) = w.split_first()?;
    if !kind_byte(*kind) {
        return None;
    }
    named(rest, *kind, count)
}

// Whether a line is empty or has spaces and tabs alone. One of over 2,048 bytes is no line, and so is not blank.
pub fn is_blank(line: &[u8]) -> bool
    ensures { result ≡ spec.blank_line line.now }
{
    (line.len() <= LONGEST) & (lead(line) == line.len())
}

// A line that is not blank: the message that it is, or malformed, also where it has over 2,048 bytes.
pub fn read(line: &[u8]) -> Option<Header>
    ensures { result ≡ answers.answer (spec.parse line.now) }
{
    if LONGEST < line.len() {
        return None;
    }
    let count = arguments(line)?;
    head(texts::prefix(line, word_len(line)), count)
}

// The text of argument `k`, copied to the start of `into`; where that is too short, `into` is left as it was.
pub fn argument(line: &[u8], k: usize, into: &mut [u8]) -> Option<usize>
    ensures value { result ≡ arguments.copied (arguments.argument line.now k) into.old }
    ensures into_after { into.new ≡ arguments.copied_into (arguments.argument line.now k) into.old }
{
    let word = argument_word(line, k);
    let n = text_len(word);
    if into.len() < n {
        return None;
    }
    put_unescaped(into, 0, word);
    Some(n)
}

// The name of a line's message, of `n` bytes.
pub fn name(line: &[u8], n: usize) -> &[u8]
    ensures { result.now ≡ take n (drop 1 line.now) }
{
    texts::prefix(texts::rest(line, 1), n)
}
