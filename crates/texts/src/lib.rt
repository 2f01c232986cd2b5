//! Texts: whether two are the same, the start of one, the class of its bytes, and tables of words. A table is one text, its words parted by bars.
#![tactic(auto)]

ghost use Rattle.std.specs.Prelude.{◌≡◌, ℕ, Bool, length, take, drop};
ghost use Rattle.output.specs.Text as text;
ghost use Rattle.output.specs.Read.{up_to, past};
ghost use Rattle.texts.specs.Class as classes;
ghost use Rattle.texts.specs.Table as tables;

// What parts the words of a table.
const BAR: u8 = b'|';

// Classes of bytes: spaces and tabs, and all others; those of a message's name; digits; every byte but one.
#[derive(Clone, Copy)]
pub enum Class {
    Blank,
    Word,
    Title,
    Digit,
    Other(u8),
}

// Whether two texts are the same.
pub fn same(a: &[u8], b: &[u8]) -> bool
    ensures { result ≡ text.same a.now b.now }
{
    a == b
}

// The first n bytes of s, which may be an array of any size; all of s where it is shorter.
pub fn prefix(s: &[u8], n: usize) -> &[u8]
    ensures { result.now ≡ take n s.now }
{
    s.get(..n).unwrap_or(s)
}

// What stands behind the first n bytes of s; nothing where it is shorter.
pub fn rest(s: &[u8], n: usize) -> &[u8]
    ensures { result.now ≡ drop n s.now }
{
    s.get(n..).unwrap_or(&[])
}

// Whether a text begins with this byte.
pub fn begins(s: &[u8], b: u8) -> bool
    ensures { result ≡ classes.begins b s.now }
{
    s.first() == Some(&b)
}

// A decimal digit.
#[tactic(auto, unfolding(output::specs::Text::is_digit))]
pub fn is_digit(b: u8) -> bool
    ensures { result ≡ text.is_digit b }
{
    b.is_ascii_digit()
}

// A letter of ASCII.
#[tactic(auto, unfolding(crate::specs::Class::letter))]
pub fn is_letter(b: u8) -> bool
    ensures { result ≡ classes.letter b }
{
    b.is_ascii_alphabetic()
}

// A byte of a sensor's name: without a branch, so that the check of a text takes many bytes at a time.
#[tactic(auto, unfolding(crate::specs::Class::name_byte))]
pub fn is_name_byte(b: u8) -> bool
    ensures { result ≡ classes.name_byte b }
{
    is_letter(b) | (is_digit(b) | ((b == b'.') | ((b == b'-') | (b == b'_'))))
}

// A byte of a message's name.
#[tactic(auto, unfolding(crate::specs::Class::title_byte))]
pub fn is_title_byte(b: u8) -> bool
    ensures { result ≡ classes.title_byte b }
{
    is_letter(b) || is_digit(b) || b == b'-'
}

// A space or a tab.
#[tactic(auto, unfolding(crate::specs::Class::blank))]
pub fn is_blank(b: u8) -> bool
    ensures { result ≡ classes.blank b }
{
    matches!(b, b' ' | b'\t')
}

// How many bytes a text starts with for which `is` answers true.
fn run_where<F: Fn(u8) -> bool>(s: &[u8], is: F) -> usize
    requires { F.IsAlwaysCallable is }
    ensures { (test : ℕ → Bool) → ((b : ℕ) (r : Bool) → F.post is b r → r ≡ test b) → result ≡ length (text.run test s.now) }
{
    s.iter().take_while(|b| is(**b)).count()
}

// How many bytes of a class a text starts with.
// kept: a class and not a test of the caller's, since a closure that is handed in has to be one that may be called, and so asks that of the caller.
pub fn run_len(s: &[u8], class: Class) -> usize
    ensures { result ≡ length (text.run (classes.in_class class) s.now) }
{
    match class {
        Class::Blank => run_where(s, is_blank),
        Class::Word => run_where(s, |b| !is_blank(b)),
        Class::Title => run_where(s, is_title_byte),
        Class::Digit => run_where(s, is_digit),
        Class::Other(stop) => run_where(s, |b| b != stop),
    }
}

// How many digits a text starts with.
pub fn digits_len(s: &[u8]) -> usize
    ensures { result ≡ length (text.run text.is_digit s.now) }
{
    run_len(s, Class::Digit)
}

// The digits that a text starts with.
pub fn digits(s: &[u8]) -> &[u8]
    ensures { result.now ≡ text.run text.is_digit s.now }
{
    prefix(s, digits_len(s))
}

// What stands behind them.
pub fn behind_digits(s: &[u8]) -> &[u8]
    ensures { result.now ≡ text.behind_run text.is_digit s.now }
{
    rest(s, digits_len(s))
}

// How many bytes of a text stand before its first byte `stop`; all of them where it has none.
pub fn len_before(s: &[u8], stop: u8) -> usize
    ensures { result ≡ length (up_to stop s.now) }
{
    run_len(s, Class::Other(stop))
}

// What stands behind the first byte `stop` of a text; nothing where it has none.
pub fn behind(s: &[u8], stop: u8) -> &[u8]
    ensures { result.now ≡ past stop s.now }
{
    rest(rest(s, len_before(s, stop)), 1)
}

// How many words a table has.
pub fn word_count(table: &[u8]) -> usize
    ensures { result ≡ tables.word_count table.now }
{
    table.split(|b| *b == BAR).count()
}

// The word at a place of a table, from 0; the last one from its place on.
pub fn word_of(table: &[u8], k: usize) -> &[u8]
    ensures { result.now ≡ tables.word_of table.now k }
{
    if let Some(word) = table.split(|b| *b == BAR).nth(k) {
        return word;
    }
    table.split(|b| *b == BAR).last().unwrap_or(&[])
}

// The place of a word in a table, where it is one of the table's words.
pub fn place_of(table: &[u8], word: &[u8]) -> Option<usize>
    ensures { result ≡ tables.below (tables.word_count table.now) (tables.place_of table.now word.now) }
{
    table.split(|b| *b == BAR).position(|w| w == word)
}
