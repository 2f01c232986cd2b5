//! Messages written as lines: identifiers and arguments with their escapes; and deliveries, which give a client a line.
//! Each writer has the contract of the writers of crate output.
#![tactic(auto)]

ghost use Rattle.std.specs.Prelude.{◌≡◌, [], ◌∷◌, ◌+◌, min, take, map};
ghost use Rattle.output.specs.Output.{output, Wrote};
ghost use Rattle.output.specs.Number.{number_text};
ghost use Rattle.message.specs.Message.{escape_byte, escape, arg, args_text, id_text, message, line};
ghost use Rattle.message.specs.Delivery.{header, to, Sent};

use output::Notation;

// A backslash and a letter.
fn put_pair(out: &mut [u8], at: usize, letter: u8) -> usize
    ensures { Wrote (output out.old at) (92 ∷ letter ∷ []) (output out.new result) }
{
    let p = output::put_byte(out, at, b'\\');
    output::put_byte(out, p, letter)
}

// One byte of an argument: the escapes in the guideline's sequence, all other bytes as they are.
fn put_escape(out: &mut [u8], at: usize, b: u8) -> usize
    ensures { Wrote (output out.old at) (escape_byte b) (output out.new result) }
{
    match b {
        b'\\' => put_pair(out, at, b'\\'), // backslash
        b' ' => put_pair(out, at, b'_'), // space
        0 => put_pair(out, at, b'0'), // null
        10 => put_pair(out, at, b'n'), // newline
        13 => put_pair(out, at, b'r'), // return
        27 => put_pair(out, at, b'e'), // escape
        9 => put_pair(out, at, b't'), // tab
        _ => output::put_byte(out, at, b),
    }
}

// An argument with its escapes; the last of their sequence, empty, is asked of the whole argument.
fn put_escaped(out: &mut [u8], at: usize, s: &[u8]) -> usize
    ensures { Wrote (output out.old at) (escape s.now) (output out.new result) }
{
    let mut p = at;
    for b in s {
        p = put_escape(out, p, *b);
    }
    if s.len() == 0 {
        return put_pair(out, p, b'@'); // empty
    }
    p
}

// An argument with the space before it.
pub fn put_arg(out: &mut [u8], at: usize, s: &[u8]) -> usize
    ensures { Wrote (output out.old at) (arg s.now) (output out.new result) }
{
    let p = output::put_byte(out, at, b' ');
    put_escaped(out, p, s)
}

// Arguments, one after another.
fn put_args(out: &mut [u8], at: usize, args: &[&[u8]]) -> usize
    ensures { Wrote (output out.old at) (args_text (map (λ a. a.now) args.now) []) (output out.new result) }
{
    let mut p = at;
    for a in args {
        p = put_arg(out, p, a);
    }
    p
}

// The first n bytes of s, which may be an array of any size; all of s where it is shorter.
pub fn put_arg_prefix(out: &mut [u8], at: usize, s: &[u8], n: usize) -> usize
    ensures { Wrote (output out.old at) (arg (take n s.now)) (output out.new result) }
{
    put_arg(out, at, texts::prefix(s, n))
}

// A stored number in its notation: the texts of numbers need no escapes.
pub fn put_arg_number(out: &mut [u8], at: usize, notation: Notation, n: u64) -> usize
    ensures { Wrote (output out.old at) (arg (number_text notation n)) (output out.new result) }
{
    let p = output::put_byte(out, at, b' ');
    output::put_number(out, p, notation, n)
}

// `[id]`; nothing for 0.
pub fn put_id(out: &mut [u8], at: usize, id: u64) -> usize
    ensures { Wrote (output out.old at) (id_text id) (output out.new result) }
{
    if id == 0 {
        return at;
    }
    let p = output::put_byte(out, at, b'[');
    let p = output::put_decimal(out, p, id);
    output::put_byte(out, p, b']')
}

// Where the line of a delivery at `at` starts, in an output of `len` bytes: the part from there on is lent to the line's writer.
pub fn line_start(len: usize, at: usize) -> usize
    ensures { result ≡ min (at + 3) len }
{
    at.saturating_add(3).min(len)
}

// The client and the length, high byte first, that stand before a line of n bytes.
pub fn put_header(out: &mut [u8], at: usize, client: u8, n: usize) -> usize
    ensures { Wrote (output out.old at) (header client n) (output out.new result) }
{
    let [.., high, low] = n.to_be_bytes();
    let p = output::put_byte(out, at, client);
    let p = output::put_byte(out, p, high);
    output::put_byte(out, p, low)
}

// The line of a message, from the start of out: its length.
fn put_line(out: &mut [u8], kind: u8, name: &[u8], id: u64, args: &[&[u8]]) -> usize
    ensures { Wrote (output out.old 0) (line (message kind name.now id (map (λ a. a.now) args.now))) (output out.new result) }
{
    let p = output::put_byte(out, 0, kind);
    let p = output::put_bytes(out, p, name);
    let p = put_id(out, p, id);
    let p = put_args(out, p, args);
    output::put_byte(out, p, b'\n')
}

// A message to a client.
pub fn deliver(
    out: &mut [u8],
    at: usize,
    client: u8,
    kind: u8,
    name: &[u8],
    id: u64,
    args: &[&[u8]],
) -> usize
    ensures { Sent (output out.old at) (to client (message kind name.now id (map (λ a. a.now) args.now)) ∷ []) (output out.new result) }
{
    let start = line_start(out.len(), at);
    let n = put_line(&mut out[start..], kind, name, id, args);
    let p = put_header(out, at, client, n);
    p + n
}
