//! Lines through the reader: each of the 256 bytes behind a backslash, then each line of standard input. For a message it prints the
//! kind and name, the id, the number of arguments and each argument's text in hex.
#![tactic(auto)]

use std::io::Write;
use std::rt::HostRuntime;
use stream::Unwritten;

// A byte in hex.
fn print_byte<W: Write>(to: &mut W, b: u8) -> Result<(), Unwritten> {
    let mut digits = [0u8; 16];
    let k = io::hex(u64::from(b), 2, &mut digits);
    stream::print(to, &digits[..k])
}

// The bytes of s in hex, `-` for none, behind a space.
fn print_bytes<W: Write>(to: &mut W, s: &[u8]) -> Result<(), Unwritten> {
    if s.is_empty() {
        return stream::print(to, b" -");
    }
    stream::print(to, b" ")?;
    for b in s {
        print_byte(to, *b)?;
    }
    Ok(())
}

fn print_argument<W: Write>(to: &mut W, line: &[u8], k: usize) -> Result<(), Unwritten> {
    let mut text = [0u8; 2048];
    let Some(n) = line::argument(line, k, &mut text) else {
        return Ok(());
    };
    print_bytes(to, texts::prefix(&text, n))
}

fn print_arguments<W: Write>(to: &mut W, line: &[u8], count: usize) -> Result<(), Unwritten> {
    for k in 0..count {
        print_argument(to, line, k)?;
    }
    Ok(())
}

// The kind byte and the name, n bytes.
fn print_name<W: Write>(to: &mut W, line: &[u8], n: usize) -> Result<(), Unwritten> {
    if n < line.len() {
        return stream::print(to, &line[..n + 1]);
    }
    Ok(())
}

fn show<W: Write>(to: &mut W, line: &[u8]) -> Result<(), Unwritten> {
    if line::is_blank(line) {
        return stream::print(to, b"blank\n");
    }
    let Some(h) = line::read(line) else {
        return stream::print(to, b"12\n");
    };
    print_name(to, line, h.name)?;
    stream::print(to, b" ")?;
    stream::print_decimal(to, h.id)?;
    stream::print(to, b" ")?;
    stream::print_decimal(to, h.count as u64)?;
    print_arguments(to, line, h.count)?;
    stream::print(to, b"\n")
}

// `?a \` and a byte.
fn show_escape<W: Write>(to: &mut W, b: u8) -> Result<(), Unwritten> {
    stream::print_decimal(to, u64::from(b))?;
    stream::print(to, b": ")?;
    show(to, &[b'?', b'a', b' ', b'\\', b])
}

fn show_escapes<W: Write>(to: &mut W) -> Result<(), Unwritten> {
    for b in 0..=u8::MAX {
        show_escape(to, b)?;
    }
    Ok(())
}

// Each line, the last one too where it has no end.
fn show_lines<W: Write>(to: &mut W, s: &[u8]) -> Result<(), Unwritten> {
    for piece in s.split_inclusive(|b| *b == b'\n') {
        show(to, piece.strip_suffix(b"\n").unwrap_or(piece))?;
    }
    Ok(())
}

fn main(rt: HostRuntime) {
    let to = &mut rt.stdout();
    let errors = &mut rt.stderr();
    let mut input = io::large_buffer();
    let n = stream::read_input(&mut rt.stdin(), errors, &mut input);
    let printed = show_escapes(to);
    if printed.and_then(|()| show_lines(to, &input[..n])).is_err() {
        stream::say_unwritten(errors);
    }
}
