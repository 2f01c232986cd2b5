//! Texts through the readers of parameters, and doubles through the reading of floats. For each line of standard input it prints what the
//! line is as an integer difference, a float difference, a period and a shortest period (`19` where it is none), each written again; and of
//! a line of 16 hex digits, the text of the double with these bits as a reading of a float sensor (`10` where it is unfit).
#![tactic(auto)]

use output::Notation;
use std::io::Write;
use std::rt::HostRuntime;
use stream::Unwritten;
use value::Reading;

// A parameter written again, `19` where it is none.
fn print_parameter<W: Write>(
    to: &mut W,
    parameter: Option<u64>,
    notation: Notation,
) -> Result<(), Unwritten> {
    let Some(x) = parameter else {
        return stream::print(to, b"19");
    };
    let mut out = [0u8; 32];
    let n = output::put_number(&mut out, 0, notation, x);
    stream::print(to, texts::prefix(&out, n))
}

fn print_double<W: Write>(to: &mut W, bits: u64) -> Result<(), Unwritten> {
    let reading = Reading::Float(in_hex::double_of(bits));
    let Some(s) = value::sample_of(2, 0, reading) else {
        return stream::print(to, b"10");
    };
    let mut out = [0u8; 32];
    let n = output::put_number(&mut out, 0, Notation::Float, s.number);
    stream::print(to, texts::prefix(&out, n))
}

// The double of a line of hex digits, behind a space.
fn show_double<W: Write>(to: &mut W, text: &[u8]) -> Result<(), Unwritten> {
    let Some(bits) = in_hex::read_bits(text) else {
        return Ok(());
    };
    stream::print(to, b" ")?;
    print_double(to, bits)
}

fn show<W: Write>(to: &mut W, text: &[u8]) -> Result<(), Unwritten> {
    print_parameter(
        to,
        value::read_integer_difference(text),
        Notation::WholeDifference,
    )?;
    stream::print(to, b" ")?;
    print_parameter(to, value::read_float_difference(text), Notation::Difference)?;
    stream::print(to, b" ")?;
    print_parameter(to, value::read_period(text), Notation::Time)?;
    stream::print(to, b" ")?;
    print_parameter(to, value::read_shortest(text), Notation::Time)?;
    show_double(to, text)?;
    stream::print(to, b"\n")
}

// Each line, the last one too where it has no end.
fn show_lines<W: Write>(to: &mut W, s: &[u8]) -> Result<(), Unwritten> {
    for piece in s.split_inclusive(|b| *b == b'\n') {
        show(to, piece.strip_suffix(b"\n").unwrap_or(piece))?;
    }
    Ok(())
}

fn main(rt: HostRuntime) {
    let to = &mut rt.stdout();
    let errors = &mut rt.stderr();
    let mut input = io::large_buffer();
    let n = stream::read_input(&mut rt.stdin(), errors, &mut input);
    if show_lines(to, &input[..n]).is_err() {
        stream::say_unwritten(errors);
    }
}
