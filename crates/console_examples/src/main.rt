//! Input lines of the console, ill-formed ones among them. It begins as the console does. For each line of standard input it prints the line, the
//! number of the call that the line makes, and what client 0 is sent; the unit is that of `sheet.lgu`.
#![tactic(auto)]

ghost use Rattle.stream.specs.Content.{Within};

use machine::State;
use std::fs::File;
use std::io::{Read, Write};
use std::rt::{Files, HostRuntime};
use stream::{ReadFault, Unwritten};

// An input line is carried out: the line, the number of its call, and what client 0 is sent.
fn show<W: Write>(
    to: &mut W,
    state: &mut State,
    line: &[u8],
    out: &mut [u8],
) -> Result<(), Unwritten> {
    let answer = terminal::perform(*state, line, out);
    *state = answer.state;
    stream::print(to, b"> ")?;
    stream::print(to, line)?;
    stream::print(to, b"\n")?;
    stream::print_decimal(to, u64::from(answer.number))?;
    stream::print(to, b"\n")?;
    terminal::print_lines(to, texts::prefix(out, answer.written))
}

// Each line, the last one too where it has no end.
fn show_lines<W: Write>(
    to: &mut W,
    s: &[u8],
    state: &mut State,
    out: &mut [u8],
) -> Result<(), Unwritten> {
    for piece in s.split_inclusive(|b| *b == b'\n') {
        let line = piece.strip_suffix(b"\n").unwrap_or(piece);
        show(to, state, line, out)?;
    }
    Ok(())
}

// The unit of a sheet, through the lines of standard input.
fn run<R: Read, W: Write, E: Write>(
    input: &mut R,
    to: &mut W,
    errors: &mut E,
    sheet: &[u8],
) -> Result<(), Unwritten> {
    let opened = device::open(0, sheet);
    let mut out = io::large_buffer();
    let connected = terminal::connect(opened.state, &mut out);
    terminal::print_lines(to, texts::prefix(&out, connected.written))?;
    let asked = terminal::ask_info(connected.state, &mut out);
    terminal::print_lines(to, texts::prefix(&out, asked.written))?;
    let mut state = asked.state;
    let mut buf = io::large_buffer();
    let n = stream::read_input(input, errors, &mut buf);
    show_lines(to, &buf[..n], &mut state, &mut out)
}

// The bytes of the sheet; where it cannot be opened, it is not read.
fn read_sheet<R: Files>(rt: &R, sheet: &mut [u8]) -> Result<usize, ReadFault>
    ensures { Within sheet.new result }
{
    let Ok(mut file) = File::open(rt, "sheet.lgu") else {
        return Err(ReadFault::Unread);
    };
    stream::read_all(&mut file, sheet)
}

fn main(rt: HostRuntime) {
    let mut errors = rt.stderr();
    let mut sheet = io::large_buffer();
    let Ok(size) = read_sheet(&rt, &mut sheet) else {
        stream::complain(&mut errors, b"sheet.lgu cannot be read.\n");
        return;
    };
    let printed = run(
        &mut rt.stdin(),
        &mut rt.stdout(),
        &mut errors,
        &sheet[..size],
    );
    if printed.is_err() {
        stream::say_unwritten(&mut errors);
    }
}
