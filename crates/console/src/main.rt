//! The console of document 01: opens `sheet.lgu` in the folder that it is run in, connects client 0 as `console`, asks for log entries from info
//! on, and prints its lines. An input line `@ n` ticks to n ms, `= s v` gives sensor s integer v, and every other line goes to the server.
#![tactic(auto)]

use machine::{Answer, State};
use std::fs::File;
use std::io::{Read, Write};
use std::rt::HostRuntime;
use stream::{Lines, ReadFault, Unwritten};

// The unit, where what client 0 is sent is printed, and the output that is lent to each call.
#[derive(Drop)]
struct Console<'a, W> {
    state: State,
    to: &'a mut W,
    out: &'a mut [u8],
}

impl<W: Write> Console<'_, W> {
    // What a call left: its state, and of what it wrote client 0's lines, which are printed.
    fn take(&mut self, answer: Answer) -> Result<(), Unwritten> {
        self.state = answer.state;
        let to = &mut *self.to;
        let out = &mut *self.out;
        terminal::print_lines(to, texts::prefix(out, answer.written))
    }
}

// An input line is carried out, and what the client is sent is printed.
impl<W: Write> Lines for Console<'_, W> {
    fn line(&mut self, line: &[u8]) -> Result<(), Unwritten> {
        let answer = terminal::perform(self.state, line, self.out);
        self.take(answer)
    }

    fn pause(&mut self) -> Result<(), Unwritten> {
        Ok(())
    }
}

// Client 0 is connected to the unit, asks for info, and is served. Of a line that fills the buffer the first 2,049 bytes are enough: it is too long
// whatever follows.
fn run<R: Read, W: Write, E: Write>(
    input: &mut R,
    to: &mut W,
    errors: &mut E,
    unit: State,
) -> Result<(), Unwritten> {
    let mut out = io::large_buffer();
    let mut console = Console {
        state: unit,
        to: to,
        out: &mut out,
    };
    let connected = terminal::connect(console.state, console.out);
    console.take(connected)?;
    let asked = terminal::ask_info(console.state, console.out);
    console.take(asked)?;
    let mut buf = io::buffer();
    stream::for_each_line(input, &mut buf, 2049, &mut console, errors)
}

// The unit of a sheet's bytes.
fn start(rt: &HostRuntime, sheet: &[u8]) {
    let mut to = rt.stdout();
    let mut errors = rt.stderr();
    let opened = device::open(0, sheet);
    if opened.number != 0 {
        stream::complain(&mut errors, b"sheet.lgu is not a sheet.\n");
        return;
    }
    let printed = run(&mut rt.stdin(), &mut to, &mut errors, opened.state);
    if printed
        .and_then(|()| stream::close_output(rt, &to))
        .is_err()
    {
        stream::say_unwritten(&mut errors);
    }
}

fn main(rt: HostRuntime) {
    let mut errors = rt.stderr();
    let Ok(mut file) = File::open(&rt, "sheet.lgu") else {
        stream::complain(&mut errors, b"sheet.lgu cannot be opened.\n");
        return;
    };
    let mut bytes = io::large_buffer();
    let content = stream::read_all(&mut file, &mut bytes);
    drop(file);
    match content {
        Ok(n) => start(&rt, &bytes[..n]),
        Err(ReadFault::TooLong) => {
            stream::complain(&mut errors, b"sheet.lgu is not a sheet.\n");
        }
        Err(ReadFault::Unread) => {
            stream::complain(&mut errors, b"sheet.lgu cannot be read.\n");
        }
    }
}
