//! What a stored run can show of `stream`, a line for each: writes that fail and one of nothing, files that end, files that the buffer is too short
//! for, and reads that fail. Then standard input, through a buffer of 16 bytes, and that it ended.
#![tactic(auto)]

use input::Window;
use std::fs::File;
use std::io;
use std::io::{Error, Read, Write};
use std::rt::{Files, HostRuntime};
use stream::{ReadFault, Unwritten};

// A line: what was done, a number and what it counts.
fn show_count<W: Write>(to: &mut W, what: &[u8], n: usize, unit: &[u8]) -> Result<(), Unwritten> {
    let mut line = [0u8; 128];
    let p = output::put_bytes(&mut line, 0, what);
    let p = output::put_decimal(&mut line, p, n as u64);
    let p = output::put_bytes(&mut line, p, unit);
    stream::print(to, texts::prefix(&line, p))
}

// A descriptor that is not open, to which the system answers EBADF. No call of std lends one.
#[derive(Clone, Copy)]
struct Closed;

impl Read for Closed {
    fn read(&mut self, _buf: &mut [u8]) -> io::Result<usize> {
        Err(Error::from_raw_os_error(9))
    }
}

impl Write for Closed {
    fn write(&mut self, _buf: &[u8]) -> io::Result<usize> {
        Err(Error::from_raw_os_error(9))
    }

    fn flush(&mut self) -> io::Result<()> {
        Ok(())
    }
}

// How many bytes of a word a descriptor takes.
fn show_write<W: Write, F: Write>(
    to: &mut W,
    what: &[u8],
    file: &mut F,
    word: &[u8],
) -> Result<(), Unwritten> {
    let taken = stream::write_all(file, word);
    show_count(to, what, taken, b" bytes taken\n")
}

// Why what a descriptor holds is not known.
fn reason(fault: ReadFault) -> &'static [u8] {
    match fault {
        ReadFault::TooLong => b"longer than the buffer\n",
        ReadFault::Unread => b"the read failed\n",
    }
}

// What a descriptor holds, through a buffer of 64 bytes.
fn show_read<W: Write, F: Read>(to: &mut W, what: &[u8], file: &mut F) -> Result<(), Unwritten> {
    let mut buf = [0u8; 64];
    let content = stream::read_all(file, &mut buf);
    match content {
        Ok(n) => show_count(to, what, n, b" bytes and the end\n"),
        Err(fault) => {
            stream::print(to, what)?;
            stream::print(to, reason(fault))
        }
    }
}

fn show_file<R: Files, W: Write>(
    rt: &R,
    to: &mut W,
    what: &[u8],
    path: &str,
) -> Result<(), Unwritten> {
    match File::open(rt, path) {
        Ok(mut file) => show_read(to, what, &mut file),
        Err(_) => show_read(to, what, &mut Closed),
    }
}

// A descriptor that is open for reading only, and one that is not open.
fn show_writes_to<W: Write, F: Write>(to: &mut W, file: &mut F) -> Result<(), Unwritten> {
    show_write(to, b"write of nothing: ", file, b"")?;
    show_write(
        to,
        b"write to a file that is open for reading: ",
        file,
        b"word\n",
    )?;
    show_write(
        to,
        b"write to a descriptor that is closed: ",
        &mut Closed,
        b"word\n",
    )
}

fn show_writes<R: Files, W: Write>(rt: &R, to: &mut W) -> Result<(), Unwritten> {
    match File::open(rt, "short") {
        Ok(mut file) => show_writes_to(to, &mut file),
        Err(_) => show_writes_to(to, &mut Closed),
    }
}

fn show_reads<R: Files, W: Write>(rt: &R, to: &mut W) -> Result<(), Unwritten> {
    show_file(rt, to, b"read of an empty file: ", "empty")?;
    show_file(rt, to, b"read of a file of 63 bytes: ", "short")?;
    show_file(rt, to, b"read of a file of 64 bytes: ", "full")?;
    show_file(rt, to, b"read of a file of 200 bytes: ", "long")?;
    show_file(rt, to, b"read of a directory: ", ".")?;
    show_read(to, b"read of a descriptor that is closed: ", &mut Closed)
}

// Standard input to standard output, until it ends or one of the two fails.
// kept: `stream::for_each_line` hands on lines, of which it cuts those that fill the buffer; this prints all that each read brings.
fn copy_input<R: Read, W: Write, E: Write>(
    input: &mut R,
    to: &mut W,
    errors: &mut E,
    buf: &mut [u8],
) -> Result<(), Unwritten> {
    let mut more = stream::refill(input, buf, Window { from: 0, to: 0 }, 0);
    for _ in 0..u64::MAX {
        let Ok(came) = more else {
            break;
        };
        if came.to <= came.from {
            break;
        }
        stream::print(to, &buf[..came.to])?;
        more = stream::refill(input, buf, Window { from: 0, to: 0 }, 0);
    }
    if more.is_err() {
        stream::say_unread(errors);
        return Ok(());
    }
    stream::print(to, b"standard input ended\n")
}

// All of it, in order, up to the first print that fails.
fn show_all<R: Files, I: Read, W: Write, E: Write>(
    rt: &R,
    input: &mut I,
    to: &mut W,
    errors: &mut E,
) -> Result<(), Unwritten> {
    show_writes(rt, to)?;
    show_reads(rt, to)?;
    let mut buf = [0u8; 16];
    copy_input(input, to, errors, &mut buf)
}

fn main(rt: HostRuntime) {
    let to = &mut rt.stdout();
    let errors = &mut rt.stderr();
    if show_all(&rt, &mut rt.stdin(), to, errors).is_err() {
        stream::say_unwritten(errors);
    }
}
