//! What a program reads and writes: a reader or a writer is lent to each call. A call that was interrupted or whose descriptor is not ready is made
//! again; a call that fails is told from the end of the input, and ends the work.
#![tactic(auto)]

ghost use Rattle.std.specs.Prelude.{ℕ, List, ◌+◌, ◌<◌, ◌≤◌, ◌≡◌, false, [], length, take, drop, negsuc, IfSome, IfErr, IsOk, IfOk, OnOk, OnErr};
ghost use Rattle.std.specs.IoError.{raw_os_error};
ghost use Rattle.std.specs.Io.KnownBytes.{Appends, Consumes, IsAtEnd};
ghost use Rattle.stream.specs.Filled.{Behind, Filled, empty_at};
ghost use Rattle.stream.specs.Content.{Within, AllOf};
ghost use Rattle.stream.specs.Errors.{is_to_repeat};
ghost use Rattle.stream.specs.declared.ReadFault.TheVariants as faults;
ghost use Rattle.stream.specs.declared.InputFault.TheVariants as ends;
ghost use Rattle.input.specs.Window.{kept};
ghost use Rattle.io.specs.Counts.{IsPrefixLen};
ghost use Rattle.io.specs.Digits.{IsDigitCount, last_digits};

use input::Window;
use std::fs::{OpenFile, OpenOptions};
use std::io::{ErrorKind, Read, Write};
use std::os::fd::AsFd;
use std::rt::Files;

// The numbers of the errors of a call that is to be made again: a signal interrupted it, or its descriptor was not ready.
const EINTR: i32 = 4;

const EAGAIN: i32 = 11;

// A write that failed before all bytes were taken.
#[derive(Clone, Copy, Debug, PartialEq, Eq)]
pub struct Unwritten;

// A read that failed.
#[derive(Clone, Copy, Debug, PartialEq, Eq)]
pub struct Unread;

// Why the whole of an input is not at hand: it has more bytes than the buffer has room for, or a read failed.
#[derive(Clone, Copy, Debug, PartialEq, Eq)]
pub enum ReadFault {
    TooLong,
    Unread,
}

impl From<Unread> for ReadFault {
    ghost from_gives = { λ _ fault. fault ≡ faults.Unread };

    fn from(_failed: Unread) -> ReadFault {
        ReadFault::Unread
    }
}

// Why an input was not worked through to its end: a read failed, or a write of what is answered to it.
#[derive(Clone, Copy, Debug, PartialEq, Eq)]
pub enum InputFault {
    Unread,
    Unwritten,
}

impl From<Unread> for InputFault {
    ghost from_gives = { λ _ fault. fault ≡ ends.Unread };

    fn from(_failed: Unread) -> InputFault {
        InputFault::Unread
    }
}

impl From<Unwritten> for InputFault {
    ghost from_gives = { λ _ fault. fault ≡ ends.Unwritten };

    fn from(_failed: Unwritten) -> InputFault {
        InputFault::Unwritten
    }
}

// Whether the call that answered `got` and left this error is to be made again: a signal interrupted it, or its descriptor was not ready.
fn is_to_repeat(got: isize, error: i32) -> bool
    ensures { result ≡ is_to_repeat got error }
{
    (got < 0) & ((error == EINTR) | (error == EAGAIN))
}

// The same of a call's answer. Before it is made again, the processor is given to others.
fn again(answer: &std::io::Result<usize>) -> bool
    ensures ok { IsOk answer.now → result ≡ false }
    ensures err { IfErr answer.now (λ e. IfSome (raw_os_error e) (λ code. result ≡ is_to_repeat (negsuc 0) code)) }
{
    let Err(error) = answer else {
        return false;
    };
    let repeat = is_to_repeat(-1, error.raw_os_error().unwrap_or(0));
    if repeat {
        std::thread::yield_now();
    }
    repeat
}

// Writes the bytes in their order, each write from where the last one stopped: how many were taken, which is all of them, or those before the
// first write that failed. In at most 2^64 writes: a descriptor need not become ready, and this ends.
pub fn write_all<W: Write>(to: &mut W, bytes: &[u8]) -> usize
    ensures bound { result ≤ length bytes.now }
    ensures taken { Appends (W.contents to.old) (W.contents to.new) (take result bytes.now) }
{
    let mut at: usize = 0;
    for _ in 0..u64::MAX {
        if at == bytes.len() {
            return at;
        }
        let answer = to.write(&bytes[at..]);
        let repeat = again(&answer);
        let taken = answer.unwrap_or(0);
        if (taken == 0) & !repeat {
            return at;
        }
        at += taken;
    }
    at
}

// The bytes go to an output, all of them.
pub fn print<W: Write>(to: &mut W, bytes: &[u8]) -> Result<(), Unwritten>
    ensures nothing { bytes.now ≡ [] → IsOk result }
    ensures all { OnOk result (Appends (W.contents to.old) (W.contents to.new) bytes.now) }
{
    if write_all(to, bytes) == bytes.len() {
        return Ok(());
    }
    Err(Unwritten)
}

// A number goes to an output, in decimal, with all its digits.
pub fn print_decimal<W: Write>(to: &mut W, n: u64) -> Result<(), Unwritten>
    ensures { OnOk result ((k : ℕ) × IsDigitCount 10 1 n k × Appends (W.contents to.old) (W.contents to.new) (last_digits 10 k n)) }
{
    let mut digits = [0u8; 20];
    let k = io::decimal(n, &mut digits);
    print(to, &digits[..k])
}

// What standard output was given goes to its disk behind the last byte, since some disks say only then that they did not take all: it is still
// open, and its disk, where it has one, took all.
pub fn close_output<R: Files, W: AsFd>(rt: &R, out: &W) -> Result<(), Unwritten> {
    let open = out.as_fd().try_clone_to_owned().is_ok();
    if open && is_on_disk(rt, "/dev/stdout") {
        return Ok(());
    }
    Err(Unwritten)
}

// Whether the disk took what the file was given. What is no file, or cannot be asked, has no disk that could say otherwise.
fn is_on_disk<R: Files>(rt: &R, path: &str) -> bool {
    let is_file = std::fs::metadata(rt, path).is_ok_and(|about| about.is_file());
    if !is_file {
        return true;
    }
    let Ok(file) = OpenOptions::new().append(true).open(rt, path) else {
        return true;
    };
    match file.sync_data() {
        Ok(()) => true,
        Err(error) => error.kind() == ErrorKind::InvalidInput,
    }
}

// A sentence goes to standard error.
pub fn complain<W: Write>(errors: &mut W, why: &[u8]) {
    write_all(errors, why);
}

// The sentence of a program that stops at a write that failed.
pub fn say_unwritten<W: Write>(errors: &mut W) {
    complain(
        errors,
        b"Standard output cannot be written: the lines end here.\n",
    );
}

// The sentence of a program that stops at a read that failed.
pub fn say_unread<W: Write>(errors: &mut W) {
    complain(errors, b"Standard input cannot be read.\n");
}

// A read behind the first `to` bytes of the buffer, in at most 2^64 tries: how many bytes the buffer then holds. The end of the input, and a buffer
// that is full, bring no bytes.
fn read_behind<R: Read>(input: &mut R, buf: &mut [u8], to: usize) -> Result<usize, Unread>
    requires { to ≤ length buf.old }
    ensures behind { IfOk result (λ end. Behind buf.old to buf.new end) }
    ensures bytes { IfOk result (λ end. Consumes (R.remaining input.old) (R.remaining input.new) (drop to (take end buf.new))) }
    ensures end { IfOk result (λ end. end ≡ to → to < length buf.old → IsAtEnd (R.remaining input.new)) }
    ensures err_behind { OnErr result (Behind buf.old to buf.new to) }
    ensures err_bytes { OnErr result (Consumes (R.remaining input.old) (R.remaining input.new) []) }
{
    for _ in 0..u64::MAX {
        let answer = input.read(&mut buf[to..]);
        if !again(&answer) {
            let Ok(n) = answer else {
                return Err(Unread);
            };
            return Ok(to + n);
        }
    }
    Err(Unread)
}

// Room is made for more behind the pending bytes, and more is read: the bytes that came are those of the window that is answered, and none where
// the input has ended or there is no room. Where the pending bytes fill the buffer, the first `most` of them are kept.
pub fn refill<R: Read>(
    input: &mut R,
    buf: &mut [u8],
    w: Window,
    most: usize,
) -> Result<Window, Unread>
    ensures filled { IfOk result (λ more. Filled buf.old w most buf.new more) }
    ensures bytes { IfOk result (λ more. Consumes (R.remaining input.old) (R.remaining input.new) (drop more.from (take more.to buf.new))) }
    ensures end { IfOk result (λ more. more.to ≡ more.from → more.from < length buf.old → IsAtEnd (R.remaining input.new)) }
    ensures err_filled { OnErr result (Filled buf.old w most buf.new (empty_at (length (kept buf.old w most)))) }
    ensures err_bytes { OnErr result (Consumes (R.remaining input.old) (R.remaining input.new) []) }
{
    let rest = input::make_room(buf, w, most);
    let from = rest.to;
    let to = read_behind(input, buf, from)?;
    Ok(Window { from: from, to: to })
}

// Reads to the end of the input, which is known where the buffer has room left: how many bytes it has.
pub fn read_all<R: Read>(input: &mut R, buf: &mut [u8]) -> Result<usize, ReadFault>
    ensures within { Within buf.new result }
    ensures all { AllOf (R.remaining input.old) buf.new result }
{
    let mut from: usize = 0;
    let mut to = read_behind(input, buf, 0)?;
    while from < to {
        from = to;
        to = read_behind(input, buf, from)?;
    }
    if from < buf.len() {
        return Ok(from);
    }
    Err(ReadFault::TooLong)
}

// All of standard input: how many bytes it has. Where it cannot be read or the buffer is too short for it, a sentence says so, and there are none.
pub fn read_input<R: Read, W: Write>(input: &mut R, errors: &mut W, buf: &mut [u8]) -> usize
    ensures within { IsPrefixLen result buf.new }
    ensures all { 0 < result → IfSome (R.remaining input.old) (λ xs. xs ≡ take result buf.new) }
{
    match read_all(input, buf) {
        Ok(n) => {
            return n;
        }
        Err(ReadFault::TooLong) => complain(errors, b"Standard input is too long.\n"),
        Err(ReadFault::Unread) => say_unread(errors),
    }
    0
}

// The bytes at hand go to `each` after every read that brought some: it answers how many of them it used, and those behind stay at hand. Where they
// fill the buffer, the first `most` of them are kept. To the end of the input, in at most 2^64 reads: an input need not end, and this does. How many
// bytes are left at hand, at the start of the buffer.
fn for_each_read<R: Read, F: FnMut(&[u8]) -> Result<usize, Unwritten>>(
    input: &mut R,
    buf: &mut [u8],
    most: usize,
    mut each: F,
) -> Result<usize, InputFault>
    requires { F.IsAlwaysCallable each }
    ensures size { length buf.new ≡ length buf.old }
    ensures within { IfOk result (λ n. n ≤ length buf.new) }
    ensures bytes { (came : List ℕ) × Consumes (R.remaining input.old) (R.remaining input.new) came }
{
    let mut came = refill(input, buf, Window { from: 0, to: 0 }, most)?;
    for _ in 0..u64::MAX {
        if came.to == came.from {
            break;
        }
        let used = each(&buf[..came.to])?;
        let pending = Window {
            from: used,
            to: came.to,
        };
        came = refill(input, buf, pending, most)?;
    }
    Ok(came.to)
}

// What a program does with the lines of its input.
pub trait Lines {
    // A line, without its end.
    fn line(&mut self, line: &[u8]) -> Result<(), Unwritten>;

    // No other line is at hand: what was held back is printed.
    fn pause(&mut self) -> Result<(), Unwritten>;
}

// The lines that end in `s` are taken, up to one that fails: how many bytes they have.
fn take_lines<L: Lines>(lines: &mut L, s: &[u8]) -> Result<usize, Unwritten>
    ensures { IfOk result (λ used. used ≤ length s.now) }
{
    let mut rest = s;
    while let Some(end) = rest.iter().position(|b| *b == b'\n') {
        lines.line(&rest[..end])?;
        rest = &rest[end + 1..];
    }
    lines.pause()?;
    Ok(s.len() - rest.len())
}

// Each line of an input is taken, up to one that fails. Of a line that fills the buffer the first `longest` bytes are one. A last line need not have
// an end. Where a read fails, a sentence says so, and what came of a line is not taken.
pub fn for_each_line<R: Read, L: Lines, E: Write>(
    input: &mut R,
    buf: &mut [u8],
    longest: usize,
    lines: &mut L,
    errors: &mut E,
) -> Result<(), Unwritten>
    ensures size { length buf.new ≡ length buf.old }
    ensures bytes { (came : List ℕ) × Consumes (R.remaining input.old) (R.remaining input.new) came }
{
    match for_each_read(input, buf, longest, |s| take_lines(lines, s)) {
        Ok(0) => Ok(()),
        Ok(n) => {
            lines.line(&buf[..n])?;
            lines.pause()
        }
        Err(InputFault::Unread) => {
            say_unread(errors);
            Ok(())
        }
        Err(InputFault::Unwritten) => Err(Unwritten),
    }
}
