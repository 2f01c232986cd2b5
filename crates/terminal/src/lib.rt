//! The console's part that can be proved: the calls that it makes before it reads a line, what an input line asks, the call that this makes, and
//! the lines that a client is shown of a call's output.
#![tactic(auto)]

ghost use Rattle.std.specs.Prelude.{◌≡◌, cond, [], ◌+◌, ◌*◌, ◌≤◌, min, take, OnOk};
ghost use Rattle.std.specs.Io.KnownBytes.{Appends};
ghost use Rattle.output.specs.Output.{output, Wrote};
ghost use Rattle.output.specs.Read.{read_decimal, read_integer};
ghost use Rattle.machine.specs.Declined as calls;
ghost use Rattle.machine.specs.Machine.{step, answer_of, output_of};
ghost use Rattle.input.specs.Words.{word_at, integer_of};
ghost use Rattle.terminal.specs.Entry as entries;
ghost use Rattle.terminal.specs.Shown as shown;
ghost use Rattle.terminal.specs.Start as start;

use machine::{Answer, State};
use std::io::Write;
use stream::Unwritten;
use value::Reading;

// What an input line is: a tick, a sensor's reading, or a line for the server.
#[derive(Clone, Copy)]
pub enum Entry {
    Tick(u64),
    Reading(usize, Reading),
    Line,
}

// A decimal; the largest number where it is larger.
#[tactic(auto, unfolding(crate::specs::Entry::natural))]
fn natural(t: &[u8]) -> Option<u64>
    ensures { result ≡ entries.natural t.now (read_decimal t.now) }
{
    let larger = input::is_natural(t).then_some(u64::MAX);
    numbers::read_decimal(t).or(larger)
}

// Whether a text is an integer, of any size.
#[tactic(auto, unfolding(crate::specs::Entry::is_whole))]
fn is_whole(t: &[u8]) -> bool
    ensures { result ≡ entries.is_whole t.now }
{
    match t {
        [] => false,
        [b'-', size @ ..] => input::is_natural(size) & !texts::same(size, b"0"),
        _ => input::is_natural(t),
    }
}

// The reading of an integer, unfit for every sensor where it is too large.
#[tactic(auto, unfolding(crate::specs::Entry::fitting))]
fn integer_reading(t: &[u8]) -> Reading
    ensures { result ≡ entries.fitting (integer_of (read_integer t.now)) }
{
    input::read_integer(t).map_or(Reading::Boolean(255), Reading::Integer)
}

// `@ n`.
fn tick_entry(line: &[u8]) -> Entry
    ensures { result ≡ entries.ticking (entries.natural (word_at 1 line.now) (read_decimal (word_at 1 line.now))) }
{
    natural(input::word(line, 1)).map_or(Entry::Line, Entry::Tick)
}

// `= s v`.
fn reading_entry(line: &[u8]) -> Entry
    ensures { result ≡ entries.giving (entries.natural (word_at 1 line.now) (read_decimal (word_at 1 line.now))) (word_at 2 line.now) }
{
    let Some(sensor) = natural(input::word(line, 1)) else {
        return Entry::Line;
    };
    let v = input::word(line, 2);
    if !is_whole(v) {
        return Entry::Line;
    }
    Entry::Reading(sensor as usize, integer_reading(v))
}

// What an input line is.
fn entry_of(line: &[u8]) -> Entry
    ensures { result ≡ entries.entry_of line.now }
{
    if line::LONGEST < line.len() {
        return Entry::Line;
    }
    if input::has_words(line, b"@", 1) {
        return tick_entry(line);
    }
    if input::has_words(line, b"=", 2) {
        return reading_entry(line);
    }
    Entry::Line
}

// The call that an input line makes; a reading is given the clock as its time.
pub fn perform(state: State, line: &[u8], out: &mut [u8]) -> Answer
    ensures value { result ≡ answer_of (step state (calls.call_of (entries.action_of state.clock line.now) out.old)) }
    ensures out_after { out.new ≡ output_of (step state (calls.call_of (entries.action_of state.clock line.now) out.old)) out.old }
{
    let entry = entry_of(line);
    match entry {
        Entry::Tick(ms) => device::tick(state, ms, out),
        Entry::Reading(sensor, reading) => device::reading(
            state,
            sensor,
            reading,
            state.clock,
            out,
        ),
        Entry::Line => device::line(state, 0, line, out),
    }
}

// Client 0 is connected, as `console`.
pub fn connect(state: State, out: &mut [u8]) -> Answer
    ensures value { result ≡ answer_of (step state (calls.call_of start.connecting out.old)) }
    ensures out_after { out.new ≡ output_of (step state (calls.call_of start.connecting out.old)) out.old }
{
    device::connect(state, 0, b"console", out)
}

// What the console sends after connecting, since a device starts at warn.
pub fn ask_info(state: State, out: &mut [u8]) -> Answer
    ensures value { result ≡ answer_of (step state (calls.call_of start.asking out.old)) }
    ensures out_after { out.new ≡ output_of (step state (calls.call_of start.asking out.old)) out.old }
{
    device::line(state, 0, b"?log-level info", out)
}

// A line, where it goes to the client.
fn put_if(into: &mut [u8], at: usize, own: bool, line: &[u8]) -> usize
    ensures { Wrote (output into.old at) (cond own line.now []) (output into.new result) }
{
    if own {
        return output::put_bytes(into, at, line);
    }
    at
}

// The lines of a client among deliveries.
pub fn put_shown(into: &mut [u8], at: usize, client: u8, bytes: &[u8]) -> usize
    ensures { Wrote (output into.old at) (shown.shown_to client bytes.now) (output into.new result) }
{
    let mut p = at;
    let mut left = bytes;
    while let [to, high, low, rest @ ..] = left {
        let n = (usize::from(*high) * 256 + usize::from(*low)).min(rest.len());
        let (line, behind) = rest.split_at(n);
        p = put_if(into, p, *to == client, line);
        left = behind;
    }
    p
}

// Client 0's lines among deliveries are printed: their first 65,536 bytes.
pub fn print_lines<W: Write>(to: &mut W, bytes: &[u8]) -> Result<(), Unwritten>
    ensures { OnOk result (Appends (W.contents to.old) (W.contents to.new) (take 65536 (shown.shown_to 0 bytes.now))) }
{
    let mut lines = io::large_buffer();
    let n = put_shown(&mut lines, 0, 0, bytes);
    stream::print(to, texts::prefix(&lines, n))
}
