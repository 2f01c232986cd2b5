//! Scripts of calls: a line of a script is read, its call made on a device, and the line that answers it written (specs/Script.antt has the format).
#![tactic(auto)]

ghost use Rattle.std.specs.Prelude.{◌≡◌, ◌≤◌, min, length};
ghost use Rattle.output.specs.Output.{output, Wrote};
ghost use Rattle.output.specs.Read.{read_decimal, read_integer};
ghost use Rattle.value.specs.declared.Reading.TheVariants as readings;
ghost use Rattle.machine.specs.Declined as calls;
ghost use Rattle.machine.specs.Opening.{start_of, opened};
ghost use Rattle.machine.specs.Machine.{step, answer_of, output_of};
ghost use Rattle.in_hex.specs.Hex.{bits_of};
ghost use Rattle.input.specs.Words.{word_at, integer_of};
ghost use Rattle.script.specs.Script as scripts;
ghost use Rattle.script.specs.Replay as replays;

use machine::{Answer, State};
use value::Reading;

// The longest line of a script, and how many bytes its words can stand for.
const LONGEST_LINE: usize = 65536;

const MOST_BYTES: usize = LONGEST_LINE / 2;

// What a line of a script asks, but for the length of the lent output and the bytes of texts, which stand in the line.
#[derive(Clone, Copy)]
pub enum Command {
    // an empty line or a comment
    Passed,
    // profile
    Open(u8),
    Connect(usize),
    Disconnect(usize),
    Tick(u64),
    // sensor, reading, its time
    Reading(usize, Reading, u64),
    Log(u8),
    Line(usize),
}

// What a line asked, where it is a call or passed over, and what was answered.
#[derive(Clone, Copy)]
pub struct Performed {
    pub command: Option<Command>,
    pub answer: Answer,
}

// Numbers and readings.

fn at_most(most: u64, n: Option<u64>) -> Option<u64>
    ensures { result ≡ scripts.at_most most n }
{
    let x = n?;
    if x <= most { Some(x) } else { None }
}

// The number of word `k`.
#[tactic(auto, unfolding(crate::specs::Script::number_at))]
fn number_at(line: &[u8], k: usize) -> Option<u64>
    ensures { result ≡ scripts.number_at k line.now }
{
    numbers::read_decimal(input::word(line, k))
}

fn float_of(t: &[u8]) -> Option<Reading>
    ensures { result ≡ scripts.float_of (bits_of t.now) }
{
    let bits = in_hex::read_bits(t)?;
    Some(Reading::Float(in_hex::double_of(bits)))
}

fn integer_of(t: &[u8]) -> Option<Reading>
    ensures { result ≡ scripts.integer_given (integer_of (read_integer t.now)) }
{
    let x = input::read_integer(t)?;
    Some(Reading::Integer(x))
}

// A number that a byte holds.
fn byte_number(t: &[u8]) -> Option<u64>
    ensures { result ≡ scripts.at_most 255 (read_decimal t.now) }
{
    at_most(255, numbers::read_decimal(t))
}

fn boolean_of(t: &[u8]) -> Option<Reading>
    ensures { result ≡ scripts.reading_of readings.Boolean (scripts.at_most 255 (read_decimal t.now)) }
{
    let n = byte_number(t)?;
    Some(Reading::Boolean(n as u8))
}

fn option_of(t: &[u8]) -> Option<Reading>
    ensures { result ≡ scripts.reading_of readings.«Option» (scripts.at_most 255 (read_decimal t.now)) }
{
    let n = byte_number(t)?;
    Some(Reading::Option(n as u8))
}

fn timestamp_of(t: &[u8]) -> Option<Reading>
    ensures { result ≡ scripts.reading_of readings.Timestamp (read_decimal t.now) }
{
    let n = numbers::read_decimal(t)?;
    Some(Reading::Timestamp(n))
}

// A reading that has no value.
fn without_value(r: Reading, t: &[u8]) -> Option<Reading>
    ensures { result ≡ scripts.without_value r t.now }
{
    if texts::same(t, b"-") { Some(r) } else { None }
}

// The words of readings.
const READINGS: [u8; 67] = *b"integer|float|boolean|option|timestamp|failure|unreachable|inactive";

// The reading of a kind and a value.
fn reading_of(kind: &[u8], t: &[u8]) -> Option<Reading>
    ensures { result ≡ scripts.given kind.now t.now }
{
    match texts::place_of(&READINGS, kind) {
        Some(0) => integer_of(t),
        Some(1) => float_of(t),
        Some(2) => boolean_of(t),
        Some(3) => option_of(t),
        Some(4) => timestamp_of(t),
        Some(5) => without_value(Reading::Failure, t),
        Some(6) => without_value(Reading::Unreachable, t),
        Some(7) => without_value(Reading::Inactive, t),
        _ => None,
    }
}

// Calls.

// Whether word `k` stands for bytes.
fn has_bytes(line: &[u8], k: usize) -> bool
    ensures { result ≡ scripts.has_bytes k line.now }
{
    in_hex::is_bytes(input::word(line, k))
}

// Whether a line opens a sheet, with a profile or without.
#[tactic(auto, unfolding(crate::specs::Script::is_opening))]
fn is_opening(line: &[u8]) -> bool
    ensures { result ≡ scripts.is_opening line.now }
{
    input::has_words(line, b"open", 1) | input::has_words(line, b"open", 2)
}

// The profile of an opening: 0 where the line has none.
#[tactic(auto, unfolding(crate::specs::Script::profile_at))]
fn profile_at(line: &[u8]) -> Option<u64>
    ensures { result ≡ scripts.profile_at line.now }
{
    if input::has_words(line, b"open", 1) {
        return Some(0);
    }
    at_most(255, number_at(line, 2))
}

// An opening that a line asks.
fn open_command(line: &[u8]) -> Option<Command>
    ensures { result ≡ scripts.opening (scripts.profile_at line.now) }
{
    let profile = profile_at(line)?;
    Some(Command::Open(profile as u8))
}

// Whether a line gives a reading, with its time or without.
#[tactic(auto, unfolding(crate::specs::Script::is_reading))]
fn is_reading(line: &[u8]) -> bool
    ensures { result ≡ scripts.is_reading line.now }
{
    input::has_words(line, b"reading", 4) | input::has_words(line, b"reading", 5)
}

// The time of a reading: the clock where the line has none.
#[tactic(auto, unfolding(crate::specs::Script::time_at))]
fn time_at(clock: u64, line: &[u8]) -> Option<u64>
    ensures { result ≡ scripts.time_at clock line.now }
{
    if input::has_words(line, b"reading", 4) {
        return Some(clock);
    }
    number_at(line, 5)
}

// A reading that a line gives.
fn reading_command(clock: u64, line: &[u8], sensor: usize) -> Option<Command>
    ensures { result ≡ scripts.reading sensor (scripts.given (word_at 3 line.now) (word_at 4 line.now)) (scripts.time_at clock line.now) }
{
    let r = reading_of(input::word(line, 3), input::word(line, 4))?;
    let time = time_at(clock, line)?;
    Some(Command::Reading(sensor, r, time))
}

// A line whose number behind LENT is `n`.
fn called(clock: u64, line: &[u8], n: u64) -> Option<Command>
    ensures { result ≡ scripts.called clock line.now n }
{
    if input::has_words(line, b"connect", 3) & has_bytes(line, 3) {
        return Some(Command::Connect(n as usize));
    }
    if input::has_words(line, b"disconnect", 2) {
        return Some(Command::Disconnect(n as usize));
    }
    if input::has_words(line, b"tick", 2) {
        return Some(Command::Tick(n));
    }
    if is_reading(line) {
        return reading_command(clock, line, n as usize);
    }
    if input::has_words(line, b"log", 4)
        & ((n <= 255) & (has_bytes(line, 3) & has_bytes(line, 4)))
    {
        return Some(Command::Log(n as u8));
    }
    if input::has_words(line, b"line", 3) & has_bytes(line, 3) {
        return Some(Command::Line(n as usize));
    }
    None
}

// Whether a line is empty or a comment.
fn is_passed(line: &[u8]) -> bool
    ensures { result ≡ scripts.passed line.now }
{
    matches!(line, [] | [b';', ..])
}

// What a line of at most 65,536 bytes asks of a device with that clock.
#[tactic(auto, unfolding(crate::specs::Script::command_of))]
fn command_of(clock: u64, line: &[u8]) -> Option<Command>
    requires { length line.now ≤ 65536 }
    ensures { result ≡ scripts.command_of clock line.now }
{
    if is_passed(line) {
        return Some(Command::Passed);
    }
    if is_opening(line) & has_bytes(line, 1) {
        return open_command(line);
    }
    number_at(line, 1)?;
    let n = number_at(line, 2)?;
    called(clock, line, n)
}

// How much of an output of `len` bytes a line lends.
#[tactic(auto, unfolding(crate::specs::Script::lent_by))]
fn lent_len(line: &[u8], len: usize) -> usize
    ensures { result ≡ min (scripts.lent_by line.now) len }
{
    let n = number_at(line, 1).unwrap_or(0);
    n.min(len as u64) as usize
}

// The calls that take bytes of the line.

fn open_sheet(line: &[u8], profile: u8) -> Answer
    requires { length line.now ≤ 65536 }
    ensures { result ≡ replays.quiet (opened (start_of profile (replays.bytes_at 1 line.now))).number (opened (start_of profile (replays.bytes_at 1 line.now))).state }
{
    let mut sheet = [0u8; MOST_BYTES];
    let n = in_hex::put_bytes_of(&mut sheet, 0, input::word(line, 1));
    let opened = device::open(profile, &sheet[..n]);
    declining::silent(opened.number, opened.state)
}

fn connect(state: State, line: &[u8], client: usize, out: &mut [u8]) -> Answer
    requires { length line.now ≤ 65536 }
    ensures value { result ≡ answer_of (step state (calls.call_of (calls.Connect client (replays.bytes_at 3 line.now)) out.old)) }
    ensures out_after { out.new ≡ output_of (step state (calls.call_of (calls.Connect client (replays.bytes_at 3 line.now)) out.old)) out.old }
{
    let mut address = [0u8; MOST_BYTES];
    let n = in_hex::put_bytes_of(&mut address, 0, input::word(line, 3));
    device::connect(state, client, &address[..n], out)
}

fn log(state: State, line: &[u8], level: u8, out: &mut [u8]) -> Answer
    requires { length line.now ≤ 65536 }
    ensures value { result ≡ answer_of (step state (calls.call_of (calls.Log level (replays.bytes_at 3 line.now) (replays.bytes_at 4 line.now)) out.old)) }
    ensures out_after { out.new ≡ output_of (step state (calls.call_of (calls.Log level (replays.bytes_at 3 line.now) (replays.bytes_at 4 line.now)) out.old)) out.old }
{
    let mut logger = [0u8; MOST_BYTES];
    let n = in_hex::put_bytes_of(&mut logger, 0, input::word(line, 3));
    let mut message = [0u8; MOST_BYTES];
    let m = in_hex::put_bytes_of(&mut message, 0, input::word(line, 4));
    device::log(state, level, &logger[..n], &message[..m], out)
}

fn client_line(state: State, line: &[u8], client: usize, out: &mut [u8]) -> Answer
    requires { length line.now ≤ 65536 }
    ensures value { result ≡ answer_of (step state (calls.call_of (calls.Line client (replays.bytes_at 3 line.now)) out.old)) }
    ensures out_after { out.new ≡ output_of (step state (calls.call_of (calls.Line client (replays.bytes_at 3 line.now)) out.old)) out.old }
{
    let mut bytes = [0u8; MOST_BYTES];
    let n = in_hex::put_bytes_of(&mut bytes, 0, input::word(line, 3));
    device::line(state, client, &bytes[..n], out)
}

// What a line's command asks, made on the device.
#[tactic(auto, unfolding(crate::specs::Replay::asking, crate::specs::Replay::answered, crate::specs::Replay::left))]
fn carry_out(state: State, line: &[u8], command: Option<Command>, out: &mut [u8]) -> Answer
    requires { length line.now ≤ 65536 }
    ensures value { result ≡ replays.answered state out.old (replays.asking line.now command) }
    ensures out_after { out.new ≡ replays.left state out.old (replays.asking line.now command) }
{
    let Some(call) = command else {
        return declining::silent(0u8, state);
    };
    match call {
        Command::Passed => declining::silent(0u8, state),
        Command::Open(profile) => open_sheet(line, profile),
        Command::Connect(client) => connect(state, line, client, out),
        Command::Disconnect(client) => device::disconnect(state, client, out),
        Command::Tick(ms) => device::tick(state, ms, out),
        Command::Reading(sensor, reading, time) => {
            device::reading(state, sensor, reading, time, out)
        }
        Command::Log(level) => log(state, line, level, out),
        Command::Line(client) => client_line(state, line, client, out),
    }
}

// A line of a script on a device, with an output at hand.
pub fn perform(state: State, line: &[u8], out: &mut [u8]) -> Performed
    ensures value { result ≡ replays.performed state line.now out.old }
    ensures out_after { out.new ≡ replays.output_after state line.now out.old }
{
    if LONGEST_LINE < line.len() {
        return Performed {
            command: None,
            answer: declining::silent(0u8, state),
        };
    }
    let command = command_of(state.clock, line);
    let n = lent_len(line, out.len());
    let answer = carry_out(state, line, command, &mut out[..n]);
    Performed {
        command: command,
        answer: answer,
    }
}

// The number of a call, and the bytes that it wrote.
fn put_answer(into: &mut [u8], at: usize, number: u8, bytes: &[u8]) -> usize
    ensures { Wrote (output into.old at) (replays.answer_line number bytes.now) (output into.new result) }
{
    let p = output::put_decimal(into, at, number as u64);
    let p = output::put_byte(into, p, b' ');
    let p = in_hex::put_text(into, p, bytes);
    output::put_byte(into, p, 10)
}

// The line that answers a line of a script, an error where it is no call, whose call had that number and wrote these bytes.
pub fn put_reply(
    into: &mut [u8],
    at: usize,
    command: Option<Command>,
    number: u8,
    bytes: &[u8],
) -> usize
    ensures { Wrote (output into.old at) (replays.reply command number bytes.now) (output into.new result) }
{
    let Some(call) = command else {
        return output::put_bytes(into, at, b"error\n");
    };
    match call {
        Command::Passed => at,
        _ => put_answer(into, at, number, bytes),
    }
}
