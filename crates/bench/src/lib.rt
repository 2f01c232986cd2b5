//! Calls made n times inside one function, for measuring from Rust: a sheet is opened, clients are connected and each sends a line, and then the
//! call is made n times. What is answered is how many of the n calls were taken. And each call made once, on a device just opened, for what it
//! needs of the stack.
#![tactic(auto)]

ghost use Rattle.std.specs.Prelude.{◌≡◌, cond, [], ◌+◌, ◌-◌, ◌^◌, ◌<◌, ◌≤◌, eqb};
ghost use Rattle.output.specs.Text.{text};
ghost use Rattle.machine.specs.Range.{in_range};
ghost use Rattle.machine.specs.Opening.{start_of, opened};
ghost use Rattle.machine.specs.Declined.{call_of};
ghost use Rattle.machine.specs.Declined as calls;
ghost use Rattle.machine.specs.Machine.{step, answer_of, output_of};
ghost use Rattle.bench.specs.Runs as spec;
ghost use Rattle.bench.specs.declared.Round.TheVariants as rounds;

use machine::{Answer, State};
use value::Reading;

// What is called over and over: connecting clients that each send a line; connecting one client and disconnecting it; ticks; readings; lines of
// client 0.
#[derive(Clone, Copy)]
pub enum Round {
    Setup,
    Connect,
    Tick,
    Reading,
    Line,
}

// The state after some calls, and how many of them were taken.
#[derive(Clone, Copy)]
pub struct Repeated {
    pub state: State,
    pub taken: u64,
}

// Call `k` of a round that connects: client k / 2 is connected, or sends its line.
fn setup_turn(state: State, line: &[u8], k: u64, out: &mut [u8]) -> Answer
    ensures value { result ≡ answer_of (step state (call_of (spec.round_action rounds.Setup line.now k) out.old)) }
    ensures out_after { out.new ≡ output_of (step state (call_of (spec.round_action rounds.Setup line.now k) out.old)) out.old }
{
    let client = (k / 2) as usize;
    if k % 2 == 0 {
        return device::connect(state, client, b"bench", out);
    }
    device::line(state, client, line, out)
}

// Call `k` of a round that connects and disconnects client 7.
fn connect_turn(state: State, k: u64, out: &mut [u8]) -> Answer
    ensures value { result ≡ answer_of (step state (call_of (spec.round_action rounds.Connect [] k) out.old)) }
    ensures out_after { out.new ≡ output_of (step state (call_of (spec.round_action rounds.Connect [] k) out.old)) out.old }
{
    if k % 2 == 0 {
        return device::connect(state, 7, b"bench", out);
    }
    device::disconnect(state, 7, out)
}

// Call `k` of a round.
fn turn(state: State, round: Round, line: &[u8], k: u64, out: &mut [u8]) -> Answer
    ensures value { result ≡ answer_of (step state (call_of (spec.round_action round line.now k) out.old)) }
    ensures out_after { out.new ≡ output_of (step state (call_of (spec.round_action round line.now k) out.old)) out.old }
{
    match round {
        Round::Setup => setup_turn(state, line, k, out),
        Round::Connect => connect_turn(state, k, out),
        Round::Tick => device::tick(state, k, out),
        Round::Reading => device::reading(state, 0, Reading::Integer(7), 0, out),
        Round::Line => device::line(state, 0, line, out),
    }
}

// One more, where it counts.
fn counted(n: u64, counts: bool) -> u64
    requires { n < 2 ^ 64 - 1 }
    ensures { (result ≡ cond counts (n + 1) n) × (result ≤ n + 1) }
{
    if counts { n + 1 } else { n }
}

// n calls of a round.
fn repeat(first: State, round: Round, line: &[u8], n: u64, out: &mut [u8]) -> Repeated
    ensures value { result ≡ spec.repeated (spec.runs (spec.round_action round line.now) (spec.begun first out.old) n) }
    ensures out_after { out.new ≡ (spec.runs (spec.round_action round line.now) (spec.begun first out.old) n).out }
{
    let mut state = first;
    let mut taken: u64 = 0;
    for k in 0..n {
        let answer = turn(state, round, line, k, out);
        taken = counted(taken, (answer.number == 0) & (answer.written <= out.len()));
        state = answer.state;
    }
    Repeated {
        state: state,
        taken: taken,
    }
}

// The device of a sheet, with clients connected that each have sent a line.
fn prepare(sheet: &[u8], clients: u8, setup: &[u8], out: &mut [u8]) -> State
    ensures value { result ≡ (spec.prepared sheet.now clients setup.now out.old).state }
    ensures out_after { out.new ≡ (spec.prepared sheet.now clients setup.now out.old).out }
{
    let opened = device::open(0, sheet);
    let ready = repeat(opened.state, Round::Setup, setup, clients as u64 * 2, out);
    ready.state
}

// The round of a number: 0 connects and disconnects, 1 ticks, 2 readings, else lines.
fn round_of(number: u8) -> Round
    ensures { result ≡ spec.round_of number }
{
    match number {
        0 => Round::Connect,
        1 => Round::Tick,
        2 => Round::Reading,
        _ => Round::Line,
    }
}

// n calls of a round on the device of a sheet, with clients connected that each have sent the line `setup`: how many were taken.
#[unsafe(no_mangle)]
pub extern "C" fn bench_calls(
    round: u8,
    sheet: &[u8],
    clients: u8,
    setup: &[u8],
    line: &[u8],
    n: u64,
    out: &mut [u8],
) -> u64
    ensures value { result ≡ (spec.measured (spec.round_of round) line.now (spec.prepared sheet.now clients setup.now out.old) n).taken }
    ensures out_after { out.new ≡ (spec.measured (spec.round_of round) line.now (spec.prepared sheet.now clients setup.now out.old) n).out }
{
    let state = prepare(sheet, clients, setup, out);
    let done = repeat(state, round_of(round), line, n, out);
    done.taken
}

// n openings of a sheet: how many were taken.
#[unsafe(no_mangle)]
pub extern "C" fn bench_opens(sheet: &[u8], n: u64) -> u64
    ensures { result ≡ cond (eqb (opened (start_of 0 sheet.now)).number 0) n 0 }
{
    let mut taken: u64 = 0;
    for _ in 0..n {
        let device = device::open(0, sheet);
        taken = counted(taken, device.number == 0);
    }
    taken
}

// n checks of a state.
fn check(state: State, n: u64) -> u64
    ensures { result ≡ cond (in_range state) n 0 }
{
    let mut passed: u64 = 0;
    for _ in 0..n {
        passed = counted(passed, sheet::in_range(state));
    }
    passed
}

// n checks of the state of such a device: how many found it in range.
#[unsafe(no_mangle)]
pub extern "C" fn bench_checks(
    sheet: &[u8],
    clients: u8,
    setup: &[u8],
    n: u64,
    out: &mut [u8],
) -> u64
    ensures value { result ≡ cond (in_range (spec.prepared sheet.now clients setup.now out.old).state) n 0 }
    ensures out_after { out.new ≡ (spec.prepared sheet.now clients setup.now out.old).out }
{
    let state = prepare(sheet, clients, setup, out);
    check(state, n)
}

// The number of a call that leaves a state in range, else 255: so the whole answer is looked at.
fn judged(number: u8, state: State) -> u8
    ensures { result ≡ cond (in_range state) number 255 }
{
    if sheet::in_range(state) { number } else { 255 }
}

// Client 0 connects to the device of a sheet: what the call is judged.
#[unsafe(no_mangle)]
pub extern "C" fn bench_connect(sheet: &[u8], out: &mut [u8]) -> u8
    ensures value { result ≡ spec.judge (spec.on_fresh sheet.now (calls.Connect 0 (text "bench")) out.old) }
    ensures out_after { out.new ≡ output_of (spec.on_fresh sheet.now (calls.Connect 0 (text "bench")) out.old) out.old }
{
    let fresh = device::open(0, sheet);
    let answer = device::connect(fresh.state, 0, b"bench", out);
    judged(answer.number, answer.state)
}

// A tick.
#[unsafe(no_mangle)]
pub extern "C" fn bench_tick(sheet: &[u8], out: &mut [u8]) -> u8
    ensures value { result ≡ spec.judge (spec.on_fresh sheet.now (calls.Tick 1) out.old) }
    ensures out_after { out.new ≡ output_of (spec.on_fresh sheet.now (calls.Tick 1) out.old) out.old }
{
    let fresh = device::open(0, sheet);
    let answer = device::tick(fresh.state, 1, out);
    judged(answer.number, answer.state)
}

// A reading of sensor 0.
#[unsafe(no_mangle)]
pub extern "C" fn bench_reading(sheet: &[u8], out: &mut [u8]) -> u8
    ensures value { result ≡ spec.judge (spec.on_fresh sheet.now (spec.round_action rounds.Reading [] 0) out.old) }
    ensures out_after { out.new ≡ output_of (spec.on_fresh sheet.now (spec.round_action rounds.Reading [] 0) out.old) out.old }
{
    let fresh = device::open(0, sheet);
    let answer = device::reading(fresh.state, 0, Reading::Integer(7), 0, out);
    judged(answer.number, answer.state)
}

// A log entry.
#[unsafe(no_mangle)]
pub extern "C" fn bench_log(sheet: &[u8], out: &mut [u8]) -> u8
    ensures value { result ≡ spec.judge (spec.on_fresh sheet.now (calls.Log 1 (text "bench") (text "bench")) out.old) }
    ensures out_after { out.new ≡ output_of (spec.on_fresh sheet.now (calls.Log 1 (text "bench") (text "bench")) out.old) out.old }
{
    let fresh = device::open(0, sheet);
    let answer = device::log(fresh.state, 1, b"bench", b"bench", out);
    judged(answer.number, answer.state)
}

// Client 0 has connected, and is disconnected.
#[unsafe(no_mangle)]
pub extern "C" fn bench_disconnect(sheet: &[u8], out: &mut [u8]) -> u8
    ensures value { result ≡ spec.judge (spec.on_connected sheet.now (calls.Disconnect 0) out.old) }
    ensures out_after { out.new ≡ output_of (spec.on_connected sheet.now (calls.Disconnect 0) out.old) (spec.connected_out sheet.now out.old) }
{
    let fresh = device::open(0, sheet);
    let greeted = device::connect(fresh.state, 0, b"bench", out);
    let answer = device::disconnect(greeted.state, 0, out);
    judged(answer.number, answer.state)
}

// Client 0 has connected, and sends a line.
#[unsafe(no_mangle)]
pub extern "C" fn bench_line(sheet: &[u8], line: &[u8], out: &mut [u8]) -> u8
    ensures value { result ≡ spec.judge (spec.on_connected sheet.now (calls.Line 0 line.now) out.old) }
    ensures out_after { out.new ≡ output_of (spec.on_connected sheet.now (calls.Line 0 line.now) out.old) (spec.connected_out sheet.now out.old) }
{
    let fresh = device::open(0, sheet);
    let greeted = device::connect(fresh.state, 0, b"bench", out);
    let answer = device::line(greeted.state, 0, line, out);
    judged(answer.number, answer.state)
}
