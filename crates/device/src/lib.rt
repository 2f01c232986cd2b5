//! The calls of the unit. Each but `open` is handed the state and lent an output, and answers with its number, how many bytes it wrote and
//! the next state; what it answers and what the output holds then are those of `step`, for every argument.
#![tactic(auto)]

ghost use Rattle.std.specs.Prelude.{◌≡◌, cond, ◌&&◌, [], ◌++◌, ◌/◌, ◌≤◌, ◌<◌, eqb, leb, ltb, length, get_or, set, Some, IfOk};
ghost use Rattle.output.specs.Output.{output};
ghost use Rattle.output.specs.Read.{in_time};
ghost use Rattle.message.specs.Delivery.{to, Sent};
ghost use Rattle.value.specs.Answer.{sampled_number};
ghost use Rattle.machine.specs.Places.{tabulate, one_if};
ghost use Rattle.machine.specs.Messages.{to_where, displaced, log_entry};
ghost use Rattle.machine.specs.State as states;
ghost use Rattle.machine.specs.Opening as opening;
ghost use Rattle.machine.specs.Refusals.{number_in};
ghost use Rattle.machine.specs.Declined as calls;
ghost use Rattle.machine.specs.Machine.{greeting, connect_sends, step, answer_of, output_of};

use machine::{Answer, Cause, Client, Opened, Refusal, Sheet, State, Stored, Subscription};
use rules::Charset;
use value::{Reading, Sample};

// The length of what stands before the address where a client is displaced.
const DISPLACED: usize = 26;

// Number 0 and the fresh state of a sheet under a profile, 0 for the eight clients, 1 for a single one; else the blank state, with 31 where there is
// no such profile, and 4 where the bytes are no sheet.
pub fn open(profile: u8, sheet: &[u8]) -> Opened
    ensures { result ≡ opening.opened (opening.start_of profile sheet.now) }
{
    sheet::open(profile, sheet)
}

// Row 7.
fn address_row(address: &[u8]) -> Result<(), Refusal>
    ensures { number_in result ≡ cond (calls.address_fits address.now) 0 7 }
{
    if rules::text_fits(address, 1, machine::ADDRESS, Charset::Graphic) {
        Ok(())
    } else {
        Err(Refusal::AddressText)
    }
}

// Row 8: a tick to `ms` at a clock.
fn tick_row(clock: u64, ms: u64) -> Result<(), Refusal>
    ensures { number_in result ≡ cond (leb clock ms && in_time ms) 0 8 }
{
    if (clock <= ms) & (ms <= value::LAST_TIME) {
        Ok(())
    } else {
        Err(Refusal::TickTime)
    }
}

// Row 9.
fn sensor_row(count: u8, sensor: usize) -> Result<(), Refusal>
    ensures { number_in result ≡ cond (leb count sensor) 9 0 }
{
    if count as usize <= sensor {
        Err(Refusal::NoSuchSensor)
    } else {
        Ok(())
    }
}

// Row 11.
fn entry_row(level: u8, logger: &[u8], message: &[u8]) -> Result<(), Refusal>
    ensures { number_in result ≡ cond (calls.entry_fits level logger.now message.now) 0 11 }
{
    let named = rules::text_fits(logger, 1, machine::NAME, Charset::Name);
    let plain = rules::text_fits(message, 0, 256, Charset::Entry);
    if ((1 <= level) & (level <= 6)) & (named & plain) {
        Ok(())
    } else {
        Err(Refusal::LogEntry)
    }
}

// A client that connects.
fn newcomer(address: &[u8]) -> Client
    requires { length address.now ≤ 48 }
    ensures { result ≡ states.client_at address.now }
{
    let mut text = [0; machine::ADDRESS];
    output::put_bytes(&mut text, 0, address);
    Client {
        connected: true,
        address: text,
        address_len: address.len() as u8,
    }
}

// A client's subscriptions are cleared.
fn clear_client(pairs: &mut [Subscription; machine::PAIRS], client: usize)
    requires { client < 8 }
    ensures { pairs.new ≡ tabulate (λ p. cond (eqb (p / 32) client) states.no_subscription (get_or pairs.old p states.no_subscription)) 256 }
{
    for j in 0..machine::SENSORS {
        pairs[client * machine::SENSORS + j] = machine::no_subscription();
    }
}

// The answer of a call by which a client comes or goes: `k` in its place, no strategy and no report.
fn with_client(written: usize, state: State, client: usize, k: Client) -> Answer
    requires { client < 8 }
    ensures { result ≡ record { number = 0; written = written; state = states.with_client state client k } }
{
    let mut next = state;
    next.clients[client] = k;
    clear_client(&mut next.subscriptions, client);
    Answer {
        number: 0,
        written: written,
        state: next,
    }
}

// What a client is told that another displaces, of the newcomer's address; nothing where there is none.
fn displace(there: bool, client: u8, address: &[u8], out: &mut [u8]) -> usize
    requires { length address.now ≤ 48 }
    ensures { Sent (output out.old 0) (one_if there (to client (displaced address.now))) (output out.new result) }
{
    if !there {
        return 0;
    }
    let mut why = [0; DISPLACED + machine::ADDRESS];
    let p = output::put_bytes(&mut why, 0, b"New client connected from ");
    let n = output::put_bytes(&mut why, p, address);
    message::deliver(out, 0, client, b'#', b"disconnect", 0, &[&why[..n]])
}

// Under a single client's profile: the client that is there is displaced, and the newcomer told the versions.
fn greet_single(
    clients: [Client; machine::CLIENTS],
    client: usize,
    sheet: Sheet,
    address: &[u8],
    out: &mut [u8],
) -> usize
    requires { (client < 8) × (length address.now ≤ 48) }
    ensures { Sent (output out.old 0) (one_if (get_or clients client states.no_client).connected (to client (displaced address.now)) ++ greeting sheet client) (output out.new result) }
{
    let there = declining::is_connected(clients, client);
    let at = displace(there, client as u8, address, out);
    informs::deliver_versions(out, at, client as u8, b"version-connect", 0, sheet)
}

// What is written where a client connects: the versions to it, and its address to the others.
fn greet(state: State, client: usize, address: &[u8], out: &mut [u8]) -> usize
    requires { (client < 8) × (length address.now ≤ 48) }
    ensures { Sent (output out.old 0) (connect_sends state.sheet state client address.now) (output out.new result) }
{
    let sheet = state.sheet;
    let clients = state.clients;
    if machine::is_single(sheet.profile) {
        return greet_single(clients, client, sheet, address, out);
    }
    let at = informs::deliver_versions(out, 0, client as u8, b"version-connect", 0, sheet);
    informs::inform_others(out, at, clients, client, b"client-connected", address)
}

// A client connects: it is told the versions, and the others are told its address. Under profile 1 it takes the place of the client that is there.
pub fn connect(state: State, client: usize, address: &[u8], out: &mut [u8]) -> Answer
    ensures value { result ≡ answer_of (step state (calls.call_of (calls.Connect client address.now) out.old)) }
    ensures out_after { out.new ≡ output_of (step state (calls.call_of (calls.Connect client address.now) out.old)) out.old }
{
    let profile = state.sheet.profile;
    let refused = declining::is_connected(state.clients, client) & !machine::is_single(profile);
    let own = declining::client_rows(profile, refused, client, address_row(address));
    let rows = declining::rows(sheet::in_range(state), out.len(), state.halted, own);
    if let Err(refusal) = rows {
        return declining::silent(refusal, state);
    }
    let written = greet(state, client, address, out);
    with_client(written, state, client, newcomer(address))
}

// A client is forgotten.
pub fn disconnect(state: State, client: usize, out: &mut [u8]) -> Answer
    ensures value { result ≡ answer_of (step state (calls.call_of (calls.Disconnect client) out.old)) }
    ensures out_after { out.new ≡ output_of (step state (calls.call_of (calls.Disconnect client) out.old)) out.old }
{
    let refused = !declining::is_connected(state.clients, client);
    let own = declining::client_rows(state.sheet.profile, refused, client, Ok(()));
    let rows = declining::rows(sheet::in_range(state), out.len(), state.halted, own);
    if let Err(refusal) = rows {
        return declining::silent(refusal, state);
    }
    with_client(0, state, client, machine::blank_client())
}

// The clock is set, and every subscription visited.
pub fn tick(state: State, ms: u64, out: &mut [u8]) -> Answer
    ensures value { result ≡ answer_of (step state (calls.call_of (calls.Tick ms) out.old)) }
    ensures out_after { out.new ≡ output_of (step state (calls.call_of (calls.Tick ms) out.old)) out.old }
{
    let own = tick_row(state.clock, ms);
    let rows = declining::rows(sheet::in_range(state), out.len(), state.halted, own);
    if let Err(refusal) = rows {
        return declining::silent(refusal, state);
    }
    sampling::visit(0, true, state, Cause::Tick, ms, state.readings, out)
}

// Row 26: a reading of its own time at a clock.
fn time_row(clock: u64, time: u64) -> Result<(), Refusal>
    ensures { number_in result ≡ cond (ltb clock time) 26 0 }
{
    if clock < time {
        Err(Refusal::ReadingAhead)
    } else {
        Ok(())
    }
}

// The sample of a reading: row 10 where it is unfit, and row 26 behind it.
fn sample_taken(sampled: Option<Sample>, ahead: Result<(), Refusal>) -> Result<Sample, Refusal>
    ensures number { number_in result ≡ calls.rows_behind (sampled_number sampled) (number_in ahead) }
    ensures sample { IfOk result (λ x. sampled ≡ Some x) }
{
    let sample = sampled.ok_or(Refusal::ReadingUnfit)?;
    ahead?;
    Ok(sample)
}

// Whether a sample is unknown.
fn is_unknown(x: Sample) -> bool
    ensures { result ≡ states.is_unknown x }
{
    let kind = x.kind;
    match kind {
        0 => true,
        1 => false,
        2 => false,
        3 => false,
        4 => false,
        _ => false,
    }
}

// Whether a reading of its own time supersedes the stored one.
fn does_supersede(old: Stored, time: u64) -> bool
    ensures { result ≡ states.supersedes time old }
{
    (old.time <= time) | is_unknown(old.sample)
}

// The readings with another at a sensor's place where it supersedes the stored one; else as they were.
fn store(
    newer: bool,
    readings: [Stored; machine::SENSORS],
    sensor: usize,
    held: Stored,
) -> [Stored; machine::SENSORS]
    requires { sensor < 32 }
    ensures { result ≡ cond newer (set readings sensor held) readings }
{
    let mut next = readings;
    if newer {
        next[sensor] = held;
    }
    next
}

// A sensor's reading that brings its own time, in milliseconds. It is stored, and the subscriptions to that sensor visited, where it supersedes
// the stored one; an older one changes nothing.
pub fn reading(state: State, sensor: usize, reading: Reading, time: u64, out: &mut [u8]) -> Answer
    ensures value { result ≡ answer_of (step state (calls.call_of (calls.Reading sensor (calls.arrival reading time)) out.old)) }
    ensures out_after { out.new ≡ output_of (step state (calls.call_of (calls.Reading sensor (calls.arrival reading time)) out.old)) out.old }
{
    let own = sensor_row(state.sheet.count, sensor);
    let rows = declining::rows(sheet::in_range(state), out.len(), state.halted, own);
    if let Err(refusal) = rows {
        return declining::silent(refusal, state);
    }
    let listed = &state.sheet.sensors[sensor];
    let sampled = value::sample_of(listed.kind, listed.option_count, reading);
    let sample = match sample_taken(sampled, time_row(state.clock, time)) {
        Ok(sample) => sample,
        Err(refusal) => return declining::silent(refusal, state),
    };
    let newer = does_supersede(state.readings[sensor], time);
    let readings = store(newer, state.readings, sensor, Stored { sample, time });
    sampling::visit(
        0,
        newer,
        state,
        Cause::Reading(sensor),
        state.clock,
        readings,
        out,
    )
}

// What is written of a log entry where the level is set to `set`.
fn put_entry(
    out: &mut [u8],
    clients: [Client; machine::CLIENTS],
    set: u8,
    level: u8,
    clock: u64,
    logger: &[u8],
    message: &[u8],
) -> usize
    ensures { Sent (output out.old 0) (cond (leb level set) (to_where (λ c. (get_or clients c states.no_client).connected) (log_entry level clock logger.now message.now)) []) (output out.new result) }
{
    if level <= set {
        return informs::entry_to_all(out, clients, level, clock, logger, message);
    }
    0
}

// A log entry goes to all clients if its level is at or above the set one.
pub fn log(state: State, level: u8, logger: &[u8], message: &[u8], out: &mut [u8]) -> Answer
    ensures value { result ≡ answer_of (step state (calls.call_of (calls.Log level logger.now message.now) out.old)) }
    ensures out_after { out.new ≡ output_of (step state (calls.call_of (calls.Log level logger.now message.now) out.old)) out.old }
{
    let own = entry_row(level, logger, message);
    let rows = declining::rows(sheet::in_range(state), out.len(), state.halted, own);
    if let Err(refusal) = rows {
        return declining::silent(refusal, state);
    }
    let clients = state.clients;
    let written = put_entry(
        out,
        clients,
        state.level,
        level,
        state.clock,
        logger,
        message,
    );
    Answer {
        number: 0,
        written: written,
        state: state,
    }
}

// A client's line: a request, or why it is none.
pub fn line(state: State, client: usize, line: &[u8], out: &mut [u8]) -> Answer
    ensures value { result ≡ answer_of (step state (calls.call_of (calls.Line client line.now) out.old)) }
    ensures out_after { out.new ≡ output_of (step state (calls.call_of (calls.Line client line.now) out.old)) out.old }
{
    request::respond(state, client, line, out)
}
