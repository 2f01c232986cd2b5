//! Sampling: when a subscription reports, the report's line and its delivery, and the visit of all subscriptions at a tick or a reading.
#![tactic(auto)]

ghost use Rattle.std.specs.Prelude.{◌≡◌, [], ◌∷◌, ◌-◌, ◌<◌, take};
ghost use Rattle.output.specs.Output.{output, Wrote};
ghost use Rattle.message.specs.Message.{arg, line};
ghost use Rattle.message.specs.Delivery.{to, Sent};
ghost use Rattle.machine.specs.Sheet.{name_of, option_of};
ghost use Rattle.machine.specs.Messages as messages;
ghost use Rattle.machine.specs.Report as reports;
ghost use Rattle.machine.specs.Requests.{sampled};
ghost use Rattle.sampling.specs.Visits as visits;

use machine::{Answer, Cause, Choice, Sensor, State, Stored, Strategy, Subscription};
use output::Notation;
use value::Sample;

// Whether two samples of a sensor have different statuses.
fn status_changed(sensor: Sensor, last: Sample, present: Sample) -> bool
    ensures { result ≡ reports.status_changed sensor last present }
{
    let before = value::status_of(sensor.limits, last);
    let after = value::status_of(sensor.limits, present);
    before != after
}

// Whether status or value changed since the last report.
fn is_changed(sensor: Sensor, last: Sample, present: Sample) -> bool
    ensures { result ≡ reports.changed sensor last present }
{
    let status = status_changed(sensor, last, present);
    status | (last.number != present.number)
}

// How far two stored numbers are apart.
fn distance(a: u64, b: u64) -> u64
    ensures { result ≡ reports.apart a b }
{
    a.abs_diff(b)
}

// 1,024 and 1,000,000 in lowest terms.
const LOWEST_1024: u64 = 16;

const LOWEST_MILLION: u64 = 15625;

// Whether so many units are more than a difference in millionths. The quotients stand for products that could wrap; a float's unit is
// 1/1024, and 1024 millionths are to 1,000,000 as 16 to 15,625.
fn is_beyond(sensor: Sensor, difference: u64, units: u64) -> bool
    ensures { result ≡ reports.beyond sensor difference units }
{
    let kind = sensor.kind;
    match kind {
        1 => difference / output::MILLIONTHS < units,
        2 => {
            let whole = LOWEST_1024 * (difference / LOWEST_MILLION);
            let rest = LOWEST_1024 * (difference % LOWEST_MILLION) / LOWEST_MILLION;
            whole + rest < units
        }
        3 => difference / output::MILLIONTHS < units,
        4 => difference / output::MILLIONTHS < units,
        5 => difference / output::MILLIONTHS < units,
        _ => difference / output::MILLIONTHS < units,
    }
}

// Whether a sample is valid.
fn is_valid(x: Sample) -> bool
    ensures { result ≡ reports.is_valid x }
{
    let kind = x.kind;
    match kind {
        0 => false,
        1 => true,
        2 => false,
        3 => false,
        4 => false,
        _ => false,
    }
}

// Whether the status changed since the last report, or the value by more than the difference.
fn has_moved(sensor: Sensor, difference: u64, last: Sample, present: Sample) -> bool
    ensures { result ≡ reports.moved sensor difference last present }
{
    let status = status_changed(sensor, last, present);
    let beyond = is_beyond(sensor, difference, distance(last.number, present.number));
    let was = is_valid(last);
    let is = is_valid(present);
    status | (was & (is & beyond))
}

// The time since the last report.
fn since(clock: u64, last: u64) -> u64
    ensures { result ≡ clock - last }
{
    clock.saturating_sub(last)
}

// Whether a subscription reports the sensor's present reading, at a reading or else at a tick.
fn is_due(reading: bool, clock: u64, sensor: Sensor, present: Sample, pair: Subscription) -> bool
    ensures { result ≡ reports.due reading clock sensor present pair }
{
    let gone = since(clock, pair.time);
    let last = pair.sample;
    let strategy = pair.strategy;
    match strategy {
        Strategy::None => false,
        Strategy::Auto => reading,
        Strategy::Period(period) => !reading & (period <= gone),
        Strategy::Event => reading & is_changed(sensor, last, present),
        Strategy::Differential(difference) => reading
            & has_moved(sensor, difference, last, present),
        Strategy::EventRate(shortest, longest) => {
            (shortest <= gone) & (is_changed(sensor, last, present) | (longest < gone))
        }
        Strategy::DifferentialRate(difference, shortest, longest) => {
            (shortest <= gone) & (has_moved(sensor, difference, last, present) | (longest < gone))
        }
    }
}

// A sensor's name as an argument.
pub fn put_arg_name(out: &mut [u8], at: usize, sensor: Sensor) -> usize
    ensures { Wrote (output out.old at) (arg (name_of sensor)) (output out.new result) }
{
    let name = sensor.name;
    message::put_arg_prefix(out, at, &name, sensor.name_len as usize)
}

// The most options of a sensor, as the number of a place.
const OPTIONS: u64 = machine::OPTIONS as u64;

// The option at a place of a sensor's list; past the list, an empty one.
pub fn option_at(sensor: Sensor, place: u64) -> Choice
    ensures { take result.len result.text ≡ option_of sensor place }
{
    if place < OPTIONS {
        return sensor.options[place as usize];
    }
    Choice {
        text: [0; machine::OPTION],
        len: 0,
    }
}

// A stored number of a sensor as an argument.
pub fn put_arg_number(out: &mut [u8], at: usize, sensor: Sensor, number: u64) -> usize
    ensures { Wrote (output out.old at) (arg (messages.value_for sensor number)) (output out.new result) }
{
    let option = option_at(sensor, number);
    let text = option.text;
    value::put_arg_value(out, at, sensor.kind, &text, option.len as usize, number)
}

// The line of an inform on a sample of a sensor, from the start of out: its length.
fn value_line(
    out: &mut [u8],
    name: &[u8],
    id: u64,
    time: u64,
    sensor: Sensor,
    sample: Sample,
) -> usize
    ensures { Wrote (output out.old 0) (line (messages.inform_with id name.now (messages.value_args time sensor sample))) (output out.new result) }
{
    let status = value::status_of(sensor.limits, sample);
    let p = output::put_byte(out, 0, b'#');
    let p = output::put_bytes(out, p, name);
    let p = message::put_id(out, p, id);
    let p = message::put_arg_number(out, p, Notation::Time, time);
    let p = message::put_arg(out, p, b"1");
    let p = put_arg_name(out, p, sensor);
    let p = value::put_arg_status(out, p, status);
    let p = put_arg_number(out, p, sensor, sample.number);
    output::put_byte(out, p, b'\n')
}

// An inform on a sample of a sensor to a client: time, `1`, name, status, value.
pub fn deliver_value(
    out: &mut [u8],
    at: usize,
    client: u8,
    name: &[u8],
    id: u64,
    time: u64,
    sensor: Sensor,
    sample: Sample,
) -> usize
    ensures { Sent (output out.old at) (to client (messages.inform_with id name.now (messages.value_args time sensor sample)) ∷ []) (output out.new result) }
{
    let start = message::line_start(out.len(), at);
    let n = value_line(&mut out[start..], name, id, time, sensor, sample);
    let p = message::put_header(out, at, client, n);
    p + n
}

// A report to a client.
pub fn deliver_report(
    out: &mut [u8],
    at: usize,
    client: u8,
    clock: u64,
    sensor: Sensor,
    present: Sample,
) -> usize
    ensures { Sent (output out.old at) (to client (messages.report clock sensor present) ∷ []) (output out.new result) }
{
    deliver_value(out, at, client, b"sensor-status", 0, clock, sensor, present)
}

// At a reading, or else at a tick.
fn by_reading(cause: Cause) -> bool
    ensures { result ≡ reports.by_reading cause }
{
    matches!(cause, Cause::Reading(_))
}

// Whether a strategy can report at a reading, or else at a tick, whatever the sensor's reading is.
#[tactic(auto, unfolding(crate::specs::Visits::can_report))]
fn can_report(reading: bool, strategy: Strategy) -> bool
    ensures { result ≡ visits.can_report reading strategy }
{
    match strategy {
        Strategy::None => false,
        Strategy::Auto | Strategy::Event | Strategy::Differential(_) => reading,
        Strategy::Period(_) => !reading,
        Strategy::EventRate(_, _) | Strategy::DifferentialRate(_, _, _) => true,
    }
}

// A subscription after a report, which replaces the last.
fn after_report(clock: u64, present: Sample, pair: Subscription) -> Subscription
    ensures { result ≡ reports.reported clock present pair }
{
    let strategy = pair.strategy;
    Subscription {
        strategy: strategy,
        reported: true,
        sample: present,
        time: clock,
    }
}

// The first place that the visit of a call goes to; 256, behind all places, where it goes to none.
fn first_place(visiting: bool, cause: Cause) -> usize
    ensures { result ≡ visits.first_place visiting cause }
{
    if !visiting {
        return machine::PAIRS;
    }
    match cause {
        Cause::Tick => 0,
        Cause::Reading(j) => {
            if j < machine::SENSORS {
                j
            } else {
                machine::PAIRS
            }
        }
    }
}

// The place behind `p` that it goes to next: at a tick the next sensor of a client, or the next client where no sensor of it is there; at a
// reading the same sensor of the next client.
fn next_place(cause: Cause, there: bool, p: usize) -> usize
    requires { p < 256 }
    ensures { result ≡ visits.next_place cause there p }
{
    match cause {
        Cause::Tick => {
            if there {
                p + 1
            } else {
                p - p % machine::SENSORS + machine::SENSORS
            }
        }
        Cause::Reading(_) => p + machine::SENSORS,
    }
}

// A subscription with a chosen strategy: none keeps the last report, any other reports at once.
pub fn with_strategy(
    clock: u64,
    present: Sample,
    chosen: Strategy,
    pair: Subscription,
) -> Subscription
    ensures { result ≡ sampled clock present chosen pair }
{
    let last = pair.sample;
    if machine::is_none(chosen) {
        return Subscription {
            strategy: Strategy::None,
            reported: pair.reported,
            sample: last,
            time: pair.time,
        };
    }
    Subscription {
        strategy: chosen,
        reported: true,
        sample: present,
        time: clock,
    }
}

// The answer of a call that visits subscriptions, clients by their number, each in sheet order, once clock and readings are these. A pair is
// asked for its strategy first, and its sensor only where that can report. A call that is not `visiting` visits none (a row declines it, or its
// reading is older than the stored one): with the clock and the readings of the state it leaves the state as it was. There is one exit, so that
// the answer is written once.
pub fn visit(
    number: u8,
    visiting: bool,
    s: State,
    cause: Cause,
    clock: u64,
    readings: [Stored; machine::SENSORS],
    out: &mut [u8],
) -> Answer
    ensures number_value { result.number ≡ number }
    ensures state_value { result.state ≡ (visits.visiting visiting (visits.moment s clock readings) cause).next }
    ensures sent { Sent (output out.old 0) (visits.visiting visiting (visits.moment s clock readings) cause).sent (output out.new result.written) }
{
    let sheet = s.sheet;
    let clients = s.clients;
    let mut pairs = s.subscriptions;
    let count = sheet.count as usize;
    let reading = by_reading(cause);
    let mut at: usize = 0;
    let mut p = first_place(visiting, cause);
    while p < machine::PAIRS {
        let c = p / machine::SENSORS;
        let j = p % machine::SENSORS;
        let client = clients[c];
        let pair = pairs[p];
        let strategy = pair.strategy;
        let there = client.connected & (j < count);
        if there & can_report(reading, strategy) {
            let sensor = sheet.sensors[j];
            let stored = readings[j];
            let present = stored.sample;
            if is_due(reading, clock, sensor, present, pair) {
                at = deliver_report(out, at, c as u8, clock, sensor, present);
                pairs[p] = after_report(clock, present, pair);
            }
        }
        p = next_place(cause, there, p);
    }
    let next = State {
        sheet: sheet,
        clock: clock,
        halted: s.halted,
        level: s.level,
        readings: readings,
        clients: clients,
        subscriptions: pairs,
    };
    Answer {
        number: number,
        written: at,
        state: next,
    }
}
