//! Opening a sheet, and the check of a state that every other call begins with.
#![tactic(auto)]

ghost use Rattle.std.specs.Prelude.{◌≡◌, cond, ◌&&◌, ◌||◌, leb};
ghost use Rattle.value.specs.Reading as readings;
ghost use Rattle.machine.specs.Places.{all_below};
ghost use Rattle.machine.specs.State as states;
ghost use Rattle.machine.specs.Refusals.{refusal_number};
ghost use Rattle.machine.specs.Opening as opening;
ghost use Rattle.machine.specs.Range as ranges;
ghost use Rattle.sheet.specs.Fits as checks;

use machine::{Client, Opened, Refusal, Sheet, State, Stored, Strategy, Subscription};
use rules::Sensors;
use value::Sample;

// What stands at a place without a sensor.
fn no_stored() -> Stored
    ensures { result ≡ states.no_stored }
{
    Stored {
        sample: Sample { kind: 0, number: 0 },
        time: 0,
    }
}

// The reading that a sensor of a type starts with, where there is one: unknown, at time 0.
fn fresh_stored(there: bool, kind: u8) -> Stored
    ensures { result ≡ states.fresh_stored there kind }
{
    if there {
        return Stored {
            sample: value::invalid_sample(kind, 0),
            time: 0,
        };
    }
    no_stored()
}

fn fresh_readings(sheet: Sheet) -> [Stored; machine::SENSORS]
    ensures { result ≡ states.fresh_readings sheet }
{
    let count = usize::from(sheet.count);
    let mut readings = [no_stored(); machine::SENSORS];
    for (j, sensor) in sheet.sensors.iter().enumerate() {
        readings[j] = fresh_stored(j < count, sensor.kind);
    }
    readings
}

// The state of a device that has just been opened. All 256 subscriptions, of 8 clients to 32 sensors, start as none.
fn fresh_state(sheet: Sheet) -> State
    ensures { result ≡ states.fresh sheet }
{
    let readings = fresh_readings(sheet);
    let clients = [machine::blank_client(); machine::CLIENTS];
    let subscriptions = [machine::no_subscription(); machine::PAIRS];
    State {
        sheet: sheet,
        clock: 0,
        halted: false,
        level: machine::start_level(),
        readings: readings,
        clients: clients,
        subscriptions: subscriptions,
    }
}

// The state that a broken sheet gives: halted, with nothing in it.
// kept: beside `fresh_state`; the two share three fields of seven, and a function that takes the other four is no plainer.
fn blank_state() -> State
    ensures { result ≡ states.blank }
{
    let sheet = layout::blank_sheet();
    let readings = [no_stored(); machine::SENSORS];
    let clients = [machine::blank_client(); machine::CLIENTS];
    let subscriptions = [machine::no_subscription(); machine::PAIRS];
    State {
        sheet: sheet,
        clock: 0,
        halted: true,
        level: 0,
        readings: readings,
        clients: clients,
        subscriptions: subscriptions,
    }
}

fn not_opened(refusal: Refusal) -> Opened
    ensures { result ≡ opening.not_opened (refusal_number refusal) }
{
    Opened {
        number: refusal.number(),
        state: blank_state(),
    }
}

// Number 0 and the fresh state of a sheet under a profile; 4 and the blank state where the bytes are no sheet; before it 31 and the blank state
// where there is no such profile. A fresh state is in range just where its sheet keeps its rules, so the check of a state is the check of a sheet
// too.
pub fn open(profile: u8, sheet: &[u8]) -> Opened
    ensures { result ≡ opening.opened (opening.start_of profile sheet.now) }
{
    if 1 < profile {
        return not_opened(Refusal::NoSuchProfile);
    }
    let Some((read, rest)) = layout::sheet_at(sheet) else {
        return not_opened(Refusal::NotASheet);
    };
    let state = fresh_state(Sheet {
        profile: profile,
        ..read
    });
    let ended = rest.is_empty();
    if ended & in_range(state) {
        return Opened {
            number: 0,
            state: state,
        };
    }
    not_opened(Refusal::NotASheet)
}

// A stored number of a valid value of a type.
#[tactic(auto, unfolding(value::specs::Reading::number_fits))]
fn number_fits(kind: u8, options: u8, n: u64) -> bool
    ensures { result ≡ readings.number_fits kind options n }
{
    match kind {
        1 => n < value::INTEGERS,
        2 => n <= value::MOST_FLOAT,
        3 => n <= 1,
        4 => n < u64::from(options),
        5 => n <= value::LAST_TIME,
        _ => n <= value::LAST_TIME,
    }
}

// A sample that a sensor of a type can have.
#[tactic(auto, unfolding(value::specs::Reading::sample_fits))]
fn sample_ok(kind: u8, options: u8, x: Sample) -> bool
    ensures { result ≡ readings.sample_fits kind options x }
{
    let own = x.kind;
    match own {
        0 => x.number == value::zero_of(kind),
        1 => number_fits(kind, options, x.number),
        2 => x.number == value::zero_of(kind),
        3 => x.number == value::zero_of(kind),
        4 => x.number == value::zero_of(kind),
        _ => false,
    }
}

fn sample_none(x: Sample) -> bool
    ensures { result ≡ ranges.sample_none x }
{
    (x.kind == 0) & (x.number == 0)
}

// The reading of a sensor of a type, or what stands at a place without one.
fn stored_ok(there: bool, clock: u64, kind: u8, options: u8, r: Stored) -> bool
    ensures { result ≡ cond there (readings.sample_fits kind options r.sample && leb r.time clock) (ranges.stored_none r) }
{
    if there {
        return sample_ok(kind, options, r.sample) & (r.time <= clock);
    }
    sample_none(r.sample) & (r.time == 0)
}

fn readings_ok(count: u8, clock: u64, sensors: Sensors, stored: [Stored; machine::SENSORS]) -> bool
    ensures { result ≡ all_below (checks.stored_fits count clock sensors stored) 32 }
{
    let n = usize::from(count);
    let kinds = sensors.kinds;
    let options = sensors.options;
    let mut ok = true;
    for (j, held) in stored.iter().enumerate() {
        ok = ok & stored_ok(j < n, clock, kinds[j], options[j], *held);
    }
    ok
}

fn clients_ok(clients: [Client; machine::CLIENTS]) -> bool
    ensures { result ≡ all_below (ranges.client_ok_at clients) 8 }
{
    let mut ok = true;
    for client in &clients {
        ok = ok & rules::client_ok(*client);
    }
    ok
}

// None of the clients from `first` on is connected.
fn none_from(first: usize, clients: [Client; machine::CLIENTS]) -> bool
    ensures { result ≡ all_below (checks.absent_from first clients) 8 }
{
    let mut ok = true;
    for (c, client) in clients.iter().enumerate() {
        ok = ok & ((c < first) | !client.connected);
    }
    ok
}

fn period_ok(p: u64) -> bool
    ensures { result ≡ ranges.period_ok p }
{
    (1 <= p) & (p <= value::LONGEST_PERIOD)
}

fn rates_ok(shortest: u64, longest: u64) -> bool
    ensures { result ≡ ranges.rates_ok shortest longest }
{
    (shortest <= longest) & period_ok(longest)
}

#[tactic(auto, unfolding(machine::specs::Range::difference_ok))]
fn difference_ok(kind: u8, d: u64) -> bool
    ensures { result ≡ ranges.difference_ok kind d }
{
    match kind {
        1 => (d <= 4294967295000000) & (d % output::MILLIONTHS == 0),
        2 => d <= value::MOST_FLOAT_DIFFERENCE,
        3 => false,
        4 => false,
        5 => false,
        _ => false,
    }
}

// A strategy that a sensor of a type can have.
fn strategy_ok(kind: u8, strategy: Strategy) -> bool
    ensures { result ≡ ranges.strategy_ok kind strategy }
{
    match strategy {
        Strategy::None => true,
        Strategy::Auto => true,
        Strategy::Period(period) => period_ok(period),
        Strategy::Event => true,
        Strategy::Differential(difference) => difference_ok(kind, difference),
        Strategy::EventRate(shortest, longest) => rates_ok(shortest, longest),
        Strategy::DifferentialRate(difference, shortest, longest) => {
            difference_ok(kind, difference) & rates_ok(shortest, longest)
        }
    }
}

// A subscription without a report, or with one where its client and its sensor are there.
fn pair_ok(there: bool, clock: u64, kind: u8, options: u8, p: Subscription) -> bool
    ensures { result ≡ (ranges.pair_none p || (there && checks.reported_fits clock kind options p)) }
{
    let strategy = p.strategy;
    if p.reported {
        let held = sample_ok(kind, options, p.sample);
        return there & (strategy_ok(kind, strategy) & (held & (p.time <= clock)));
    }
    machine::is_none(strategy) & (sample_none(p.sample) & (p.time == 0))
}

fn pairs_ok(
    count: u8,
    clock: u64,
    sensors: Sensors,
    clients: [Client; machine::CLIENTS],
    pairs: [Subscription; machine::PAIRS],
) -> bool
    ensures { result ≡ all_below (checks.pair_fits count clock sensors clients pairs) 256 }
{
    let n = usize::from(count);
    let kinds = sensors.kinds;
    let options = sensors.options;
    let mut ok = true;
    for (p, pair) in pairs.iter().enumerate() {
        let j = p % machine::SENSORS;
        let there = clients[p / machine::SENSORS].connected & (j < n);
        ok = ok & pair_ok(there, clock, kinds[j], options[j], *pair);
    }
    ok
}

// Whether every field of a state is within what document 01 allows: where not, a call is declined with number 1. The parts of the state are
// taken apart once; of the sheet one pass tells what the others ask of its sensors.
pub fn in_range(s: State) -> bool
    ensures { result ≡ ranges.in_range s }
{
    let sheet = s.sheet;
    let stored = s.readings;
    let connections = s.clients;
    let subscriptions = s.subscriptions;
    let titles = rules::titles_ok(sheet);
    let untitled = rules::titles_none(sheet);
    let sensors = rules::sensors_found(sheet);
    let alone = none_from(0, connections);
    // what, in range, only the blank state has
    let blank = untitled
        & ((sheet.count == 0)
            & ((sheet.profile == 0) & (alone & (s.halted & ((s.level == 0) & (s.clock == 0))))));
    let within = none_from(machine::last_client(sheet.profile) + 1, connections);
    let profile = (sheet.profile <= 1) & within;
    let readings = readings_ok(sheet.count, s.clock, sensors, stored);
    let clients = clients_ok(connections);
    let pairs = pairs_ok(sheet.count, s.clock, sensors, connections, subscriptions);
    (titles | blank)
        & (profile
            & (sensors.ok
                & ((s.clock <= value::LAST_TIME)
                    & ((s.level <= 7) & (readings & (clients & pairs))))))
}
