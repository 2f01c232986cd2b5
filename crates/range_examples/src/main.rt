//! States damaged in one field. The state of a sheet with a sensor of each type is opened, and each line of standard input sets a field of
//! it: `+` and what follows for good, `?` for this line alone; behind a line `-` it is the blank state. For each line it prints the line, and 1
//! where the state is then in range, else 0.
//! Behind the field's name stand its place (sensor, client, subscription), its index in an array, and its value.
#![tactic(auto)]

use machine::{Client, Sensor, Sheet, State, Stored, Strategy, Subscription};
use std::io::Write;
use std::rt::HostRuntime;
use stream::Unwritten;
use value::{Limits, Sample};

// The numbers behind the field's name, 0 where there are fewer.
#[derive(Clone, Copy)]
struct Numbers {
    a: u64,
    b: u64,
    c: u64,
    d: u64,
    e: u64,
}

// The number that decimal digits make, at most 19 of them.
fn decimal_value(s: &[u8]) -> u64 {
    let mut value: u64 = 0;
    for b in s {
        value = value % 1000000000000000000 * 10 + u64::from(*b % 16);
    }
    value
}

// Argument k of a line as a number.
fn number(line: &[u8], k: usize) -> u64 {
    let mut text = [0u8; 32];
    let Some(n) = line::argument(line, k, &mut text) else {
        return 0;
    };
    decimal_value(texts::prefix(&text, n))
}

fn numbers_of(line: &[u8]) -> Numbers {
    Numbers {
        a: number(line, 1),
        b: number(line, 2),
        c: number(line, 3),
        d: number(line, 4),
        e: number(line, 5),
    }
}

// Whether a line sets a field.
fn sets(line: &[u8], field: &[u8]) -> bool {
    let mut text: [u8; 32] = [0; 32];
    let Some(n) = line::argument(line, 0, &mut text) else {
        return false;
    };
    texts::same(texts::prefix(&text, n), field)
}

fn byte(n: u64) -> u8 {
    (n % 256) as u8
}

fn with_titles(sheet: Sheet, line: &[u8], n: Numbers) -> Sheet {
    let mut next = sheet;
    let k = (n.a % 32) as usize;
    if sets(line, b"api") {
        next.api[k] = byte(n.b);
    }
    if sets(line, b"api_len") {
        next.api_len = byte(n.a);
    }
    if sets(line, b"build") {
        next.build[k] = byte(n.b);
    }
    if sets(line, b"build_len") {
        next.build_len = byte(n.a);
    }
    if sets(line, b"count") {
        next.count = byte(n.a);
    }
    if sets(line, b"profile") {
        next.profile = byte(n.a);
    }
    next
}

fn with_texts(sensor: Sensor, line: &[u8], n: Numbers) -> Sensor {
    let mut next = sensor;
    let of_name = (n.b % 32) as usize;
    let of_description = (n.b % 64) as usize;
    let of_units = (n.b % 8) as usize;
    if sets(line, b"name") {
        next.name[of_name] = byte(n.c);
    }
    if sets(line, b"name_len") {
        next.name_len = byte(n.b);
    }
    if sets(line, b"description") {
        next.description[of_description] = byte(n.c);
    }
    if sets(line, b"description_len") {
        next.description_len = byte(n.b);
    }
    if sets(line, b"units") {
        next.units[of_units] = byte(n.c);
    }
    if sets(line, b"units_len") {
        next.units_len = byte(n.b);
    }
    if sets(line, b"type") {
        next.kind = byte(n.b);
    }
    next
}

fn with_limits(limits: Limits, line: &[u8], n: Numbers) -> Limits {
    let mut next = limits;
    if sets(line, b"limit_count") {
        next.count = byte(n.b);
    }
    if sets(line, b"nominal_min") {
        next.nominal_min = n.b;
    }
    if sets(line, b"nominal_max") {
        next.nominal_max = n.b;
    }
    if sets(line, b"warn_min") {
        next.warn_min = n.b;
    }
    if sets(line, b"warn_max") {
        next.warn_max = n.b;
    }
    next
}

fn with_options(sensor: Sensor, line: &[u8], n: Numbers) -> Sensor {
    let mut next = sensor;
    let k = (n.b % 8) as usize;
    let j = (n.c % 16) as usize;
    let mut option = next.options[k];
    if sets(line, b"option") {
        option.text[j] = byte(n.d);
    }
    if sets(line, b"option_len") {
        option.len = byte(n.c);
    }
    if sets(line, b"option_count") {
        next.option_count = byte(n.b);
    }
    next.options[k] = option;
    next
}

fn with_sensor(sensor: Sensor, line: &[u8], n: Numbers) -> Sensor {
    let texts = with_texts(sensor, line, n);
    let mut next = with_options(texts, line, n);
    let limits = with_limits(next.limits, line, n);
    next.limits = limits;
    next
}

fn with_sheet(sheet: Sheet, line: &[u8], n: Numbers) -> Sheet {
    let mut next = with_titles(sheet, line, n);
    let j = (n.a % 32) as usize;
    let sensor = next.sensors[j];
    let changed = with_sensor(sensor, line, n);
    next.sensors[j] = changed;
    next
}

fn with_reading(r: Stored, line: &[u8], n: Numbers) -> Stored {
    let x = r.sample;
    let mut kind = x.kind;
    let mut number = x.number;
    let mut time = r.time;
    if sets(line, b"reading_kind") {
        kind = byte(n.b);
    }
    if sets(line, b"reading_number") {
        number = n.b;
    }
    if sets(line, b"reading_time") {
        time = n.b;
    }
    Stored {
        sample: Sample {
            kind: kind,
            number: number,
        },
        time: time,
    }
}

fn with_client(client: Client, line: &[u8], n: Numbers) -> Client {
    let mut next = client;
    let k = (n.b % 48) as usize;
    if sets(line, b"connected") {
        next.connected = n.b == 1;
    }
    if sets(line, b"address") {
        next.address[k] = byte(n.c);
    }
    if sets(line, b"address_len") {
        next.address_len = byte(n.b);
    }
    next
}

fn strategy_of(n: Numbers) -> Strategy {
    let which = n.b;
    match which {
        1 => Strategy::Auto,
        2 => Strategy::Period(n.c),
        3 => Strategy::Event,
        4 => Strategy::Differential(n.c),
        5 => Strategy::EventRate(n.c, n.d),
        6 => Strategy::DifferentialRate(n.c, n.d, n.e),
        _ => Strategy::None,
    }
}

fn with_strategy(p: Subscription, line: &[u8], n: Numbers) -> Subscription {
    let mut next = p;
    if sets(line, b"strategy") {
        let strategy = strategy_of(n);
        let sample = p.sample;
        next = Subscription {
            strategy: strategy,
            reported: p.reported,
            sample: sample,
            time: p.time,
        };
    }
    next
}

fn with_report(p: Subscription, line: &[u8], n: Numbers) -> Subscription {
    let x = p.sample;
    let strategy = p.strategy;
    let mut reported = p.reported;
    let mut kind = x.kind;
    let mut number = x.number;
    let mut time = p.time;
    if sets(line, b"reported") {
        reported = n.b == 1;
    }
    if sets(line, b"report_kind") {
        kind = byte(n.b);
    }
    if sets(line, b"report_number") {
        number = n.b;
    }
    if sets(line, b"report_time") {
        time = n.b;
    }
    Subscription {
        strategy: strategy,
        reported: reported,
        sample: Sample {
            kind: kind,
            number: number,
        },
        time: time,
    }
}

fn with_parts(s: State, line: &[u8], n: Numbers) -> State {
    let mut next = s;
    let j = (n.a % 32) as usize;
    let c = (n.a % 8) as usize;
    let p = (n.a % 256) as usize;
    let sheet = with_sheet(s.sheet, line, n);
    let stored = s.readings[j];
    let reading = with_reading(stored, line, n);
    let old = s.clients[c];
    let client = with_client(old, line, n);
    let before = s.subscriptions[p];
    let set = with_strategy(before, line, n);
    let pair = with_report(set, line, n);
    next.sheet = sheet;
    next.readings[j] = reading;
    next.clients[c] = client;
    next.subscriptions[p] = pair;
    next
}

// The state with the field of a line set.
fn with_field(s: State, line: &[u8], n: Numbers) -> State {
    let mut next = with_parts(s, line, n);
    if sets(line, b"clock") {
        next.clock = n.a;
    }
    if sets(line, b"halted") {
        next.halted = n.a == 1;
    }
    if sets(line, b"level") {
        next.level = byte(n.a);
    }
    next
}

// What is shown, and whether the state is in range.
fn print_range<W: Write>(to: &mut W, line: &[u8], s: State) -> Result<(), Unwritten> {
    stream::print(to, line)?;
    if sheet::in_range(s) {
        return stream::print(to, b" 1\n");
    }
    stream::print(to, b" 0\n")
}

// A line changes the state where it begins with `+`, and leaves the blank one where it begins with `-`.
fn show<W: Write>(
    to: &mut W,
    line: &[u8],
    state: &mut State,
    blank: State,
) -> Result<(), Unwritten> {
    let Some(first) = line.first() else {
        return Ok(());
    };
    if *first == b'-' {
        *state = blank;
        return print_range(to, line, blank);
    }
    let next = with_field(*state, line, numbers_of(line));
    if *first == b'+' {
        *state = next;
    }
    print_range(to, line, next)
}

// Each line, the last one too where it has no end.
fn show_lines<W: Write>(
    to: &mut W,
    s: &[u8],
    state: &mut State,
    blank: State,
) -> Result<(), Unwritten> {
    for piece in s.split_inclusive(|b| *b == b'\n') {
        let line = piece.strip_suffix(b"\n").unwrap_or(piece);
        show(to, line, state, blank)?;
    }
    Ok(())
}

fn main(rt: HostRuntime) {
    let to = &mut rt.stdout();
    let errors = &mut rt.stderr();
    let mut input = io::large_buffer();
    let n = stream::read_input(&mut rt.stdin(), errors, &mut input);
    let broken = sheet::open(0, b"");
    let opened = sheet::open(
        0,
        b"LGU\0\x01\x07lgu-1.0\x02b7\x05\x04load\x09Car load.\x02kg\x01\x04\0\0\0\0\0\0\x03\xe8\xff\xff\xff\xfb\0\0\x04\xb0\x05speed\0\x03m/s\x02\x02\xff\xff\xf8\0\0\0\x08\0\x04door\0\0\x04\x03\x04shut\x04open\x06moving\x04call\0\0\x03\x05start\0\0\x05",
    );
    let mut state = opened.state;
    let printed = print_range(to, b"opened", state);
    if printed
        .and_then(|()| show_lines(to, &input[..n], &mut state, broken.state))
        .is_err()
    {
        stream::say_unwritten(errors);
    }
}
