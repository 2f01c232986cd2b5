//! What requests are answered with: the informs that are tied to one, and its reply.
#![tactic(auto)]

ghost use Rattle.std.specs.Prelude.{◌≡◌, cond, [], ◌∷◌, map, ◌+◌, ◌<◌, length, Some};
ghost use Rattle.output.specs.Output.{output, Wrote};
ghost use Rattle.message.specs.Message.{arg, args_text, write, line};
ghost use Rattle.message.specs.Delivery.{to, Sent};
ghost use Rattle.machine.specs.Places.{one_if, tabulate};
ghost use Rattle.machine.specs.Sheet.{single, option_of};
ghost use Rattle.machine.specs.State.{address_of};
ghost use Rattle.machine.specs.Messages as messages;
ghost use Rattle.machine.specs.Requests.{Row, request_named, hidden, found, shown_rows, addresses_below};
ghost use Rattle.machine.specs.Declined.{count_fits};
ghost use Rattle.replies.specs.Asking.{asking, names_told};

use machine::{Client, Request, Sensor, Sheet, Strategy};
use output::Notation;

// How far an output is written, and how many informs that were.
#[derive(Clone, Copy)]
pub struct Told {
    pub at: usize,
    pub count: usize,
}

// The names of the requests, in the order of `Request`.
const REQUESTS: [u8; 102] =
    *b"client-list|halt|help|log-level|restart|sensor-list|sensor-sampling|sensor-value|version-list|watchdog";

// The requests in the order of their names.
const BY_PLACE: [Request; 10] = [
    Request::ClientList,
    Request::Halt,
    Request::Help,
    Request::LogLevel,
    Request::Restart,
    Request::SensorList,
    Request::SensorSampling,
    Request::SensorValue,
    Request::VersionList,
    Request::Watchdog,
];

// Whether a profile does not have a request: units with a single client have no `client-list`.
fn is_hidden(profile: u8, request: Request) -> bool
    ensures { result ≡ hidden profile request }
{
    match request {
        Request::ClientList => machine::is_single(profile),
        _ => false,
    }
}

// The request of a name under a profile.
pub fn request_named(profile: u8, name: &[u8]) -> Option<Request>
    ensures { result ≡ found profile (request_named name.now) }
{
    let place = texts::place_of(&REQUESTS, name)?;
    let request = BY_PLACE.get(place).copied()?;
    if is_hidden(profile, request) {
        return None;
    }
    Some(request)
}

// Whether a request takes so many arguments.
pub fn count_fits(request: Request, count: usize) -> bool
    ensures { result ≡ count_fits request count }
{
    match request {
        Request::Help | Request::LogLevel | Request::SensorList | Request::SensorValue => {
            count <= 1
        }
        Request::SensorSampling => 1 <= count,
        _ => count == 0,
    }
}

// The start of a reply of success: `!`, name, id and `ok`.
fn put_ok(out: &mut [u8], name: &[u8], id: u64) -> usize
    ensures { Wrote (output out.old 0) (write (messages.ok_reply (asking name.now id) [])) (output out.new result) }
{
    let p = output::put_byte(out, 0, b'!');
    let p = output::put_bytes(out, p, name);
    let p = message::put_id(out, p, id);
    message::put_arg(out, p, b"ok")
}

// The line of a reply that counts informs, from the start of out: its length.
fn count_line(out: &mut [u8], name: &[u8], id: u64, count: usize) -> usize
    ensures { Wrote (output out.old 0) (line (messages.count_reply (asking name.now id) count)) (output out.new result) }
{
    let p = put_ok(out, name, id);
    let p = message::put_arg_number(out, p, Notation::Decimal, count as u64);
    output::put_byte(out, p, b'\n')
}

// The reply that counts informs.
pub fn deliver_count(
    out: &mut [u8],
    at: usize,
    client: u8,
    name: &[u8],
    id: u64,
    count: usize,
) -> usize
    ensures { Sent (output out.old at) (to client (messages.count_reply (asking name.now id) count) ∷ []) (output out.new result) }
{
    let start = message::line_start(out.len(), at);
    let n = count_line(&mut out[start..], name, id, count);
    let p = message::put_header(out, at, client, n);
    p + n
}

// The line of the reply with the log level, from the start of out: its length.
fn level_line(out: &mut [u8], name: &[u8], id: u64, level: u8) -> usize
    ensures { Wrote (output out.old 0) (line (messages.ok_reply (asking name.now id) (messages.level_text level ∷ []))) (output out.new result) }
{
    let p = put_ok(out, name, id);
    let p = informs::put_arg_level(out, p, level);
    output::put_byte(out, p, b'\n')
}

// The reply with the log level.
pub fn deliver_level(
    out: &mut [u8],
    at: usize,
    client: u8,
    name: &[u8],
    id: u64,
    level: u8,
) -> usize
    ensures { Sent (output out.old at) (to client (messages.ok_reply (asking name.now id) (messages.level_text level ∷ [])) ∷ []) (output out.new result) }
{
    let start = message::line_start(out.len(), at);
    let n = level_line(&mut out[start..], name, id, level);
    let p = message::put_header(out, at, client, n);
    p + n
}

// The line of the reply with listed names and a strategy, from the start of out: its length.
fn sampling_line(
    out: &mut [u8],
    name: &[u8],
    id: u64,
    names: &[u8],
    sensor: Sensor,
    strategy: Strategy,
) -> usize
    ensures { Wrote (output out.old 0) (line (messages.sampling_reply (asking name.now id) names.now sensor strategy)) (output out.new result) }
{
    let p = put_ok(out, name, id);
    let p = message::put_arg(out, p, names);
    let p = strategies::put_args_strategy(out, p, sensor, strategy);
    output::put_byte(out, p, b'\n')
}

// The reply with listed names and a strategy, its parameters written for a sensor.
pub fn deliver_sampling(
    out: &mut [u8],
    at: usize,
    client: u8,
    name: &[u8],
    id: u64,
    names: &[u8],
    sensor: Sensor,
    strategy: Strategy,
) -> usize
    ensures { Sent (output out.old at) (to client (messages.sampling_reply (asking name.now id) names.now sensor strategy) ∷ []) (output out.new result) }
{
    let start = message::line_start(out.len(), at);
    let n = sampling_line(&mut out[start..], name, id, names, sensor, strategy);
    let p = message::put_header(out, at, client, n);
    p + n
}

// The address of a client that is connected.
fn tell_client(out: &mut [u8], told: Told, client: u8, id: u64, k: &Client) -> Told
    requires { told.count < 8 }
    ensures sent { Sent (output out.old told.at) (messages.all_to client (map (messages.client_inform id) (one_if k.now.connected (address_of k.now)))) (output out.new result.at) }
    ensures count_value { result.count ≡ told.count + length (one_if k.now.connected (address_of k.now)) }
{
    if !k.connected {
        return told;
    }
    let text = texts::prefix(&k.address, k.address_len as usize);
    let p = message::deliver(out, told.at, client, b'#', b"client-list", id, &[text]);
    Told {
        at: p,
        count: told.count + 1,
    }
}

// The addresses of the connected clients, from the start of out.
fn tell_clients(out: &mut [u8], client: u8, id: u64, clients: [Client; machine::CLIENTS]) -> Told
    ensures sent { Sent (output out.old 0) (messages.all_to client (map (messages.client_inform id) (addresses_below clients 8))) (output out.new result.at) }
    ensures count_value { result.count ≡ length (addresses_below clients 8) }
{
    let mut told = Told { at: 0, count: 0 };
    for k in &clients {
        told = tell_client(out, told, client, id, k);
    }
    told
}

// `client-list`: the addresses of the connected clients.
pub fn client_list(
    out: &mut [u8],
    client: u8,
    name: &[u8],
    id: u64,
    clients: [Client; machine::CLIENTS],
) -> usize
    ensures { Sent (output out.old 0) (messages.counted_answer client (asking name.now id) (map (messages.client_inform id) (addresses_below clients 8))) (output out.new result) }
{
    let told = tell_clients(out, client, id, clients);
    deliver_count(out, told.at, client, name, id, told.count)
}

// What `help` tells of a request.
fn tell_request(out: &mut [u8], at: usize, client: u8, id: u64, request: &[u8]) -> usize
    ensures { Sent (output out.old at) (to client (messages.help_inform id request.now) ∷ []) (output out.new result) }
{
    message::deliver(out, at, client, b'#', b"help", id, &[request, request])
}

// The first place of the table that a profile has: `client-list` is at place 0.
fn first_request(profile: u8) -> usize
    ensures { result ≡ cond (single profile) 1 0 }
{
    if machine::is_single(profile) {
        return 1;
    }
    0
}

// What it tells of all that a profile has, and how many they are.
fn tell_requests(out: &mut [u8], client: u8, id: u64, profile: u8) -> Told
    ensures sent { Sent (output out.old 0) (messages.all_to client (map (messages.help_inform id) (map (λ (row : Row). row.name) (shown_rows profile)))) (output out.new result.at) }
    ensures count_value { result.count ≡ length (shown_rows profile) }
{
    let most = texts::word_count(&REQUESTS);
    let first = first_request(profile);
    let mut at: usize = 0;
    for k in first..most {
        at = tell_request(out, at, client, id, texts::word_of(&REQUESTS, k));
    }
    Told {
        at: at,
        count: most - first,
    }
}

// `help`: the request that is named, or all that a profile has.
pub fn help(
    out: &mut [u8],
    client: u8,
    name: &[u8],
    id: u64,
    profile: u8,
    named: bool,
    request: &[u8],
) -> usize
    ensures { Sent (output out.old 0) (messages.counted_answer client (asking name.now id) (map (messages.help_inform id) (names_told profile named request.now))) (output out.new result) }
{
    if named {
        let p = tell_request(out, 0, client, id, request);
        return deliver_count(out, p, client, name, id, 1);
    }
    let told = tell_requests(out, client, id, profile);
    deliver_count(out, told.at, client, name, id, told.count)
}

// `version-list`: what a newcomer is told.
pub fn version_list(out: &mut [u8], client: u8, name: &[u8], id: u64, sheet: Sheet) -> usize
    ensures { Sent (output out.old 0) (messages.counted_answer client (asking name.now id) (map (messages.version_inform id) (messages.protocol_args sheet.profile ∷ messages.device_args sheet ∷ []))) (output out.new result) }
{
    let p = informs::deliver_versions(out, 0, client, b"version-list", id, sheet);
    deliver_count(out, p, client, name, id, 2)
}

// The word of a type as an argument.
#[tactic(auto, unfolding(machine::specs::Messages::type_text))]
fn put_arg_type(out: &mut [u8], at: usize, kind: u8) -> usize
    ensures { Wrote (output out.old at) (arg (messages.type_text kind)) (output out.new result) }
{
    match kind {
        0 => message::put_arg(out, at, b""),
        1 => message::put_arg(out, at, b"integer"),
        2 => message::put_arg(out, at, b"float"),
        3 => message::put_arg(out, at, b"boolean"),
        4 => message::put_arg(out, at, b"discrete"),
        5 => message::put_arg(out, at, b"timestamp"),
        _ => message::put_arg(out, at, b"timestamp"),
    }
}

// The options of a sensor.
fn put_args_options(out: &mut [u8], at: usize, sensor: Sensor) -> usize
    ensures { Wrote (output out.old at) (args_text (tabulate (option_of sensor) sensor.option_count) []) (output out.new result) }
{
    let count = sensor.option_count as u64;
    let mut p = at;
    for k in 0..count {
        let option = sampling::option_at(sensor, k);
        p = message::put_arg_prefix(out, p, &option.text, option.len as usize);
    }
    p
}

// The nominal or the warn range of a sensor.
fn put_args_range(out: &mut [u8], at: usize, sensor: Sensor, least: u64, most: u64) -> usize
    ensures { Wrote (output out.old at) (args_text (messages.value_for sensor least ∷ messages.value_for sensor most ∷ []) []) (output out.new result) }
{
    let p = sampling::put_arg_number(out, at, sensor, least);
    sampling::put_arg_number(out, p, sensor, most)
}

// The limits of a sensor.
fn put_args_limits(out: &mut [u8], at: usize, sensor: Sensor) -> usize
    ensures { Wrote (output out.old at) (args_text (map (messages.value_for sensor) (messages.limit_numbers sensor.limits)) []) (output out.new result) }
{
    let limits = sensor.limits;
    if limits.count == 0 {
        return at;
    }
    let p = put_args_range(out, at, sensor, limits.nominal_min, limits.nominal_max);
    if limits.count == 2 {
        return p;
    }
    put_args_range(out, p, sensor, limits.warn_min, limits.warn_max)
}

// Limits or options.
fn put_args_of_type(out: &mut [u8], at: usize, sensor: Sensor) -> usize
    ensures { Wrote (output out.old at) (args_text (messages.type_args sensor) []) (output out.new result) }
{
    if value::is_discrete(sensor.kind) {
        return put_args_options(out, at, sensor);
    }
    put_args_limits(out, at, sensor)
}

// The line of a sensor's inform of `sensor-list`, from the start of out: its length.
fn sensor_line(out: &mut [u8], id: u64, sensor: Sensor) -> usize
    ensures { Wrote (output out.old 0) (line (messages.sensor_inform id sensor)) (output out.new result) }
{
    let description = sensor.description;
    let units = sensor.units;
    let p = output::put_bytes(out, 0, b"#sensor-list");
    let p = message::put_id(out, p, id);
    let p = sampling::put_arg_name(out, p, sensor);
    let p = message::put_arg_prefix(out, p, &description, sensor.description_len as usize);
    let p = message::put_arg_prefix(out, p, &units, sensor.units_len as usize);
    let p = put_arg_type(out, p, sensor.kind);
    let p = put_args_of_type(out, p, sensor);
    output::put_byte(out, p, b'\n')
}

// A sensor's inform of `sensor-list`.
pub fn deliver_sensor(out: &mut [u8], at: usize, client: u8, id: u64, sensor: Sensor) -> usize
    ensures { Sent (output out.old at) (to client (messages.sensor_inform id sensor) ∷ []) (output out.new result) }
{
    let start = message::line_start(out.len(), at);
    let n = sensor_line(&mut out[start..], id, sensor);
    let p = message::put_header(out, at, client, n);
    p + n
}
