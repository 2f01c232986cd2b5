//! A client's line: what it asks, the rows that decline it, and the ten requests. `respond` is the whole call.
#![tactic(auto)]

ghost use Rattle.std.specs.Prelude.{◌≡◌, true, cond, [], ◌∷◌, map, ◌≤◌, ◌<◌, eqb, ltb, length, take, drop, IfOk};
ghost use Rattle.output.specs.Text.{text};
ghost use Rattle.output.specs.Output.{output};
ghost use Rattle.message.specs.Delivery.{to, Sent};
ghost use Rattle.line.specs.Line.{parse};
ghost use Rattle.line.specs.Argument as arguments;
ghost use Rattle.machine.specs.Places.{Each};
ghost use Rattle.machine.specs.Sheet.{sensor_of};
ghost use Rattle.machine.specs.State as states;
ghost use Rattle.machine.specs.Range.{in_range, is_none};
ghost use Rattle.machine.specs.Messages as messages;
ghost use Rattle.machine.specs.Requests as requests;
ghost use Rattle.machine.specs.Declined as calls;
ghost use Rattle.machine.specs.Refusals.{refusal_number, number_in};
ghost use Rattle.machine.specs.Machine.{step, answer_of, output_of, done};
ghost use Rattle.names.specs.Scan as scans;
ghost use Rattle.replies.specs.Asking.{asking};
ghost use Rattle.request.specs.Reading.{message_of, IsRead, Heard, Ready};
ghost use Rattle.request.specs.Effects as effects;

use line::Header;
use machine::{Answer, Refusal, Request, Sheet, State, Strategy};
use names::Listed;

// A line that was read, and its header.
#[derive(Clone, Copy)]
struct Asked<'a> {
    line: &'a [u8],
    head: Header,
    ghost read: { IsRead line.now head },
}

impl<'a> Asked<'a> {
    // The name of its message.
    fn name(self) -> &'a [u8]
        ensures { result.now ≡ take self.entry.head.name (drop 1 self.entry.line.now) }
    {
        line::name(self.line, self.head.name)
    }

    // The text of its argument `k`, copied to the start of `into`: its length.
    fn argument(self, k: usize, into: &mut [u8]) -> usize
        requires { length into.old ≡ 2048 }
        ensures into_after { take result into.new ≡ arguments.argument self.entry.line.now k }
        ensures upper_bound { result ≤ 2048 }
    {
        let Some(n) = line::argument(self.line, k, into) else {
            return 0;
        };
        n
    }
}

// Row 23: `help` on a name that no request of a profile has.
fn help_row(profile: u8, asked: Asked) -> Result<(), Refusal>
    ensures { number_in result ≡ cond (eqb (length (message_of asked.entry.line.now).args) 0) 0 (calls.help_declined profile (requests.request_named (requests.argument (message_of asked.entry.line.now) 0))) }
{
    if asked.head.count == 0 {
        return Ok(());
    }
    let mut text: [u8; line::LONGEST] = [0; line::LONGEST];
    let n = asked.argument(0, &mut text);
    let Some(_) = replies::request_named(profile, &text[..n]) else {
        return Err(Refusal::HelpUnknown);
    };
    Ok(())
}

// The log level that a line names; the present one where it names none. Row 22: a word that no log level has.
fn level_asked(asked: Asked, level: u8) -> Result<u8, Refusal>
    ensures number { number_in result ≡ calls.arguments_declined states.blank_sheet Request.LogLevel (message_of asked.entry.line.now) }
    ensures level { IfOk result (λ l. l ≡ cond (eqb (length (message_of asked.entry.line.now).args) 0) level (requests.level_of (requests.argument (message_of asked.entry.line.now) 0))) }
{
    if asked.head.count == 0 {
        return Ok(level);
    }
    let mut text: [u8; line::LONGEST] = [0; line::LONGEST];
    let n = asked.argument(0, &mut text);
    informs::level_named(&text[..n]).ok_or(Refusal::UnknownLevel)
}

// The sensors of the comma list that is a line's first argument.
fn sensors_listed(sheet: Sheet, asked: Asked) -> Result<Listed, Refusal>
    requires { sheet.count ≤ 32 }
    ensures { result ≡ scans.scanned sheet (requests.listed sheet (message_of asked.entry.line.now)) }
{
    let mut text: [u8; line::LONGEST] = [0; line::LONGEST];
    let n = asked.argument(0, &mut text);
    names::scan(sheet, &text[..n])
}

// The sensors that `sensor-list` and `sensor-value` tell of: all, or those of the list.
fn sensors_told(sheet: Sheet, asked: Asked) -> Result<Listed, Refusal>
    requires { sheet.count ≤ 32 }
    ensures { result ≡ scans.scanned sheet (requests.asked_places sheet (message_of asked.entry.line.now)) }
{
    if asked.head.count == 0 {
        return Ok(names::every_place(sheet.count));
    }
    sensors_listed(sheet, asked)
}

// The strategy that a line sets for the sensors at some places.
fn setting_asked(sheet: Sheet, places: &[u8], asked: Asked) -> Result<Strategy, Refusal>
    ensures number { number_in result ≡ calls.setting_declined sheet places.now (requests.kind_asked (message_of asked.entry.line.now)) (length (message_of asked.entry.line.now).args) (drop 2 (message_of asked.entry.line.now).args) }
    ensures strategy { IfOk result (λ st. st ≡ requests.strategy_made sheet places.now (requests.kind_asked (message_of asked.entry.line.now)) (drop 2 (message_of asked.entry.line.now).args)) }
{
    let mut word: [u8; line::LONGEST] = [0; line::LONGEST];
    let mut first: [u8; line::LONGEST] = [0; line::LONGEST];
    let mut second: [u8; line::LONGEST] = [0; line::LONGEST];
    let mut third: [u8; line::LONGEST] = [0; line::LONGEST];
    let w = asked.argument(1, &mut word);
    let a = asked.argument(2, &mut first);
    let b = asked.argument(3, &mut second);
    let c = asked.argument(4, &mut third);
    strategies::read_setting(
        sheet,
        places,
        strategies::strategy_named(&word[..w]),
        asked.head.count,
        &first[..a],
        &second[..b],
        &third[..c],
    )
}

// That row alone.
fn level_row(asked: Asked) -> Result<(), Refusal>
    ensures { number_in result ≡ calls.arguments_declined states.blank_sheet Request.LogLevel (message_of asked.entry.line.now) }
{
    let _ = level_asked(asked, 0)?;
    Ok(())
}

// Rows 16 and 21: `sensor-list` and `sensor-value` of a name that no sensor has, or that stands twice.
fn told_row(sheet: Sheet, asked: Asked) -> Result<(), Refusal>
    requires { sheet.count ≤ 32 }
    ensures { number_in result ≡ calls.sensors_declined sheet (message_of asked.entry.line.now) }
{
    let _ = sensors_told(sheet, asked)?;
    Ok(())
}

// Row 15 for a list without a strategy.
fn alone_row(count: usize) -> Result<(), Refusal>
    ensures { number_in result ≡ cond (ltb 1 count) 15 0 }
{
    if 1 < count {
        return Err(Refusal::ArgumentCount);
    }
    Ok(())
}

// The rows of `sensor-sampling`, in document 01's own order.
fn sampling_row(sheet: Sheet, asked: Asked) -> Result<(), Refusal>
    requires { sheet.count ≤ 32 }
    ensures { number_in result ≡ calls.sampling_declined sheet (message_of asked.entry.line.now) }
{
    let list = sensors_listed(sheet, asked)?;
    if asked.head.count == 1 {
        return alone_row(list.count);
    }
    let _ = setting_asked(sheet, list.places(), asked)?;
    Ok(())
}

// What a request's arguments are declined for.
fn arguments_row(sheet: Sheet, request: Request, asked: Asked) -> Result<(), Refusal>
    requires { sheet.count ≤ 32 }
    ensures { number_in result ≡ calls.arguments_declined sheet request (message_of asked.entry.line.now) }
{
    match request {
        Request::Help => help_row(sheet.profile, asked),
        Request::LogLevel => level_row(asked),
        Request::SensorList | Request::SensorValue => told_row(sheet, asked),
        Request::SensorSampling => sampling_row(sheet, asked),
        _ => Ok(()),
    }
}

// The row that declines a request, 15 before those of its arguments.
fn request_row(sheet: Sheet, request: Request, asked: Asked) -> Result<(), Refusal>
    requires { sheet.count ≤ 32 }
    ensures { number_in result ≡ calls.request_declined sheet request (message_of asked.entry.line.now) }
{
    if !replies::count_fits(request, asked.head.count) {
        return Err(Refusal::ArgumentCount);
    }
    arguments_row(sheet, request, asked)
}

// An answer of a request that is carried out.
fn answered(state: State, written: usize) -> Answer
    ensures { result ≡ record { number = 0; written = written; state = state } }
{
    Answer {
        number: 0,
        written: written,
        state: state,
    }
}

// `client-list`: the addresses of the clients.
fn client_list(state: State, client: u8, asked: Asked, out: &mut [u8]) -> Answer
    ensures { effects.Gives (effects.request_effect state client Request.ClientList asked.entry.line.now) out.old result out.new }
{
    let clients = state.clients;
    let name = asked.name();
    let written = replies::client_list(out, client, name, asked.head.id, clients);
    answered(state, written)
}

// `halt` and `restart`: the reply, `#disconnect` to all, and all are forgotten.
fn end_all(
    mut state: State,
    client: u8,
    asked: Asked,
    halted: bool,
    level: u8,
    why: &[u8],
    out: &mut [u8],
) -> Answer
    ensures { effects.Gives (done (requests.end_connections state client (message_of asked.entry.line.now) why.now halted level)) out.old result out.new }
{
    let clients = state.clients;
    let name = asked.name();
    let p = message::deliver(out, 0, client, b'!', name, asked.head.id, &[b"ok"]);
    let written = informs::inform_others(out, p, clients, machine::CLIENTS, b"disconnect", why);
    state.halted = halted;
    state.level = level;
    state.clients = [machine::blank_client(); machine::CLIENTS];
    state.subscriptions = [machine::no_subscription(); machine::PAIRS];
    answered(state, written)
}

// `halt`: the flag is set, the log level is kept.
fn halt(state: State, client: u8, asked: Asked, out: &mut [u8]) -> Answer
    ensures { effects.Gives (effects.request_effect state client Request.Halt asked.entry.line.now) out.old result out.new }
{
    let level = state.level;
    let why = b"Device halting.";
    end_all(state, client, asked, true, level, why, out)
}

// `help`: the request that is named, or all.
fn help(state: State, client: u8, asked: Asked, out: &mut [u8]) -> Answer
    ensures { effects.Gives (effects.request_effect state client Request.Help asked.entry.line.now) out.old result out.new }
{
    let sheet = state.sheet;
    let mut text: [u8; line::LONGEST] = [0; line::LONGEST];
    let n = asked.argument(0, &mut text);
    let name = asked.name();
    let named = asked.head.count != 0;
    let written = replies::help(
        out,
        client,
        name,
        asked.head.id,
        sheet.profile,
        named,
        &text[..n],
    );
    answered(state, written)
}

// `log-level`: the level is set where one is named, and answered.
fn log_level(mut state: State, client: u8, asked: Asked, out: &mut [u8]) -> Answer
    requires { Ready state client Request.LogLevel asked.line.now asked.head }
    ensures { effects.Gives (effects.request_effect state client Request.LogLevel asked.entry.line.now) out.old result out.new }
{
    let level = level_asked(asked, state.level).unwrap();
    let name = asked.name();
    let written = replies::deliver_level(out, 0, client, name, asked.head.id, level);
    state.level = level;
    answered(state, written)
}

// `restart`: the flag is clear, the log level that of a fresh device.
fn restart(state: State, client: u8, asked: Asked, out: &mut [u8]) -> Answer
    ensures { effects.Gives (effects.request_effect state client Request.Restart asked.entry.line.now) out.old result out.new }
{
    let level = machine::start_level();
    let why = b"Device restarting.";
    end_all(state, client, asked, false, level, why, out)
}

// The informs of `sensor-list` on the sensors at some places, from the start of out.
// kept: three loops of this form, here and for reports and values. One with a closure is no plainer: each would hand over its whole body.
fn tell_sensors(out: &mut [u8], client: u8, id: u64, sheet: Sheet, places: &[u8]) -> usize
    requires { Each (λ j. j < 32) places.now }
    ensures { Sent (output out.old 0) (messages.all_to client (map (λ j. messages.sensor_inform id (sensor_of sheet j)) places.now)) (output out.new result) }
{
    let mut at: usize = 0;
    for place in places {
        let sensor = sheet.sensors[*place as usize];
        at = replies::deliver_sensor(out, at, client, id, sensor);
    }
    at
}

// `sensor-list`: the sensors that are asked for, and how many they are.
fn sensor_list(state: State, client: u8, asked: Asked, out: &mut [u8]) -> Answer
    requires { Ready state client Request.SensorList asked.line.now asked.head }
    ensures { effects.Gives (effects.request_effect state client Request.SensorList asked.entry.line.now) out.old result out.new }
{
    let sheet = state.sheet;
    let list = sensors_told(sheet, asked).unwrap();
    let p = tell_sensors(out, client, asked.head.id, sheet, list.places());
    let name = asked.name();
    let written = replies::deliver_count(out, p, client, name, asked.head.id, list.count);
    answered(state, written)
}

// A query: the strategy that a client has for a sensor, behind the names as they were given.
fn query(
    state: State,
    client: u8,
    name: &[u8],
    id: u64,
    names: &[u8],
    place: u8,
    out: &mut [u8],
) -> Answer
    requires { (client < 8) × (place < 32) }
    ensures { effects.Gives (effects.query_effect state client (effects.naming name.now id names.now) place) out.old result out.new }
{
    let sheet = state.sheet;
    let sensor = sheet.sensors[place as usize];
    let pair = state.subscriptions[client as usize * machine::SENSORS + place as usize];
    let strategy = pair.strategy;
    let written = replies::deliver_sampling(out, 0, client, name, id, names, sensor, strategy);
    answered(state, written)
}

// The reports of the sensors at some places.
fn tell_reports(out: &mut [u8], at: usize, client: u8, state: State, places: &[u8]) -> usize
    requires { Each (λ j. j < 32) places.now }
    ensures { Sent (output out.old at) (map (λ j. to client (messages.report_of state.sheet state j)) places.now) (output out.new result) }
{
    let sheet = state.sheet;
    let mut p = at;
    for place in places {
        let j = *place as usize;
        let sensor = sheet.sensors[j];
        let stored = state.readings[j];
        p = sampling::deliver_report(out, p, client, state.clock, sensor, stored.sample);
    }
    p
}

// The reports of a setting: none, where the strategy is none.
fn tell_set(
    out: &mut [u8],
    at: usize,
    client: u8,
    state: State,
    places: &[u8],
    strategy: Strategy,
) -> usize
    requires { Each (λ j. j < 32) places.now }
    ensures { Sent (output out.old at) (cond (is_none strategy) [] (map (λ j. to client (messages.report_of state.sheet state j)) places.now)) (output out.new result) }
{
    if machine::is_none(strategy) {
        return at;
    }
    tell_reports(out, at, client, state, places)
}

// A client's subscriptions to the sensors at some places, with a strategy set.
fn set_all(mut s: State, client: u8, places: &[u8], strategy: Strategy) -> State
    requires { (client < 8) × Each (λ j. j < 32) places.now }
    ensures { result ≡ states.with_pairs s (requests.sampled_pairs s client places.now strategy) }
{
    for place in places {
        let j = *place as usize;
        let p = client as usize * machine::SENSORS + j;
        let stored = s.readings[j];
        let pair = s.subscriptions[p];
        s.subscriptions[p] = sampling::with_strategy(s.clock, stored.sample, strategy, pair);
    }
    s
}

// A setting: the reply first, then the reports; all the listed sensors are set.
fn set(
    state: State,
    client: u8,
    name: &[u8],
    id: u64,
    names: &[u8],
    places: &[u8],
    strategy: Strategy,
    out: &mut [u8],
) -> Answer
    requires { (client < 8) × (Each (λ j. j < 32) places.now × (0 < length places.now)) }
    ensures { effects.Gives (effects.setting_effect state client (effects.naming name.now id names.now) places.now strategy) out.old result out.new }
{
    let sheet = state.sheet;
    let sensor = sheet.sensors[places[0] as usize];
    let p = replies::deliver_sampling(out, 0, client, name, id, names, sensor, strategy);
    let written = tell_set(out, p, client, state, places, strategy);
    answered(set_all(state, client, places, strategy), written)
}

// `sensor-sampling`: one name alone queries; else all the listed sensors are set.
fn sensor_sampling(state: State, client: u8, asked: Asked, out: &mut [u8]) -> Answer
    requires { Ready state client Request.SensorSampling asked.line.now asked.head }
    ensures { effects.Gives (effects.request_effect state client Request.SensorSampling asked.entry.line.now) out.old result out.new }
{
    let sheet = state.sheet;
    let name = asked.name();
    let id = asked.head.id;
    let mut text: [u8; line::LONGEST] = [0; line::LONGEST];
    let len = asked.argument(0, &mut text);
    let names = &text[..len];
    let list = names::scan(sheet, names).unwrap();
    if asked.head.count == 1 {
        return query(state, client, name, id, names, list.places[0], out);
    }
    let places = list.places();
    let strategy = setting_asked(sheet, places, asked).unwrap();
    set(state, client, name, id, names, places, strategy, out)
}

// The informs of `sensor-value` on the sensors at some places, from the start of out.
fn tell_values(out: &mut [u8], client: u8, id: u64, state: State, places: &[u8]) -> usize
    requires { Each (λ j. j < 32) places.now }
    ensures { Sent (output out.old 0) (messages.all_to client (map (messages.value_inform id state state.sheet) places.now)) (output out.new result) }
{
    let name = b"sensor-value";
    let sheet = state.sheet;
    let mut at: usize = 0;
    for place in places {
        let j = *place as usize;
        let sensor = sheet.sensors[j];
        let stored = state.readings[j];
        let sample = stored.sample;
        at = sampling::deliver_value(out, at, client, name, id, stored.time, sensor, sample);
    }
    at
}

// `sensor-value`: the readings of the sensors that are asked for, and how many they are.
fn sensor_value(state: State, client: u8, asked: Asked, out: &mut [u8]) -> Answer
    requires { Ready state client Request.SensorValue asked.line.now asked.head }
    ensures { effects.Gives (effects.request_effect state client Request.SensorValue asked.entry.line.now) out.old result out.new }
{
    let sheet = state.sheet;
    let list = sensors_told(sheet, asked).unwrap();
    let p = tell_values(out, client, asked.head.id, state, list.places());
    let name = asked.name();
    let written = replies::deliver_count(out, p, client, name, asked.head.id, list.count);
    answered(state, written)
}

// `version-list`: what a newcomer is told.
fn version_list(state: State, client: u8, asked: Asked, out: &mut [u8]) -> Answer
    ensures { effects.Gives (effects.request_effect state client Request.VersionList asked.entry.line.now) out.old result out.new }
{
    let sheet = state.sheet;
    let name = asked.name();
    let written = replies::version_list(out, client, name, asked.head.id, sheet);
    answered(state, written)
}

// `watchdog`.
fn watchdog(state: State, client: u8, asked: Asked, out: &mut [u8]) -> Answer
    ensures { effects.Gives (effects.request_effect state client Request.Watchdog asked.entry.line.now) out.old result out.new }
{
    let name = asked.name();
    let written = message::deliver(out, 0, client, b'!', name, asked.head.id, &[b"ok"]);
    answered(state, written)
}

// What a request does that no row declines.
fn carry_out(state: State, client: u8, request: Request, asked: Asked, out: &mut [u8]) -> Answer
    requires { Ready state client request asked.line.now asked.head }
    ensures { effects.Gives (effects.request_effect state client request asked.entry.line.now) out.old result out.new }
{
    match request {
        Request::ClientList => client_list(state, client, asked, out),
        Request::Halt => halt(state, client, asked, out),
        Request::Help => help(state, client, asked, out),
        Request::LogLevel => log_level(state, client, asked, out),
        Request::Restart => restart(state, client, asked, out),
        Request::SensorList => sensor_list(state, client, asked, out),
        Request::SensorSampling => sensor_sampling(state, client, asked, out),
        Request::SensorValue => sensor_value(state, client, asked, out),
        Request::VersionList => version_list(state, client, asked, out),
        Request::Watchdog => watchdog(state, client, asked, out),
    }
}

// The texts of the rows 12 to 23.
const REFUSALS: [u8; 231] =
    *b"Not a message.|Unexpected reply.|Unknown request.|Wrong number of arguments.|Unknown sensor.|Unknown strategy.|Strategy not for this type.|Bad parameter.|Shortest exceeds longest.|Sensor named twice.|Unknown level.|Unknown request.";

// The codes of a reply that refuses.
const CODES: [u8; 12] = *b"invalid|fail";

// The place of a row's code among them.
fn code_of(refusal: Refusal) -> usize
    ensures { result ≡ effects.code_place (refusal_number refusal) }
{
    match refusal {
        Refusal::UnknownSensor | Refusal::StrategyNotForType | Refusal::HelpUnknown => 1,
        _ => 0,
    }
}

// The reply of the row that declines a request.
fn deliver_refusal(out: &mut [u8], client: u8, name: &[u8], id: u64, refusal: Refusal) -> usize
    requires { (14 ≤ refusal_number refusal) × (refusal_number refusal ≤ 23) }
    ensures { Sent (output out.old 0) (to client (messages.refusal_reply (asking name.now id) (refusal_number refusal)) ∷ []) (output out.new result) }
{
    let code = texts::word_of(&CODES, code_of(refusal));
    let why = texts::word_of(&REFUSALS, refusal.number() as usize - 12);
    message::deliver(out, 0, client, b'!', name, id, &[code, why])
}

// A request that a row declines: its reply, and the state as it was.
fn refuse(state: State, client: u8, refusal: Refusal, asked: Asked, out: &mut [u8]) -> Answer
    requires { (14 ≤ refusal_number refusal) × (refusal_number refusal ≤ 23) }
    ensures { effects.Gives (effects.refused_with state client (message_of asked.entry.line.now) (refusal_number refusal)) out.old result out.new }
{
    let name = asked.name();
    let written = deliver_refusal(out, client, name, asked.head.id, refusal);
    Answer {
        number: refusal.number(),
        written: written,
        state: state,
    }
}

// A request: unknown, or declined by one of its rows, or carried out.
fn answer_request(state: State, client: u8, asked: Asked, out: &mut [u8]) -> Answer
    requires { Heard state client asked.line.now asked.head }
    ensures { effects.Gives (effects.line_effect state client (requests.asked_for (requests.request_named (message_of asked.entry.line.now).name) (message_of asked.entry.line.now))) out.old result out.new }
{
    let sheet = state.sheet;
    let name = asked.name();
    let Some(request) = replies::request_named(sheet.profile, name) else {
        return refuse(state, client, Refusal::UnknownRequest, asked, out);
    };
    if let Err(refusal) = request_row(sheet, request, asked) {
        return refuse(state, client, refusal, asked, out);
    }
    carry_out(state, client, request, asked, out)
}

// A line that is no request: an entry to its sender, at every log level.
fn complain(state: State, client: u8, refusal: Refusal, out: &mut [u8]) -> Answer
    requires { 12 ≤ refusal_number refusal }
    ensures { effects.Gives (effects.complained state client (refusal_number refusal) (messages.refusal_text (refusal_number refusal))) out.old result out.new }
{
    let why = texts::word_of(&REFUSALS, refusal.number() as usize - 12);
    let written = informs::deliver_entry(out, 0, client, 2, state.clock, b"katcp", why);
    Answer {
        number: refusal.number(),
        written: written,
        state: state,
    }
}

// A line that is not blank: no message, an inform, a reply or a request.
fn answer_line(state: State, client: u8, line: &[u8], out: &mut [u8]) -> Answer
    requires { (in_range state ≡ true) × (client < 8) }
    ensures { effects.Gives (effects.line_effect state client (requests.asked_by (parse line.now))) out.old result out.new }
{
    let Some(head) = line::read(line) else {
        return complain(state, client, Refusal::NotAMessage, out);
    };
    if head.kind == b'#' {
        return answered(state, 0);
    }
    if head.kind == b'!' {
        return complain(state, client, Refusal::UnexpectedReply, out);
    }
    let asked = Asked {
        line: line,
        head: head,
    };
    answer_request(state, client, asked, out)
}

// A client's line, for every state, client, line and output.
pub fn respond(state: State, client: usize, line: &[u8], out: &mut [u8]) -> Answer
    ensures value { result ≡ answer_of (step state (calls.call_of (calls.Line client line.now) out.old)) }
    ensures out_after { out.new ≡ output_of (step state (calls.call_of (calls.Line client line.now) out.old)) out.old }
{
    let refused = !declining::is_connected(state.clients, client);
    let own = declining::client_rows(state.sheet.profile, refused, client, Ok(()));
    let rows = declining::rows(sheet::in_range(state), out.len(), state.halted, own);
    if let Err(refusal) = rows {
        return declining::silent(refusal, state);
    }
    if line::is_blank(line) {
        return answered(state, 0);
    }
    answer_line(state, client as u8, line, out)
}
