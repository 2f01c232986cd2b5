//! Strategies: their words, how they are written with their parameters, and how a request's are read.
#![tactic(auto)]

ghost use Rattle.std.specs.Prelude.{◌≡◌, cond, not, [], ◌∷◌, eqb, get_or, IfOk};
ghost use Rattle.output.specs.Number.{time};
ghost use Rattle.output.specs.Output.{output, Wrote};
ghost use Rattle.message.specs.Message.{arg, args_text};
ghost use Rattle.value.specs.Reading.{is_measured};
ghost use Rattle.value.specs.Parameter.{integer_difference_of, float_difference_of};
ghost use Rattle.machine.specs.Places.{any};
ghost use Rattle.machine.specs.Sheet.{sensor_of};
ghost use Rattle.machine.specs.Messages as messages;
ghost use Rattle.machine.specs.Requests as requests;
ghost use Rattle.machine.specs.Declined as calls;
ghost use Rattle.machine.specs.Refusals.{number_in};
ghost use Rattle.strategies.specs.Settings as settings;

use machine::{Refusal, Sensor, Sheet, Strategy};
use output::Notation;

// The words of the strategies, none first.
const STRATEGIES: [u8; 64] = *b"none|auto|period|event|differential|event-rate|differential-rate";

// A strategy without its parameters, as its word names it.
#[derive(Clone, Copy, Debug, PartialEq, Eq)]
pub enum Kind {
    None,
    Auto,
    Period,
    Event,
    Differential,
    EventRate,
    DifferentialRate,
}

// The kinds in the order of their words.
const KINDS: [Kind; 7] = [
    Kind::None,
    Kind::Auto,
    Kind::Period,
    Kind::Event,
    Kind::Differential,
    Kind::EventRate,
    Kind::DifferentialRate,
];

// The strategy that a word names.
pub fn strategy_named(word: &[u8]) -> Option<Kind>
    ensures { settings.word_place result ≡ requests.strategy_named word.now }
{
    let place = texts::place_of(&STRATEGIES, word)?;
    KINDS.get(place).copied()
}

// The kind of a strategy.
fn kind_of(strategy: Strategy) -> Kind
    ensures { settings.kind_number result ≡ messages.strategy_kind strategy }
{
    match strategy {
        Strategy::None => Kind::None,
        Strategy::Auto => Kind::Auto,
        Strategy::Period(_) => Kind::Period,
        Strategy::Event => Kind::Event,
        Strategy::Differential(_) => Kind::Differential,
        Strategy::EventRate(_, _) => Kind::EventRate,
        Strategy::DifferentialRate(_, _, _) => Kind::DifferentialRate,
    }
}

// The place of its word.
fn place(kind: Kind) -> usize
    ensures { result ≡ settings.kind_number kind }
{
    kind as usize
}

// The word of a kind as an argument.
fn put_arg_word(out: &mut [u8], at: usize, kind: Kind) -> usize
    ensures { Wrote (output out.old at) (arg (messages.strategy_text (settings.kind_number kind))) (output out.new result) }
{
    message::put_arg(out, at, texts::word_of(&STRATEGIES, place(kind)))
}

// A difference as it is written for a sensor.
#[tactic(auto, unfolding(machine::specs::Messages::difference_text))]
fn put_arg_difference(out: &mut [u8], at: usize, sensor: Sensor, difference: u64) -> usize
    ensures { Wrote (output out.old at) (arg (messages.difference_text sensor difference)) (output out.new result) }
{
    let kind = sensor.kind;
    match kind {
        1 => message::put_arg_number(out, at, Notation::WholeDifference, difference),
        2 => message::put_arg_number(out, at, Notation::Difference, difference),
        3 => message::put_arg_number(out, at, Notation::Difference, difference),
        4 => message::put_arg_number(out, at, Notation::Difference, difference),
        5 => message::put_arg_number(out, at, Notation::Difference, difference),
        _ => message::put_arg_number(out, at, Notation::Difference, difference),
    }
}

// Two periods.
fn put_args_rate(out: &mut [u8], at: usize, shortest: u64, longest: u64) -> usize
    ensures { Wrote (output out.old at) (args_text (time shortest ∷ time longest ∷ []) []) (output out.new result) }
{
    let p = message::put_arg_number(out, at, Notation::Time, shortest);
    message::put_arg_number(out, p, Notation::Time, longest)
}

// A difference and two periods.
fn put_args_difference_rate(
    out: &mut [u8],
    at: usize,
    sensor: Sensor,
    difference: u64,
    shortest: u64,
    longest: u64,
) -> usize
    ensures { Wrote (output out.old at) (args_text (messages.difference_text sensor difference ∷ time shortest ∷ time longest ∷ []) []) (output out.new result) }
{
    let p = put_arg_difference(out, at, sensor, difference);
    put_args_rate(out, p, shortest, longest)
}

// The parameters of a strategy as they are written for a sensor.
fn put_args_parameters(out: &mut [u8], at: usize, sensor: Sensor, strategy: Strategy) -> usize
    ensures { Wrote (output out.old at) (args_text (messages.parameter_texts sensor strategy) []) (output out.new result) }
{
    match strategy {
        Strategy::None => at,
        Strategy::Auto => at,
        Strategy::Period(period) => message::put_arg_number(out, at, Notation::Time, period),
        Strategy::Event => at,
        Strategy::Differential(difference) => put_arg_difference(out, at, sensor, difference),
        Strategy::EventRate(shortest, longest) => put_args_rate(out, at, shortest, longest),
        Strategy::DifferentialRate(difference, shortest, longest) => {
            put_args_difference_rate(out, at, sensor, difference, shortest, longest)
        }
    }
}

// A strategy's word and its parameters.
pub fn put_args_strategy(out: &mut [u8], at: usize, sensor: Sensor, strategy: Strategy) -> usize
    ensures { Wrote (output out.old at) (args_text (messages.strategy_text (messages.strategy_kind strategy) ∷ messages.parameter_texts sensor strategy) []) (output out.new result) }
{
    let p = put_arg_word(out, at, kind_of(strategy));
    put_args_parameters(out, p, sensor, strategy)
}

// How many parameters a strategy has.
fn parameter_count(kind: Kind) -> usize
    ensures { result ≡ requests.parameter_count (settings.kind_number kind) }
{
    match kind {
        Kind::None | Kind::Auto | Kind::Event => 0,
        Kind::Period | Kind::Differential => 1,
        Kind::EventRate => 2,
        Kind::DifferentialRate => 3,
    }
}

// Whether a strategy reports by a difference.
fn is_by_difference(kind: Kind) -> bool
    ensures { result ≡ requests.by_difference (settings.kind_number kind) }
{
    matches!(kind, Kind::Differential | Kind::DifferentialRate)
}

// The type of the sensor at a place; 0 past the places of a State.
fn type_at(sheet: &Sheet, j: u8) -> u8
    ensures { result ≡ (sensor_of sheet.now j).kind }
{
    sheet
        .sensors
        .get(j as usize)
        .map_or(0, |sensor| sensor.kind)
}

// Whether one of the sensors at some places is not measured.
fn is_unmeasured(sheet: &Sheet, places: &[u8]) -> bool
    ensures { result ≡ any (λ j. not (is_measured (sensor_of sheet.now j).kind)) places.now }
{
    places
        .iter()
        .any(|j| !value::is_measured(type_at(sheet, *j)))
}

// A difference for a sensor of that type.
fn difference_for(kind: u8, text: &[u8]) -> Option<u64>
    ensures { result ≡ cond (eqb kind 1) (integer_difference_of text.now) (float_difference_of text.now) }
{
    match kind {
        1 => value::read_integer_difference(text),
        2 => value::read_float_difference(text),
        3 => value::read_float_difference(text),
        4 => value::read_float_difference(text),
        5 => value::read_float_difference(text),
        _ => value::read_float_difference(text),
    }
}

// Whether a difference does not suit one of the sensors at some places.
fn is_unsuited(sheet: &Sheet, places: &[u8], text: &[u8]) -> bool
    ensures { result ≡ any (λ j. requests.is_bad (requests.difference_for (sensor_of sheet.now j) text.now)) places.now }
{
    places
        .iter()
        .any(|j| difference_for(type_at(sheet, *j), text).is_none())
}

// A difference for the sensors at some places: it must suit each, and is that of the first.
fn difference_of(sheet: &Sheet, places: &[u8], text: &[u8]) -> Option<u64>
    ensures { result ≡ requests.difference_of sheet.now places.now text.now }
{
    if is_unsuited(sheet, places, text) {
        return None;
    }
    let first = places.first().copied().unwrap_or(0);
    difference_for(type_at(sheet, first), text)
}

// The strategy of a kind, for the sensors at some places, from the texts of its parameters, where each can be read.
fn make(sheet: &Sheet, places: &[u8], kind: Kind, a: &[u8], b: &[u8], c: &[u8]) -> Option<Strategy>
    ensures { result ≡ settings.made (settings.kind_number kind) (requests.parameters_of sheet.now places.now (settings.kind_number kind) (a.now ∷ b.now ∷ c.now ∷ [])) }
{
    let strategy = match kind {
        Kind::None => Strategy::None,
        Kind::Auto => Strategy::Auto,
        Kind::Period => Strategy::Period(value::read_period(a)?),
        Kind::Event => Strategy::Event,
        Kind::Differential => Strategy::Differential(difference_of(sheet, places, a)?),
        Kind::EventRate => Strategy::EventRate(value::read_shortest(a)?, value::read_period(b)?),
        Kind::DifferentialRate => Strategy::DifferentialRate(
            difference_of(sheet, places, a)?,
            value::read_shortest(b)?,
            value::read_period(c)?,
        ),
    };
    Some(strategy)
}

// Whether the shortest period of a strategy is over its longest.
fn is_reversed(strategy: Strategy) -> bool
    ensures { result ≡ requests.shortest_over_longest strategy }
{
    match strategy {
        Strategy::EventRate(shortest, longest) => longest < shortest,
        Strategy::DifferentialRate(_, shortest, longest) => longest < shortest,
        _ => false,
    }
}

// What a request of `count` arguments sets for the sensors at some places: the strategy that its word names, if it names one, with the texts of
// the parameters, empty where there are none.
pub fn read_setting(
    sheet: Sheet,
    places: &[u8],
    named: Option<Kind>,
    count: usize,
    a: &[u8],
    b: &[u8],
    c: &[u8],
) -> Result<Strategy, Refusal>
    ensures number { number_in result ≡ calls.setting_declined sheet places.now (settings.word_place named) count (a.now ∷ b.now ∷ c.now ∷ []) }
    ensures strategy { IfOk result (λ st. st ≡ requests.strategy_made sheet places.now (settings.word_place named) (a.now ∷ b.now ∷ c.now ∷ [])) }
{
    let Some(kind) = named else {
        return Err(Refusal::UnknownStrategy);
    };
    if count != 2 + parameter_count(kind) {
        return Err(Refusal::ArgumentCount);
    }
    if is_by_difference(kind) & is_unmeasured(&sheet, places) {
        return Err(Refusal::StrategyNotForType);
    }
    let Some(strategy) = make(&sheet, places, kind, a, b, c) else {
        return Err(Refusal::BadParameter);
    };
    if is_reversed(strategy) {
        return Err(Refusal::ShortestOverLongest);
    }
    Ok(strategy)
}
