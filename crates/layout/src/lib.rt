//! The layout of a sheet (document 01, "Sheet"): its bytes are read from their start on, part by part, into the machine's Sheet. A part is
//! answered with the bytes that follow it. The rules that the parts keep are not asked here.
#![tactic(auto)]

ghost use Rattle.std.specs.Prelude.{◌≡◌, ◌≤◌, eqb, length, IfSome, List, ℕ, MatchOption};
ghost use Rattle.machine.specs.State.{blank_choice, blank_sensor, blank_sheet};
ghost use Rattle.machine.specs.Opening as opening;
ghost use Rattle.machine.specs.Opening.{Taken, broken, taken};
ghost use Rattle.layout.specs.Read as reads;

use machine::{Choice, Sensor, Sheet};
use value::Limits;

fn blank_choice() -> Choice
    ensures { result ≡ blank_choice }
{
    Choice {
        text: [0; machine::OPTION],
        len: 0,
    }
}

fn blank_sensor() -> Sensor
    ensures { result ≡ blank_sensor }
{
    Sensor {
        name: [0; machine::NAME],
        name_len: 0,
        description: [0; machine::DESCRIPTION],
        description_len: 0,
        units: [0; machine::UNITS],
        units_len: 0,
        kind: 0,
        limits: value::NO_LIMITS,
        option_count: 0,
        options: [blank_choice(); machine::OPTIONS],
    }
}

// A sheet of no sensors and empty texts.
pub fn blank_sheet() -> Sheet
    ensures { result ≡ blank_sheet }
{
    Sheet {
        api: [0; machine::TITLE],
        api_len: 0,
        build: [0; machine::TITLE],
        build_len: 0,
        count: 0,
        profile: 0,
        sensors: [blank_sensor(); machine::SENSORS],
    }
}

// A part that a sheet has several of, one behind another.
trait Part: Copy {
    ghost part_at: { List ℕ → Taken Self };

    fn at(s: &[u8]) -> Option<(Self, &[u8])>
        ensures { reads.read result ≡ part_at s.now };
}

impl Part for Choice {
    ghost part_at = { opening.choice_at };

    fn at(s: &[u8]) -> Option<(Choice, &[u8])> {
        choice_at(s)
    }
}

impl Part for Sensor {
    ghost part_at = { opening.sensor_at };

    fn at(s: &[u8]) -> Option<(Sensor, &[u8])> {
        sensor_at(s)
    }
}

// As many parts as there is room for, and the bytes behind them.
fn parts_at<'a, T: Part>(s: &'a [u8], parts: &mut [T]) -> Option<&'a [u8]>
    ensures { MatchOption result (opening.many_at T.part_at (length parts.old) s.now ≡ broken) (λ rest. opening.many_at T.part_at (length parts.old) s.now ≡ taken parts.new rest.now) }
{
    let mut rest = s;
    for k in 0..parts.len() {
        let (part, behind) = T::at(rest)?;
        parts[k] = part;
        rest = behind;
    }
    Some(rest)
}

// A byte.
fn byte_at(s: &[u8]) -> Option<(u8, &[u8])>
    ensures { reads.read result ≡ opening.byte_at s.now }
{
    let (b, rest) = s.split_first()?;
    Some((*b, rest))
}

// A length byte, and so many bytes.
#[tactic(auto, unfolding(machine::specs::Opening::text_at, machine::specs::Opening::bytes_at))]
fn text_at(s: &[u8], most: u8) -> Option<(&[u8], &[u8])>
    ensures text { reads.read_text result ≡ opening.text_at most s.now }
    ensures room { IfSome result (λ x. length x.0.now ≤ most) }
{
    let (n, rest) = byte_at(s)?;
    if most < n {
        return None;
    }
    rest.split_at_checked(n as usize)
}

// A text in an array.
fn padded<const N: usize>(t: &[u8]) -> [u8; N]
    requires { length t.now ≤ N }
    ensures { result ≡ opening.padded N t.now }
{
    let mut array = [0u8; N];
    array[..t.len()].copy_from_slice(t);
    array
}

// Whether a type's limits are integers, and not counts of 1024ths.
fn is_integer(kind: u8) -> bool
    ensures { result ≡ eqb kind 1 }
{
    match kind {
        1 => true,
        2 => false,
        3 => false,
        4 => false,
        5 => false,
        _ => false,
    }
}

// A limit of a sensor of type `kind`: an integer, or a count of 1024ths.
#[tactic(auto, unfolding(machine::specs::Opening::limit_at, machine::specs::Opening::bytes_at))]
fn limit_at(s: &[u8], kind: u8) -> Option<(u64, &[u8])>
    ensures { reads.read result ≡ opening.limit_at kind s.now }
{
    let (word, rest) = s.split_first_chunk::<4>()?;
    if is_integer(kind) {
        return Some((value::biased_word(*word), rest));
    }
    let n = value::grid_word(*word)?;
    Some((n as u64, rest))
}

#[tactic(auto, unfolding(machine::specs::Opening::two_at))]
fn two_at(s: &[u8], kind: u8) -> Option<(Limits, &[u8])>
    ensures { reads.read result ≡ opening.two_at kind s.now }
{
    let (least, rest) = limit_at(s, kind)?;
    let (most, rest) = limit_at(rest, kind)?;
    let limits = Limits {
        count: 2,
        nominal_min: least,
        nominal_max: most,
        warn_min: 0,
        warn_max: 0,
    };
    Some((limits, rest))
}

// Twice two.
#[tactic(auto, unfolding(machine::specs::Opening::four_at, machine::specs::Opening::two_at))]
fn four_at(s: &[u8], kind: u8) -> Option<(Limits, &[u8])>
    ensures { reads.read result ≡ opening.four_at kind s.now }
{
    let (nominal, rest) = two_at(s, kind)?;
    let (warn, rest) = two_at(rest, kind)?;
    let limits = Limits {
        count: 4,
        nominal_min: nominal.nominal_min,
        nominal_max: nominal.nominal_max,
        warn_min: warn.nominal_min,
        warn_max: warn.nominal_max,
    };
    Some((limits, rest))
}

// A byte 0, 2 or 4, and so many limits.
#[tactic(auto, unfolding(machine::specs::Opening::limits_at))]
fn limits_at(s: &[u8], kind: u8) -> Option<(Limits, &[u8])>
    ensures { reads.read result ≡ opening.limits_at kind s.now }
{
    let (n, rest) = byte_at(s)?;
    match n {
        0 => Some((value::NO_LIMITS, rest)),
        2 => two_at(rest, kind),
        4 => four_at(rest, kind),
        _ => None,
    }
}

#[tactic(auto, unfolding(machine::specs::Opening::choice_at))]
fn choice_at(s: &[u8]) -> Option<(Choice, &[u8])>
    ensures { reads.read result ≡ opening.choice_at s.now }
{
    let (text, rest) = text_at(s, machine::LONGEST_OPTION)?;
    let choice = Choice {
        text: padded(text),
        len: text.len() as u8,
    };
    Some((choice, rest))
}

// An option count, and the sensor with so many options.
#[tactic(auto, unfolding(machine::specs::Opening::options_at))]
fn options_at(s: &[u8], sensor: Sensor) -> Option<(Sensor, &[u8])>
    ensures { reads.read result ≡ reads.taken_options sensor (opening.options_at s.now) }
{
    let (count, rest) = byte_at(s)?;
    if machine::MOST_OPTIONS < count {
        return None;
    }
    let mut options = [blank_choice(); machine::OPTIONS];
    let rest = parts_at(rest, &mut options[..count as usize])?;
    let whole = Sensor {
        option_count: count,
        options: options,
        ..sensor
    };
    Some((whole, rest))
}

// The texts and the type of a sensor.
#[tactic(auto, unfolding(machine::specs::Opening::head_at))]
fn head_at(s: &[u8]) -> Option<(Sensor, &[u8])>
    ensures { reads.read result ≡ opening.head_at s.now }
{
    let (name, rest) = text_at(s, machine::LONGEST_NAME)?;
    let (description, rest) = text_at(rest, machine::LONGEST_DESCRIPTION)?;
    let (units, rest) = text_at(rest, machine::LONGEST_UNITS)?;
    let (kind, rest) = byte_at(rest)?;
    let sensor = Sensor {
        name: padded(name),
        name_len: name.len() as u8,
        description: padded(description),
        description_len: description.len() as u8,
        units: padded(units),
        units_len: units.len() as u8,
        kind: kind,
        limits: value::NO_LIMITS,
        option_count: 0,
        options: [blank_choice(); machine::OPTIONS],
    };
    Some((sensor, rest))
}

// The sensor with its limits.
fn limited(s: &[u8], sensor: Sensor) -> Option<(Sensor, &[u8])>
    ensures { reads.read result ≡ reads.taken_limits sensor (opening.limits_at sensor.kind s.now) }
{
    let (limits, rest) = limits_at(s, sensor.kind)?;
    let whole = Sensor {
        limits: limits,
        ..sensor
    };
    Some((whole, rest))
}

// What follows the type.
#[tactic(auto, unfolding(machine::specs::Opening::rest_at))]
fn rest_at(s: &[u8], sensor: Sensor) -> Option<(Sensor, &[u8])>
    ensures { reads.read result ≡ opening.rest_at sensor s.now }
{
    match sensor.kind {
        1 => limited(s, sensor),
        2 => limited(s, sensor),
        3 => Some((sensor, s)),
        4 => options_at(s, sensor),
        5 => Some((sensor, s)),
        _ => None,
    }
}

#[tactic(auto, unfolding(machine::specs::Opening::sensor_at))]
fn sensor_at(s: &[u8]) -> Option<(Sensor, &[u8])>
    ensures { reads.read result ≡ opening.sensor_at s.now }
{
    let (sensor, rest) = head_at(s)?;
    rest_at(rest, sensor)
}

// The texts of the sheet, its sensor count and its sensors.
#[tactic(auto, unfolding(machine::specs::Opening::body_at))]
fn body_at(s: &[u8]) -> Option<(Sheet, &[u8])>
    ensures { reads.read result ≡ opening.body_at s.now }
{
    let (api, rest) = text_at(s, machine::LONGEST_TITLE)?;
    let (build, rest) = text_at(rest, machine::LONGEST_TITLE)?;
    let (count, rest) = byte_at(rest)?;
    if machine::MOST_SENSORS < count {
        return None;
    }
    let mut sensors = [blank_sensor(); machine::SENSORS];
    let rest = parts_at(rest, &mut sensors[..count as usize])?;
    let sheet = Sheet {
        api: padded(api),
        api_len: api.len() as u8,
        build: padded(build),
        build_len: build.len() as u8,
        count: count,
        profile: 0,
        sensors: sensors,
    };
    Some((sheet, rest))
}

// The sheet that bytes hold from their start on, and the bytes behind it.
#[tactic(auto, unfolding(machine::specs::Opening::sheet_at, machine::specs::Opening::bytes_at))]
pub fn sheet_at(s: &[u8]) -> Option<(Sheet, &[u8])>
    ensures { reads.read result ≡ opening.sheet_at s.now }
{
    let rest = s.strip_prefix(b"LGU\0\x01")?;
    body_at(rest)
}
