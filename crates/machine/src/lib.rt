//! The state of the unit, as document 01 has it. What the unit does with it is defined in specs/; the crates above carry it out.
#![tactic(auto)]

ghost use Rattle.std.specs.Prelude.{◌≡◌};
ghost use Rattle.machine.specs.Sheet.{single, last_client};
ghost use Rattle.machine.specs.State.{start_level, no_subscription, blank_client};
ghost use Rattle.machine.specs.Range.{is_none};
ghost use Rattle.machine.specs.Refusals.{refusal_number};

use value::{Limits, Sample};

// The most sensors of a sheet.
pub const SENSORS: usize = 32;
// The clients.
pub const CLIENTS: usize = 8;
// The subscriptions, of each client to each sensor.
pub const PAIRS: usize = CLIENTS * SENSORS;
// The most options of a sensor.
pub const OPTIONS: usize = 8;
// The most bytes of a sensor's name.
pub const NAME: usize = 32;
// Of its description.
pub const DESCRIPTION: usize = 64;
// Of its units.
pub const UNITS: usize = 8;
// Of an option.
pub const OPTION: usize = 16;
// Of the API text and of the build text.
pub const TITLE: usize = 32;
// Of a client's address.
pub const ADDRESS: usize = 48;
// The same as bytes of a sheet and of a state: sensors.
pub const MOST_SENSORS: u8 = SENSORS as u8;
// Options.
pub const MOST_OPTIONS: u8 = OPTIONS as u8;
// The length of a name.
pub const LONGEST_NAME: u8 = NAME as u8;
// Of a description.
pub const LONGEST_DESCRIPTION: u8 = DESCRIPTION as u8;
// Of units.
pub const LONGEST_UNITS: u8 = UNITS as u8;
// Of an option.
pub const LONGEST_OPTION: u8 = OPTION as u8;
// Of the API text and of the build text.
pub const LONGEST_TITLE: u8 = TITLE as u8;
// Of an address.
pub const LONGEST_ADDRESS: u8 = ADDRESS as u8;

// An option of a discrete sensor: the first `len` bytes of `text`.
// kept: here and below, a length beside its array is the layout of the State that callers lend, and the check of its range speaks of both.
#[derive(Clone, Copy)]
pub struct Choice {
    pub text: [u8; OPTION],
    pub len: u8,
}

// A sensor as the sheet has it. A text is the first `_len` bytes of its array; the type is 1 integer, 2 float, 3 boolean, 4 discrete,
// 5 timestamp; limits and options are those of the types that have them.
#[derive(Clone, Copy)]
pub struct Sensor {
    pub name: [u8; NAME],
    pub name_len: u8,
    pub description: [u8; DESCRIPTION],
    pub description_len: u8,
    pub units: [u8; UNITS],
    pub units_len: u8,
    pub kind: u8,
    pub limits: Limits,
    pub option_count: u8,
    pub options: [Choice; OPTIONS],
}

// What the unit was opened with: the texts and the first `count` sensors of its sheet, and the profile, 1 for a single client.
#[derive(Clone, Copy)]
pub struct Sheet {
    pub api: [u8; TITLE],
    pub api_len: u8,
    pub build: [u8; TITLE],
    pub build_len: u8,
    pub count: u8,
    pub profile: u8,
    pub sensors: [Sensor; SENSORS],
}

// A strategy with its parameters: periods in milliseconds, differences in millionths; shortest before longest.
#[derive(Clone, Copy)]
pub enum Strategy {
    None,
    Auto,
    Period(u64),
    Event,
    Differential(u64),
    EventRate(u64, u64),
    DifferentialRate(u64, u64, u64),
}

// What a client has asked for a sensor, and the last report it was sent, if `reported`.
#[derive(Clone, Copy)]
pub struct Subscription {
    pub strategy: Strategy,
    pub reported: bool,
    pub sample: Sample,
    pub time: u64,
}

// A sensor's reading and its own time.
#[derive(Clone, Copy)]
pub struct Stored {
    pub sample: Sample,
    pub time: u64,
}

// A client: unconnected, or with the first `address_len` bytes of its address.
#[derive(Clone, Copy)]
pub struct Client {
    pub connected: bool,
    pub address: [u8; ADDRESS],
    pub address_len: u8,
}

// The whole state. The subscription of client c to sensor j stands at place c * 32 + j.
#[derive(Clone, Copy)]
pub struct State {
    pub sheet: Sheet,
    pub clock: u64,
    pub halted: bool,
    pub level: u8,
    pub readings: [Stored; SENSORS],
    pub clients: [Client; CLIENTS],
    pub subscriptions: [Subscription; PAIRS],
}

// What opening a sheet answers.
#[derive(Clone, Copy)]
pub struct Opened {
    pub number: u8,
    pub state: State,
}

// What every other call answers: its number, how many bytes of the lent output it wrote, and the next state.
#[derive(Clone, Copy)]
pub struct Answer {
    pub number: u8,
    pub written: usize,
    pub state: State,
}

// The requests.
#[derive(Clone, Copy)]
pub enum Request {
    ClientList,
    Halt,
    Help,
    LogLevel,
    Restart,
    SensorList,
    SensorSampling,
    SensorValue,
    VersionList,
    Watchdog,
}

// Why subscriptions are visited: a tick, or a reading of a sensor.
#[derive(Clone, Copy)]
pub enum Cause {
    Tick,
    Reading(usize),
}

// Whether a profile is that of units with a single client.
pub fn is_single(profile: u8) -> bool
    ensures { result ≡ single profile }
{
    profile == 1
}

// The highest client of a profile.
pub fn last_client(profile: u8) -> usize
    ensures { result ≡ last_client profile }
{
    if is_single(profile) { 0 } else { CLIENTS - 1 }
}

// The log level of a fresh device and of a restarted one: warn.
pub fn start_level() -> u8
    ensures { result ≡ start_level }
{
    3
}

// What every client and sensor start with: no strategy and no report.
pub fn no_subscription() -> Subscription
    ensures { result ≡ no_subscription }
{
    Subscription {
        strategy: Strategy::None,
        reported: false,
        sample: Sample { kind: 0, number: 0 },
        time: 0,
    }
}

// A client that is not connected.
pub fn blank_client() -> Client
    ensures { result ≡ blank_client }
{
    Client {
        connected: false,
        address: [0; ADDRESS],
        address_len: 0,
    }
}

// Whether a strategy is none.
pub fn is_none(strategy: Strategy) -> bool
    ensures { result ≡ is_none strategy }
{
    matches!(strategy, Strategy::None)
}

// Why a call or a line is declined: the rows of document 01's table, and those that came with the change requests.
#[derive(Clone, Copy, Debug, PartialEq, Eq)]
pub enum Refusal {
    StateOutOfRange,
    OutputTooShort,
    DeviceHalted,
    NotASheet,
    NoSuchClient,
    WrongConnection,
    AddressText,
    TickTime,
    NoSuchSensor,
    ReadingUnfit,
    LogEntry,
    NotAMessage,
    UnexpectedReply,
    UnknownRequest,
    ArgumentCount,
    UnknownSensor,
    UnknownStrategy,
    StrategyNotForType,
    BadParameter,
    ShortestOverLongest,
    SensorTwice,
    UnknownLevel,
    HelpUnknown,
    ReadingAhead,
    NoSuchProfile,
    OneClientOnly,
}

impl Refusal {
    // The number of its row.
    pub fn number(self) -> u8
        ensures { result ≡ refusal_number self }
    {
        match self {
            Refusal::StateOutOfRange => 1,
            Refusal::OutputTooShort => 2,
            Refusal::DeviceHalted => 3,
            Refusal::NotASheet => 4,
            Refusal::NoSuchClient => 5,
            Refusal::WrongConnection => 6,
            Refusal::AddressText => 7,
            Refusal::TickTime => 8,
            Refusal::NoSuchSensor => 9,
            Refusal::ReadingUnfit => 10,
            Refusal::LogEntry => 11,
            Refusal::NotAMessage => 12,
            Refusal::UnexpectedReply => 13,
            Refusal::UnknownRequest => 14,
            Refusal::ArgumentCount => 15,
            Refusal::UnknownSensor => 16,
            Refusal::UnknownStrategy => 17,
            Refusal::StrategyNotForType => 18,
            Refusal::BadParameter => 19,
            Refusal::ShortestOverLongest => 20,
            Refusal::SensorTwice => 21,
            Refusal::UnknownLevel => 22,
            Refusal::HelpUnknown => 23,
            Refusal::ReadingAhead => 26,
            Refusal::NoSuchProfile => 31,
            Refusal::OneClientOnly => 32,
        }
    }
}
