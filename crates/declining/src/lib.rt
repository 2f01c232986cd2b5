//! What several calls are declined by, and what a declined call answers.
#![tactic(auto)]

ghost use Rattle.std.specs.Prelude.{◌≡◌, ℕ, cond, not, ltb, get_or};
ghost use Rattle.machine.specs.State as states;
ghost use Rattle.machine.specs.Refusals.{refusal_number, number_in};
ghost use Rattle.machine.specs.Declined as calls;

use machine::{Answer, Client, Refusal, State};

// What a call is declined by, or that nothing declines it: a row, a Result with one, or a row's number with 0 for none.
pub trait Reason: Copy {
    ghost told: { Self → ℕ };

    fn of(refusal: Refusal) -> Self
        ensures { told result ≡ refusal_number refusal };

    fn number(self) -> u8
        ensures { result ≡ told self };
}

impl Reason for u8 {
    ghost told = { λ n. n };

    fn of(refusal: Refusal) -> u8 {
        refusal.number()
    }

    fn number(self) -> u8 {
        self
    }
}

impl Reason for Refusal {
    ghost told = { refusal_number };

    fn of(refusal: Refusal) -> Refusal {
        refusal
    }

    fn number(self) -> u8 {
        Refusal::number(self)
    }
}

impl Reason for Result<(), Refusal> {
    ghost told = { number_in };

    fn of(refusal: Refusal) -> Result<(), Refusal> {
        Err(refusal)
    }

    fn number(self) -> u8 {
        match self {
            Ok(()) => 0,
            Err(refusal) => refusal.number(),
        }
    }
}

// The answer of a call that is declined: it counts no byte, since a refusal leaves the output, and hands back the state as it was.
pub fn silent<R: Reason>(reason: R, state: State) -> Answer
    ensures { result ≡ record { number = R.told reason; written = 0; state = state } }
{
    Answer {
        number: reason.number(),
        written: 0,
        state: state,
    }
}

// Rows 1, 2 and 3, which every call has, and then the call's own.
pub fn rows<R: Reason>(in_range: bool, room: usize, halted: bool, own: R) -> R
    ensures { R.told result ≡ cond (not in_range) 1 (cond (ltb room 65536) 2 (cond halted 3 (R.told own))) }
{
    if !in_range {
        return R::of(Refusal::StateOutOfRange);
    }
    if room < 65536 {
        return R::of(Refusal::OutputTooShort);
    }
    if halted {
        return R::of(Refusal::DeviceHalted);
    }
    own
}

// Why a client above the highest of a profile is none.
fn above_last(profile: u8) -> Refusal
    ensures { refusal_number result ≡ calls.above_last profile }
{
    if machine::is_single(profile) {
        Refusal::OneClientOnly
    } else {
        Refusal::NoSuchClient
    }
}

// Row 5, or under profile 1 row 32 in its place; row 6, and then those behind them.
pub fn client_rows<R: Reason>(profile: u8, refused: bool, client: usize, own: R) -> R
    ensures { R.told result ≡ calls.client_declined profile refused client (R.told own) }
{
    if machine::last_client(profile) < client {
        return R::of(above_last(profile));
    }
    if refused {
        return R::of(Refusal::WrongConnection);
    }
    own
}

// Whether a client of that number is connected.
pub fn is_connected(clients: [Client; machine::CLIENTS], client: usize) -> bool
    ensures { result ≡ (get_or clients client states.no_client).connected }
{
    if client < machine::CLIENTS {
        let k = clients[client];
        return k.connected;
    }
    false
}
