// What the engines on a sheet and on a network share.
#![tactic(auto)]

ghost use Rattle.std.specs.Prelude.{◌≡◌, ◌&&◌, eqb};
ghost use Rattle.step.specs.Lists.{any, place_of};

pub mod outcomes;
pub mod rows;

use refusal::Refusal;

// The most calls that are open at once, the most values of an event, and the most numbers armed for a
// call.
pub const CALLS: usize = 16;

pub const VALUES: usize = 8;

pub const ARMED: usize = 4;

// Why a verdict is complete: the bad state, the lowest failing triple, or both.
#[derive(Clone, Copy)]
pub enum Cause {
    BadState(u8),
    Triple(u8),
    Both(u8, u8),
}

// A verdict: the position of the event that completed it, its cause, and the position of the entry of
// the call that broke the triple, 0 without one.
#[derive(Clone, Copy)]
pub struct Verdict {
    pub position: u32,
    pub cause: Cause,
    pub entry: u32,
}

// What running a log answers: the verdict; or how many events there were, the main state and how
// many calls are open; or a refusal; or that of an event, and its record.
#[derive(Clone, Copy)]
pub enum RunAnswer {
    Violated(Verdict),
    Clean(u32, u8, u8),
    Refused(Refusal),
    RefusedAt(Refusal, u32),
}

// What running a log answers, and how much was evaluated in all its events.
#[derive(Clone, Copy)]
pub struct Counted {
    pub answer: RunAnswer,
    pub count: u64,
}

// What making a fresh state answers: what reading answers, and the state, all-zero where that is refused.
#[derive(Clone, Copy)]
pub struct Fresh<S> {
    pub reading: Result<(), Refusal>,
    pub state: S,
}

// What offering an event answers, how much was evaluated, and the state that comes back.
#[derive(Clone, Copy)]
pub struct Offered<S> {
    pub answer: Result<(), Refusal>,
    pub count: u32,
    pub state: S,
}

// An open call: its number, its unit, the position of its entry, and the values kept there.
#[derive(Clone, Copy)]
pub struct Call {
    pub number: u16,
    pub unit: u8,
    pub entry: u32,
    pub kept: [u32; VALUES],
}

// Where the call of a number stands, or how many there are.
pub fn call_place(calls: &[Call], number: u16) -> usize
    ensures { result ≡ place_of (λ c. eqb c.number number) calls.now }
{
    calls
        .iter()
        .position(|c| c.number == number)
        .unwrap_or(calls.len())
}

// Whether a call of a number is open for a unit.
pub fn call_open_for(calls: &[Call], number: u16, unit: u8) -> bool
    ensures { result ≡ any (λ c. eqb c.number number && eqb c.unit unit) calls.now }
{
    calls
        .iter()
        .any(|c| (c.number == number) & (c.unit == unit))
}

// Whether a call of a number that was entered at a position is there.
pub fn call_entered_at(calls: &[Call], number: u16, entry: u32) -> bool
    ensures { result ≡ any (λ c. eqb c.number number && eqb c.entry entry) calls.now }
{
    calls
        .iter()
        .any(|c| (c.number == number) & (c.entry == entry))
}
