// Whether a state is sound on an accepted sheet.

ghost use Rattle.std.specs.Prelude.{◌≡◌, ◌&&◌, ◌<◌, eqb, ltb, get_or};
ghost use Rattle.sheet.specs.Table.{every};
ghost use Rattle.sheet.specs.Decode.{sheet_of};
ghost use Rattle.sheet.specs.Reading.{reading, sheet_layout};
ghost use Rattle.sheet.specs.Answer.{header_of};
ghost use Rattle.step.specs.Lists.{beside, rising};
ghost use Rattle.step.specs.Padding.{clear};
ghost use Rattle.monitor.specs.Sound.{call_sound};
ghost use Rattle.monitor.specs.Padded.{unpad_armed, is_zero_arms, tidy_arms, sound_state};
ghost use Rattle.monitor.specs.Walk.{tables_of, triple_at};

use crate::{Arms, WatchState};
use sheet::{Header, Triple};
use step::Call;

// The numbers of an accepted sheet's header, and where its triples begin.
#[derive(Clone, Copy)]
pub struct Tables {
    pub header: Header,
    pub triples: u16,
}

pub(crate) fn tables_of(s: &[u8], triples: u16) -> Tables
    ensures { result ≡ record { header = header_of s.now; triples = triples } }
{
    Tables {
        header: sheet::header_of(s),
        triples,
    }
}

pub(crate) fn sound(s: &[u8], t: Tables, state: WatchState) -> bool
    requires { (reading sheet_layout s.now ≡ 0) × (t ≡ tables_of s.now) }
    ensures { result ≡ sound_state (sheet_of s.now) state }
{
    let opened = usize::from(state.opened);
    if WatchState::CALLS < opened {
        return false;
    }
    let h = t.header;
    let (calls, no_calls) = state.calls.split_at(opened);
    let (arms, no_arms) = state.arms.split_at(opened);
    let calls_tidy = step::rows::kept_clear(calls, usize::from(h.programs))
        & step::rows::calls_clear(no_calls);
    let tidy = step::rows::clear_from(&state.variables, usize::from(h.monitors))
        & (calls_tidy & (arms_tidy(&state.arms) & arms_clear(no_arms)));
    let entries = step::rows::entries_sound(calls, state.position);
    let row = step::rows::numbers_distinct(calls) & (entries & calls_sound(s, t, calls, arms));
    let rest = step::outcomes::outcome_fits(
        h.bad,
        h.last,
        state.main,
        state.position,
        state.outcome,
    );
    tidy & ((state.main < h.states) & (row & rest))
}

// Whether at most four triples are armed for each call, with zeros behind them.
fn arms_tidy(arms: &[Arms]) -> bool
    ensures { result ≡ every tidy_arms arms.now }
{
    arms.iter().all(|a| is_tidy(a))
}

fn is_tidy(arms: &Arms) -> bool
    ensures { result ≡ tidy_arms arms.now }
{
    let count = usize::from(arms.count);
    (count <= WatchState::ARMED) & triples_clear(&arms.triples, count)
}

// Whether nothing is armed.
fn arms_clear(arms: &[Arms]) -> bool
    ensures { result ≡ every is_zero_arms arms.now }
{
    arms.iter()
        .all(|a| (a.count == 0) & triples_clear(&a.triples, 0))
}

// Whether all numbers from a place on are zero.
fn triples_clear(triples: &[u8], from: usize) -> bool
    ensures { result ≡ clear from triples.now }
{
    triples.iter().skip(from).all(|t| *t == 0)
}

// Whether each call is sound with what is armed for it.
fn calls_sound(s: &[u8], t: Tables, calls: &[Call], arms: &[Arms]) -> bool
    requires { (reading sheet_layout s.now ≡ 0) × (t ≡ tables_of s.now) }
    ensures { result ≡ every (call_sound (sheet_of s.now)) (beside (unpad_armed t.header.programs) calls.now arms.now) }
{
    calls.iter().zip(arms).all(|(c, a)| call_sound(s, t, c, a))
}

fn call_sound(s: &[u8], t: Tables, call: &Call, arms: &Arms) -> bool
    requires { (reading sheet_layout s.now ≡ 0) × (t ≡ tables_of s.now) }
    ensures { result ≡ call_sound (sheet_of s.now) (unpad_armed t.header.programs call.now arms.now) }
{
    let h = t.header;
    let armed = &arms.triples[..usize::from(arms.count).min(WatchState::ARMED)];
    (call.unit < h.units)
        & (rise(armed)
            & (of_unit(s, t.triples, h.last, armed, call.unit) & of_one_state(s, t.triples, armed)))
}

// Whether each number is below the next.
fn rise(numbers: &[u8]) -> bool
    ensures { result ≡ rising numbers.now }
{
    numbers.is_sorted_by(|a, b| a < b)
}

// Whether the numbers are those of triples, of a unit.
fn of_unit(s: &[u8], at: u16, n: u8, armed: &[u8], unit: u8) -> bool
    ensures { result ≡ every (λ i. ltb i n && eqb (triple_at s.now at i).unit unit) armed.now }
{
    armed
        .iter()
        .all(|i| (*i < n) & (triple(s, at, *i).unit == unit))
}

// Whether the triples of the numbers are of one state, that of the first.
fn of_one_state(s: &[u8], at: u16, armed: &[u8]) -> bool
    ensures { result ≡ every (λ i. eqb (triple_at s.now at i).state (triple_at s.now at (get_or armed.now 0 0)).state) armed.now }
{
    if armed.is_empty() {
        return true;
    }
    let state = triple(s, at, armed[0]).state;
    armed.iter().all(|i| triple(s, at, *i).state == state)
}

// The triple of a number, from the place of the first.
fn triple(s: &[u8], at: u16, i: u8) -> Triple
    ensures { result ≡ triple_at s.now at i }
{
    sheet::triple_at(s, u32::from(at) + 4 * u32::from(i))
}
