// Whether a state is sound on an accepted network.

ghost use Rattle.std.specs.Prelude.{◌≡◌, map, eqb, leb, ltb, length};
ghost use Rattle.sheet.specs.Table.{every};
ghost use Rattle.sheet.specs.Decode.{network_of};
ghost use Rattle.sheet.specs.Reading.{reading, network_layout};
ghost use Rattle.sheet.specs.Answer.{header_of};
ghost use Rattle.step.specs.Lists.{keep, place_of};
ghost use Rattle.step.specs.Calls.{most_armed};
ghost use Rattle.network.specs.Sound.{never_falls};
ghost use Rattle.network.specs.Padded.{is_zero_checker, sound_state};
ghost use Rattle.network.specs.Walk.{tables_of, on_call_at, carried_in};

use crate::{Checker, NetworkState};
use sheet::Header;
use step::{ARMED, Call};

// The numbers of an accepted network's header, and where its templates begin.
#[derive(Clone, Copy)]
pub struct Tables {
    pub header: Header,
    pub templates: u16,
}

pub(crate) fn tables_of(s: &[u8], templates: u16) -> Tables
    ensures { result ≡ record { header = header_of s.now; templates = templates } }
{
    Tables {
        header: sheet::header_of(s),
        templates,
    }
}

pub(crate) fn sound(s: &[u8], t: Tables, state: NetworkState) -> bool
    requires { (reading network_layout s.now ≡ 0) × (t ≡ tables_of s.now) }
    ensures { result ≡ sound_state (network_of s.now) state }
{
    let opened = usize::from(state.opened);
    if NetworkState::CALLS < opened {
        return false;
    }
    let living = usize::from(state.living);
    if NetworkState::CHECKERS < living {
        return false;
    }
    let h = t.header;
    let (calls, no_calls) = state.calls.split_at(opened);
    let (checkers, no_checkers) = state.checkers.split_at(living);
    let calls_tidy = step::rows::kept_clear(calls, usize::from(h.programs))
        & step::rows::calls_clear(no_calls);
    let tidy = step::rows::clear_from(&state.variables, usize::from(h.monitors))
        & (calls_tidy & checkers_clear(no_checkers));
    let entries = step::rows::entries_sound(calls, state.position);
    let row = step::rows::numbers_distinct(calls) & (entries & units_below(calls, h.units));
    let bound = on_calls(s, t, calls, checkers)
        & (entries_carried(calls, checkers)
            & (four_a_call(calls, checkers) & in_order(calls, checkers)));
    let rest = step::outcomes::outcome_fits(
        h.bad,
        h.last,
        state.main,
        state.position,
        state.outcome,
    );
    tidy & ((state.main < h.states) & (row & (bound & rest)))
}

// Whether there is no checker.
fn checkers_clear(places: &[Checker]) -> bool
    ensures { result ≡ every is_zero_checker places.now }
{
    places
        .iter()
        .all(|h| (h.number == 0) & ((h.template == 0) & (h.entry == 0)))
}

// Whether the calls are of units below U.
fn units_below(calls: &[Call], units: u8) -> bool
    ensures { result ≡ every (λ c. ltb c.unit units) calls.now }
{
    calls.iter().all(|c| c.unit < units)
}

// Whether each checker is on an open call of its template's unit.
fn on_calls(s: &[u8], t: Tables, calls: &[Call], checkers: &[Checker]) -> bool
    ensures { result ≡ every (on_call_at s.now t.templates t.header.last calls.now) checkers.now }
{
    checkers.iter().all(|h| on_call(s, t, calls, h))
}

fn on_call(s: &[u8], t: Tables, calls: &[Call], checker: &Checker) -> bool
    ensures { result ≡ on_call_at s.now t.templates t.header.last calls.now checker.now }
{
    let template = sheet::template_at(s, u32::from(t.templates) + 2 * u32::from(checker.template));
    (checker.template < t.header.last) & step::call_open_for(calls, checker.number, template.unit)
}

// Whether each checker carries the position of its call's entry.
fn entries_carried(calls: &[Call], checkers: &[Checker]) -> bool
    ensures { result ≡ every (carried_in calls.now) checkers.now }
{
    checkers
        .iter()
        .all(|h| step::call_entered_at(calls, h.number, h.entry))
}

// Whether at most four of the checkers are bound to each call.
fn four_a_call(calls: &[Call], checkers: &[Checker]) -> bool
    ensures { result ≡ every (λ c. leb (length (keep (λ h. eqb h.number c.number) checkers.now)) most_armed) calls.now }
{
    calls.iter().all(|c| bound_to(checkers, c.number) <= ARMED)
}

// How many of the checkers are bound to a call.
fn bound_to(checkers: &[Checker], number: u16) -> usize
    ensures { result ≡ length (keep (λ h. eqb h.number number) checkers.now) }
{
    checkers.iter().filter(|h| h.number == number).count()
}

// Whether the calls of the checkers never stand before those of earlier checkers.
fn in_order(calls: &[Call], checkers: &[Checker]) -> bool
    ensures { result ≡ never_falls 0 (map (λ h. place_of (λ c. eqb c.number h.number) calls.now) checkers.now) }
{
    let mut last = 0;
    for h in checkers {
        let place = step::call_place(calls, h.number);
        if place < last {
            return false;
        }
        last = place;
    }
    true
}
