// A state as the engine's words, and back.

ghost use Rattle.std.specs.Prelude.{◌≡◌, true, ◌&&◌, map, ◌+◌, ◌≤◌, ltb, length, take};
ghost use Rattle.std.proofs.lemmas.List.Edits.{sets};
ghost use Rattle.sheet.specs.Table.{every};
ghost use Rattle.step.specs.Calls.{most_calls, most_armed};
ghost use Rattle.engine.specs.Walk.{entries, words};
ghost use Rattle.network.specs.Grouped.{checker};
ghost use Rattle.network.specs.Padded.{most_checkers};
ghost use Rattle.network.specs.Packed.{running_of, arms_of, own_of, call_words, unpacked};

use crate::{Checker, NetworkState};
use engine::Running;
use engine::pack::Arms;
use step::ARMED;

// What stands beside the calls, checkers and variables.
pub(crate) fn running(state: NetworkState) -> Running
    ensures { result ≡ running_of state }
{
    Running {
        main: state.main,
        opened: state.opened,
        position: state.position,
        outcome: state.outcome,
    }
}

// The open calls in a row, each with the templates of its checkers. These stand in their calls' order:
// those of a call begin where those of the call before it end.
pub(crate) fn row(state: NetworkState) -> [u32; 256]
    requires { (state.opened ≤ most_calls) × (state.living ≤ most_checkers) }
    ensures { (entries state.opened result ≡ call_words state) × (every (λ c. ltb c.number 65536 && ltb c.unit 256) (take state.opened state.calls) ≡ true) × (length result ≡ 256) }
{
    let opened = usize::from(state.opened);
    let mut checkers = &state.checkers[..usize::from(state.living)];
    let mut row = [0u32; 256];
    for i in 0..opened {
        let call = state.calls[i];
        let arms = bound_first(checkers, call.number);
        engine::pack::put(&mut row, i, call, arms);
        checkers = &checkers[usize::from(arms.count)..];
    }
    row
}

// The templates of the checkers that a row begins with, up to the first that is not bound to a call: at
// most four.
fn bound_first(checkers: &[Checker], number: u16) -> Arms
    ensures { result ≡ arms_of (own_of number checkers.now) }
{
    let count = checkers
        .iter()
        .take(ARMED)
        .take_while(|h| h.number == number)
        .count();
    let mut numbers = [0u8; ARMED];
    for i in 0..count {
        numbers[i] = checkers[i].template;
    }
    Arms {
        count: count as u8,
        numbers,
    }
}

// The state of such words, with so many values a call and so many variables.
pub(crate) fn unpack(
    run: Running,
    row: &[u32; 256],
    variables: &[u32; NetworkState::VARIABLES],
    programs: usize,
    monitors: usize,
) -> NetworkState
    requires { run.opened ≤ most_calls }
    ensures { result ≡ unpacked programs monitors (words run row.now variables.now) }
{
    let opened = usize::from(run.opened);
    let w = step::rows::eight(condition::front(&variables[..], monitors));
    let mut calls = [step::rows::no_call(); NetworkState::CALLS];
    let mut checkers = [Checker {
        number: 0,
        template: 0,
        entry: 0,
    }; NetworkState::CHECKERS];
    let mut living = 0;
    for i in 0..opened {
        let call = engine::pack::call_at(row, i, programs);
        let arms = engine::pack::arms_at(row, i);
        living = append(&mut checkers, living, call.number, call.entry, arms);
        calls[i] = call;
    }
    NetworkState {
        main: run.main,
        variables: [w[0], w[1], w[2], w[3]],
        opened: run.opened,
        calls,
        living: living as u8,
        checkers,
        position: run.position,
        outcome: run.outcome,
    }
}

// A checker of a call for each armed template, behind the first `living`.
fn append(
    checkers: &mut [Checker; NetworkState::CHECKERS],
    living: usize,
    number: u16,
    entry: u32,
    arms: Arms,
) -> usize
    requires { (living + most_armed ≤ most_checkers) × (arms.count ≤ most_armed) }
    ensures { (checkers.new ≡ sets checkers.old living (map (checker number entry) (take arms.count arms.numbers))) × (result ≡ living + length (take arms.count arms.numbers)) }
{
    let count = usize::from(arms.count);
    for i in 0..count {
        checkers[living + i] = Checker {
            number,
            template: arms.numbers[i],
            entry,
        };
    }
    living + count
}
