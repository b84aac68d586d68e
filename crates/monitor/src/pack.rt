// A state as the engine's words, and back.

ghost use Rattle.std.specs.Prelude.{◌≡◌, true, ◌&&◌, ◌≤◌, ltb, length, take};
ghost use Rattle.sheet.specs.Table.{every};
ghost use Rattle.step.specs.Calls.{most_calls};
ghost use Rattle.engine.specs.Walk.{entries, words};
ghost use Rattle.monitor.specs.Packed.{running_of, call_words, unpacked};

use crate::{Arms, WatchState};
use engine::Running;
use engine::pack::Arms as Armed;

// What stands beside the calls and variables.
pub(crate) fn running(state: WatchState) -> Running
    ensures { result ≡ running_of state }
{
    Running {
        main: state.main,
        opened: state.opened,
        position: state.position,
        outcome: state.outcome,
    }
}

// The open calls in a row, each with what is armed for it.
pub(crate) fn row(state: WatchState) -> [u32; 256]
    requires { state.opened ≤ most_calls }
    ensures { (entries state.opened result ≡ call_words state) × (every (λ c. ltb c.number 65536 && ltb c.unit 256) (take state.opened state.calls) ≡ true) × (length result ≡ 256) }
{
    let mut row = [0u32; 256];
    for i in 0..usize::from(state.opened) {
        engine::pack::put(&mut row, i, state.calls[i], Armed::from(state.arms[i]));
    }
    row
}

// The state of such words, with so many values a call and so many variables.
pub(crate) fn unpack(
    run: Running,
    row: &[u32; 256],
    variables: &[u32; WatchState::VARIABLES],
    programs: usize,
    monitors: usize,
) -> WatchState
    requires { run.opened ≤ most_calls }
    ensures { result ≡ unpacked programs monitors (words run row.now variables.now) }
{
    let w = step::rows::eight(condition::front(&variables[..], monitors));
    let mut calls = [step::rows::no_call(); WatchState::CALLS];
    let mut arms = [Arms {
        count: 0,
        triples: [0; WatchState::ARMED],
    }; WatchState::CALLS];
    for i in 0..usize::from(run.opened) {
        calls[i] = engine::pack::call_at(row, i, programs);
        arms[i] = Arms::from(engine::pack::arms_at(row, i));
    }
    WatchState {
        main: run.main,
        variables: [w[0], w[1], w[2], w[3]],
        opened: run.opened,
        calls,
        arms,
        position: run.position,
        outcome: run.outcome,
    }
}

// What is armed for a call, by the engine's name and by this one.
impl From<Arms> for Armed {
    ghost use Rattle.monitor.specs.Packed.{to_numbers};

    ghost from_gives = { λ arms armed. armed ≡ to_numbers arms };

    fn from(arms: Arms) -> Armed {
        let numbers = arms.triples;
        Armed {
            count: arms.count,
            numbers,
        }
    }
}

impl From<Armed> for Arms {
    ghost use Rattle.monitor.specs.Packed.{to_triples};

    ghost from_gives = { λ armed arms. arms ≡ to_triples armed };

    fn from(armed: Armed) -> Arms {
        let triples = armed.numbers;
        Arms {
            count: armed.count,
            triples,
        }
    }
}
