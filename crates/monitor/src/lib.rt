// The engine on a sheet: its state, one event, a log.
#![tactic(auto)]

ghost use Rattle.std.specs.Prelude.{◌≡◌};
ghost use Rattle.monitor.specs.Answers.{offer_of, run_of, count_of, run_count_of};
ghost use Rattle.monitor.specs.Padded.{zero_state, pad, fresh_of};
ghost use Rattle.monitor.specs.Monitor.{fresh};
ghost use Rattle.sheet.specs.Decode.{sheet_of};
ghost use Rattle.sheet.specs.Reading.{reading, sheet_layout};
ghost use Rattle.sheet.specs.Answer.{reading_paper, answer};
ghost use Rattle.step.specs.Calls.{event_of};
ghost use Rattle.step.specs.Answers.{answer_paper, answer_of, run_paper};

use refusal::Refusal;
use sheet::Record;
use step::{Call, Counted, Fresh, Offered, Verdict};

mod accepted;
mod pack;
mod sound;

// The triples armed for an open call: the first `count` of four numbers.
#[derive(Clone, Copy)]
pub struct Arms {
    pub count: u8,
    pub triples: [u8; WatchState::ARMED],
}

// A state of the monitor. The first `opened` calls are open, with what is armed for each beside it.
#[derive(Clone, Copy)]
pub struct WatchState {
    pub main: u8,
    pub variables: [u32; WatchState::VARIABLES],
    pub opened: u8,
    pub calls: [Call; WatchState::CALLS],
    pub arms: [Arms; WatchState::CALLS],
    pub position: u32,
    pub outcome: Option<Verdict>,
}

impl WatchState {
    pub const CALLS: usize = step::CALLS;

    pub const ARMED: usize = step::ARMED;

    pub const VARIABLES: usize = condition::VARIABLES;

    pub const VALUES: usize = step::VALUES;

    // The state all of whose fields are zero, with no verdict.
    pub fn zero() -> WatchState
        ensures { result ≡ zero_state }
    {
        WatchState {
            main: 0,
            variables: [0; WatchState::VARIABLES],
            opened: 0,
            calls: [Call {
                number: 0,
                unit: 0,
                entry: 0,
                kept: [0; WatchState::VALUES],
            }; WatchState::CALLS],
            arms: [Arms {
                count: 0,
                triples: [0; WatchState::ARMED],
            }; WatchState::CALLS],
            position: 0,
            outcome: None,
        }
    }

    // The state before the first event of a log: the start state, the initial values, no calls.
    pub fn fresh(s: &[u8]) -> Fresh<WatchState>
        ensures reading_value { reading_paper result.reading ≡ answer (reading sheet_layout s.now) }
        ensures state_value { result.state ≡ fresh_of s.now }
    {
        match sheet::read_sheet(s) {
            Ok(()) => Fresh {
                reading: Ok(()),
                state: WatchState::started(s),
            },
            Err(reason) => Fresh {
                reading: Err(reason),
                state: WatchState::zero(),
            },
        }
    }

    // The state that the header and the initial values give.
    fn started(s: &[u8]) -> WatchState
        ensures { result ≡ pad (fresh (sheet_of s.now)) }
    {
        let h = sheet::header_of(s);
        let w = sheet::words_at(s, 14, h.monitors);
        let mut state = WatchState::zero();
        state.main = h.start;
        state.variables = [w[0], w[1], w[2], w[3]];
        state
    }
}

// Offers one event to a state on a sheet: the reading refusals, 9 to 15, or taken. A refused event
// leaves the state as it was.
pub fn offer(s: &[u8], state: WatchState, event: Record, values: &[u32]) -> Offered<WatchState>
    ensures answer_value { answer_paper result.answer ≡ answer_of (offer_of s.now state (event_of event values.now)).answer }
    ensures state_value { result.state ≡ (offer_of s.now state (event_of event values.now)).state }
    ensures count_value { result.count ≡ count_of s.now state (event_of event values.now) }
{
    let mut plan = [engine::ABSENT; engine::PLAN];
    match engine::prepare_sheet(s, &mut plan) {
        Ok(()) => accepted::offer_accepted(s, &plan, state, event, values),
        Err(reason) => Offered {
            answer: Err(reason),
            count: 0,
            state,
        },
    }
}

// Runs a log from the fresh state of a sheet.
pub fn run(s: &[u8], log: &[u8]) -> Counted
    ensures { (run_paper result.answer ≡ run_of s.now log.now) × (result.count ≡ run_count_of s.now log.now) }
{
    engine::run_sheet(s, log)
}
