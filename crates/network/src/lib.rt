// The engine on a network: its state, one event, a log.
#![tactic(auto)]

ghost use Rattle.std.specs.Prelude.{◌≡◌};
ghost use Rattle.sheet.specs.Decode.{network_of};
ghost use Rattle.sheet.specs.Reading.{reading, network_layout};
ghost use Rattle.sheet.specs.Answer.{reading_paper, answer};
ghost use Rattle.step.specs.Calls.{event_of};
ghost use Rattle.step.specs.Answers.{answer_paper, answer_of, run_paper};
ghost use Rattle.network.specs.Answers.{offer_of, run_of, count_of, run_count_of, entry_values};
ghost use Rattle.network.specs.Network.{fresh};
ghost use Rattle.network.specs.Padded.{zero_state, pad, fresh_of};

use refusal::Refusal;
use sheet::Record;
use step::{Call, Counted, Fresh, Offered, Verdict};

mod accepted;
mod entry;
mod pack;
mod sound;

// A living checker: the number of the open call that it is bound to, its template, and the position of
// the call's entry.
#[derive(Clone, Copy)]
pub struct Checker {
    pub number: u16,
    pub template: u8,
    pub entry: u32,
}

// A state of the network. The first `opened` calls are open, the first `living` checkers live.
#[derive(Clone, Copy)]
pub struct NetworkState {
    pub main: u8,
    pub variables: [u32; NetworkState::VARIABLES],
    pub opened: u8,
    pub calls: [Call; NetworkState::CALLS],
    pub living: u8,
    pub checkers: [Checker; NetworkState::CHECKERS],
    pub position: u32,
    pub outcome: Option<Verdict>,
}

impl NetworkState {
    pub const CALLS: usize = step::CALLS;

    pub const CHECKERS: usize = 64;

    pub const VARIABLES: usize = condition::VARIABLES;

    pub const VALUES: usize = step::VALUES;

    // The state all of whose fields are zero, with no verdict.
    pub fn zero() -> NetworkState
        ensures { result ≡ zero_state }
    {
        NetworkState {
            main: 0,
            variables: [0; NetworkState::VARIABLES],
            opened: 0,
            calls: [Call {
                number: 0,
                unit: 0,
                entry: 0,
                kept: [0; NetworkState::VALUES],
            }; NetworkState::CALLS],
            living: 0,
            checkers: [Checker {
                number: 0,
                template: 0,
                entry: 0,
            }; NetworkState::CHECKERS],
            position: 0,
            outcome: None,
        }
    }

    // The state before the first event: the start state, the initial values, no calls, no checkers.
    pub fn fresh(s: &[u8]) -> Fresh<NetworkState>
        ensures reading_value { reading_paper result.reading ≡ answer (reading network_layout s.now) }
        ensures state_value { result.state ≡ fresh_of s.now }
    {
        match sheet::read_network(s) {
            Ok(()) => Fresh {
                reading: Ok(()),
                state: NetworkState::started(s),
            },
            Err(reason) => Fresh {
                reading: Err(reason),
                state: NetworkState::zero(),
            },
        }
    }

    // The state that the header and the initial values give.
    fn started(s: &[u8]) -> NetworkState
        ensures { result ≡ pad (fresh (network_of s.now)) }
    {
        let h = sheet::header_of(s);
        let w = sheet::words_at(s, 14, h.monitors);
        let mut state = NetworkState::zero();
        state.main = h.start;
        state.variables = [w[0], w[1], w[2], w[3]];
        state
    }
}

// Offers one event to a state on a network: the reading refusals, 9 to 15, or taken. A refused event
// leaves the state as it was.
pub fn offer(s: &[u8], state: NetworkState, event: Record, values: &[u32]) -> Offered<NetworkState>
    ensures answer_value { answer_paper result.answer ≡ answer_of (offer_of s.now state (event_of event values.now)).answer }
    ensures state_value { result.state ≡ (offer_of s.now state (event_of event values.now)).state }
    ensures count_value { result.count ≡ count_of s.now state (event_of event values.now) }
{
    let mut plan = [engine::ABSENT; engine::PLAN];
    match engine::prepare_network(s, &mut plan) {
        Ok(()) => accepted::offer_accepted(s, &plan, state, event, values),
        Err(reason) => Offered {
            answer: Err(reason),
            count: 0,
            state,
        },
    }
}

// Runs a log from the fresh state of a network.
pub fn run(s: &[u8], log: &[u8]) -> Counted
    ensures { (run_paper result.answer ≡ run_of s.now log.now) × (result.count ≡ run_count_of s.now log.now) }
{
    engine::run_network(s, log)
}

// The values at entry of the living checker at a place of the row: those that its call keeps. Zeros
// where there is no such checker, or where its call is not open.
pub fn entry_values(state: NetworkState, i: usize) -> [u32; NetworkState::VALUES]
    ensures { result ≡ entry_values state i }
{
    entry::entry_values(state, i)
}
