// Offering an event on an accepted network: a sound state is packed into the engine's words, and what
// the event makes of them is unpacked.

ghost use Rattle.std.specs.Prelude.{◌≡◌, true, ◌<◌, length};
ghost use Rattle.sheet.specs.Decode.{network_of};
ghost use Rattle.sheet.specs.Reading.{reading, network_layout};
ghost use Rattle.step.specs.Calls.{event_of};
ghost use Rattle.step.specs.Answers.{answer_paper, answer_of};
ghost use Rattle.engine.specs.Prepared.{network_plan};
ghost use Rattle.network.specs.Answers.{offer_of, count_of};
ghost use Rattle.network.specs.Padded.{sound_state};

use crate::{NetworkState, pack, sound};
use engine::PLAN;
use refusal::Refusal;
use sheet::Record;
use step::Offered;

pub(crate) fn offer_accepted(
    s: &[u8],
    plan: &[u16; PLAN],
    state: NetworkState,
    event: Record,
    values: &[u32],
) -> Offered<NetworkState>
    requires { (reading network_layout s.now ≡ 0) × (plan.now ≡ network_plan s.now) }
    ensures answer_value { answer_paper result.answer ≡ answer_of (offer_of s.now state (event_of event values.now)).answer }
    ensures state_value { result.state ≡ (offer_of s.now state (event_of event values.now)).state }
    ensures count_value { result.count ≡ count_of s.now state (event_of event values.now) }
{
    let t = sound::tables_of(s, plan[5]);
    if sound::sound(s, t, state) {
        offer_sound(s, plan, state, event, values)
    } else {
        Offered {
            answer: Err(Refusal::Unsound),
            count: 0,
            state,
        }
    }
}

fn offer_sound(
    s: &[u8],
    plan: &[u16; PLAN],
    state: NetworkState,
    event: Record,
    values: &[u32],
) -> Offered<NetworkState>
    requires { (reading network_layout s.now ≡ 0) × (length s.now < 65536) × (plan.now ≡ network_plan s.now) × (sound_state (network_of s.now) state ≡ true) }
    ensures answer_value { answer_paper result.answer ≡ answer_of (offer_of s.now state (event_of event values.now)).answer }
    ensures state_value { result.state ≡ (offer_of s.now state (event_of event values.now)).state }
    ensures count_value { result.count ≡ count_of s.now state (event_of event values.now) }
{
    let given = engine::pack::given(event, values);
    let eight = step::rows::eight(values);
    let run = pack::running(state);
    let mut row = pack::row(state);
    let mut variables = state.variables;
    match engine::advance(s, plan, run, &mut row, &mut variables, given, &eight) {
        Ok(next) => {
            let programs = usize::from(plan[1]);
            let monitors = usize::from(plan[2]);
            Offered {
                answer: Ok(()),
                count: next.count,
                state: pack::unpack(next.run, &row, &variables, programs, monitors),
            }
        }
        Err(reason) => Offered {
            answer: Err(reason),
            count: 0,
            state,
        },
    }
}
