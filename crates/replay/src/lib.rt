// The records of a log, offered one after another to a sheet's network, past refusals.
#![tactic(auto)]

ghost use Rattle.std.specs.Prelude.{◌≡◌, ◌+◌, ◌≤◌, ◌<◌, set, drop};
ghost use Rattle.std.proofs.lemmas.List.Edits.{sets};
ghost use Rattle.refusal.specs.Numbers as Numbers;
ghost use Rattle.sheet.specs.Log.{record_size, event_form, log_reading, records_in, events_of};
ghost use Rattle.step.specs.Answers.{answer_paper, answer_of};
ghost use Rattle.network.specs.Answers.{offer_of};
ghost use Rattle.network.specs.Padded.{zero_state};
ghost use Rattle.agreement.specs.Shown.{offered_to};
ghost use Rattle.replay.specs.Replay.{replay_paper, refused, number_of, replay_of, replayed_state, replayed_answers};
ghost use Rattle.replay.specs.Walk.{Replays};

use network::NetworkState;
use refusal::Refusal;
use step::Offered;

// What replaying answers, how many records were offered, and the state after the last.
#[derive(Clone, Copy)]
pub struct Replayed {
    pub answer: Result<u32, Refusal>,
    pub state: NetworkState,
}

// Translates a sheet and offers the records of a log to its network, from the fresh state on, each to
// the state that came back before. Of each record a byte goes into `answers`, as far as there is room: 0
// where it was taken, or the number of its refusal. Where the sheet or the log is refused, `answers`
// stays as it was, and the state is all-zero.
pub fn replay(sheet: &[u8], log: &[u8], answers: &mut [u8]) -> Replayed
    ensures answer_value { replay_paper result.answer ≡ replay_of sheet.now log.now }
    ensures state_value { result.state ≡ replayed_state sheet.now log.now }
    ensures answers_after { answers.new ≡ sets answers.old 0 (replayed_answers sheet.now log.now) }
{
    let mut buffer = [0u8; 8192];
    match translation::translate(sheet, &mut buffer) {
        Ok(n) => {
            let programs = sheet::byte_at(sheet, 5);
            on_network(&buffer[..n], log, programs, answers)
        }
        Err(reason) => turned_away(reason),
    }
}

// Reads the log for so many program variables and offers its records to a network.
fn on_network(network: &[u8], log: &[u8], programs: u8, answers: &mut [u8]) -> Replayed
    requires { programs ≤ 8 }
    ensures { Replays (log_reading programs log.now) (records_in programs log.now) (offered_to network.now (events_of programs log.now)) answers.old result answers.new }
{
    match sheet::read_log(log, programs) {
        Ok(_) => offer_all(network, log, programs, answers),
        Err(reason) => turned_away(reason),
    }
}

// A refusal, with the all-zero state.
fn turned_away(reason: Refusal) -> Replayed
    ensures { (replay_paper result.answer ≡ refused (Numbers.number_of reason)) × (result.state ≡ zero_state) }
{
    Replayed {
        answer: Err(reason),
        state: NetworkState::zero(),
    }
}

// Offers the records of a log that is read.
fn offer_all(network: &[u8], log: &[u8], programs: u8, answers: &mut [u8]) -> Replayed
    requires { (log_reading programs log.now ≡ 0) × (programs ≤ 8) }
    ensures { Replays 0 (records_in programs log.now) (offered_to network.now (events_of programs log.now)) answers.old result answers.new }
{
    let size = record_size(programs);
    let end = sheet::word_at(log, 0);
    let fresh = NetworkState::fresh(network);
    let mut state = fresh.state;
    let mut i: u32 = 0;
    let mut at: u32 = 6;
    // Counted by hand: a record's place and its number go on together, and the place ends the loop.
    while at < end {
        let next = offer_at(network, state, log, at, programs);
        let answer = next.answer;
        put(answers, i, number(answer));
        let after = next.state;
        state = after;
        i += 1;
        at += size;
    }
    Replayed {
        answer: Ok(i),
        state,
    }
}

// How many bytes a record has.
fn record_size(programs: u8) -> u32
    ensures { result ≡ record_size programs }
{
    4 + 4 * u32::from(programs)
}

// Offers the record at a place of a log, with its values.
fn offer_at(
    network: &[u8],
    state: NetworkState,
    log: &[u8],
    at: u32,
    programs: u8,
) -> Offered<NetworkState>
    requires { (programs ≤ 8) × (at + 4 < 4294967296) }
    ensures answer_value { answer_paper result.answer ≡ answer_of (offer_of network.now state ((event_form programs).value (drop at log.now))).answer }
    ensures state_value { result.state ≡ (offer_of network.now state ((event_form programs).value (drop at log.now))).state }
{
    let event = sheet::record_at(log, at);
    let words = sheet::words_at(log, at + 4, programs);
    network::offer(network, state, event, &words[..usize::from(programs)])
}

// An answer as a number.
fn number(answer: Result<(), Refusal>) -> u8
    ensures { result ≡ number_of (answer_paper answer) }
{
    match answer {
        Ok(()) => 0,
        Err(reason) => reason.number(),
    }
}

// Puts a byte at a place, where there is one: by its index, since a proof knows no element that is
// written through `get_mut`.
fn put(out: &mut [u8], at: u32, b: u8)
    ensures { out.new ≡ set out.old at b }
{
    let place = at as usize;
    if place < out.len() {
        out[place] = b;
    }
}
