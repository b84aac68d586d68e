// Verdicts: what an event brings, and whether what a state holds is sound.

ghost use Rattle.std.specs.Prelude.{◌≡◌, ◌&&◌, eqb, ltb};
ghost use Rattle.step.specs.Verdicts.{if_there, cause_state, cause_triple, verdict, entry_fits, verdict_fits, is_judged, outcome_of, verdict_in};
ghost use Rattle.step.specs.Walk.{number_in};
ghost use Rattle.sheet.specs.Reading.{is_bad};

use crate::{Cause, Verdict};

// The outcome of an event: at a position, for the bad states, the new main state, the lowest failing
// triple (256 or more for none, as the engine finds it by taking the lesser of two), and the position of
// the entry of its call.
pub fn outcome(bad: u16, position: u32, main: u8, lowest: u16, entry: u32) -> Option<Verdict>
    ensures { result ≡ outcome_of (verdict bad position main (number_in lowest) entry) }
{
    let is_bad = sheet::is_bad(bad, main);
    if lowest < 256 {
        let triple = lowest as u8;
        let cause = if is_bad {
            Cause::Both(main, triple)
        } else {
            Cause::Triple(triple)
        };
        Some(Verdict {
            position,
            cause,
            entry,
        })
    } else {
        if is_bad {
            Some(Verdict {
                position,
                cause: Cause::BadState(main),
                entry: 0,
            })
        } else {
            None
        }
    }
}

// Whether an outcome is sound in a state: for the bad states, how many triples there are, the main
// state and the position.
pub fn outcome_fits(
    bad: u16,
    triples: u8,
    main: u8,
    position: u32,
    outcome: Option<Verdict>,
) -> bool
    ensures { result ≡ verdict_fits bad triples main position (verdict_in outcome) }
{
    match outcome {
        None => !sheet::is_bad(bad, main),
        Some(v) => {
            let fits = cause_fits(bad, triples, main, v);
            (v.position == position) & fits
        }
    }
}

// Whether a verdict's cause is, and the position of its entry for it.
fn cause_fits(bad: u16, triples: u8, main: u8, v: Verdict) -> bool
    ensures { result ≡ (if_there (cause_state v.cause) (λ q. eqb q main && is_bad bad q) && (if_there (cause_triple v.cause) (λ t. ltb t triples) && entry_fits (cause_triple v.cause) v.position v.entry)) }
{
    let before = (1 <= v.entry) & (v.entry < v.position);
    let cause = v.cause;
    match cause {
        Cause::BadState(q) => ((q == main) & sheet::is_bad(bad, q)) & (v.entry == 0),
        Cause::Triple(t) => (t < triples) & before,
        Cause::Both(q, t) => ((q == main) & sheet::is_bad(bad, q)) & ((t < triples) & before),
    }
}

// Whether there is a verdict.
pub fn is_judged(outcome: Option<Verdict>) -> bool
    ensures { result ≡ is_judged (verdict_in outcome) }
{
    outcome.is_some()
}
