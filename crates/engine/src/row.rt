// The words of the open calls, sixteen to a call: its number, its unit, how many numbers are armed for
// it, four of them, the position of its entry, the eight values kept.

ghost use Rattle.std.specs.Prelude.{◌≡◌, [], ◌∷◌, ◌+◌, ◌*◌, ◌<◌, ◌≤◌};
ghost use Rattle.std.proofs.lemmas.List.Edits.{sets};
ghost use Rattle.step.specs.Calls.{most_calls};
ghost use Rattle.engine.specs.Walk.{code_of, place_in, entry_refusal, exit_refusal, refusal_in, row_without};

use crate::{Given, PLAN, Running};
use refusal::Refusal;
use step::{CALLS, VALUES};

// Where the words of the call of a number begin among the first `opened`, or where those end.
pub(crate) fn place_of(row: &[u32; 256], opened: usize, number: u32) -> usize
    requires { opened ≤ most_calls }
    ensures { result ≡ place_in number opened row.now }
{
    for i in 0..opened {
        if row[16 * i] == number {
            return 16 * i;
        }
    }
    16 * opened
}

// Whether an event is taken, with the place of its number: the lowest of refusals 10 to 15 where not.
pub(crate) fn admit(
    plan: &[u16; PLAN],
    run: Running,
    row: &[u32; 256],
    given: Given,
    place: usize,
) -> Result<(), Refusal>
    requires { (run.opened ≤ most_calls) × (place < 16 * run.opened → place + 16 ≤ 256) }
    ensures { code_of result ≡ refusal_in plan.now run row.now given place }
{
    let outcome = run.outcome;
    if step::outcomes::is_judged(outcome) {
        return Err(Refusal::Judged);
    }
    if (given.kind <= 1)
        & ((usize::from(given.unit) < usize::from(plan[0]))
            & (given.count == usize::from(plan[1])))
    {} else {
        return Err(Refusal::Unfit);
    }
    if run.position == 4294967295 {
        return Err(Refusal::LastPosition);
    }
    if given.kind == 0 {
        admit_entry(usize::from(run.opened), place)
    } else {
        admit_exit(row, usize::from(run.opened), place, u32::from(given.unit))
    }
}

// An entry's: 13 where its number is open, 14 where sixteen are.
fn admit_entry(opened: usize, place: usize) -> Result<(), Refusal>
    requires { opened ≤ most_calls }
    ensures { code_of result ≡ entry_refusal opened place }
{
    if place < 16 * opened {
        Err(Refusal::AlreadyOpen)
    } else {
        if opened < CALLS {
            Ok(())
        } else {
            Err(Refusal::Full)
        }
    }
}

// An exit's: 15 where its number is not open, or for another unit.
fn admit_exit(row: &[u32; 256], opened: usize, place: usize, unit: u32) -> Result<(), Refusal>
    requires { (opened ≤ most_calls) × (place < 16 * opened → place + 16 ≤ 256) }
    ensures { code_of result ≡ exit_refusal row.now opened place unit }
{
    if place < 16 * opened {
        if row[place + 1] == unit {
            Ok(())
        } else {
            Err(Refusal::NotOpen)
        }
    } else {
        Err(Refusal::NotOpen)
    }
}

// Stores the number, the unit, the position of its entry and the values of a call, all eight of them:
// that takes two moves.
pub(crate) fn put(row: &mut [u32; 256], at: usize, given: Given, entry: u32, values: &[u32; VALUES])
    requires { at + 16 ≤ 256 }
    ensures { row.new ≡ sets (sets row.old at (given.number ∷ given.unit ∷ [])) (at + 7) (entry ∷ values.now) }
{
    let v = &values[..];
    row[at] = u32::from(given.number);
    row[at + 1] = u32::from(given.unit);
    row[at + 7] = entry;
    row[at + 8] = v[0];
    row[at + 9] = v[1];
    row[at + 10] = v[2];
    row[at + 11] = v[3];
    row[at + 12] = v[4];
    row[at + 13] = v[5];
    row[at + 14] = v[6];
    row[at + 15] = v[7];
}

// Moves the words behind the call at a place to it.
pub(crate) fn close(row: &mut [u32; 256], place: usize, opened: usize)
    requires { (place + 16 ≤ 16 * opened) × (opened ≤ most_calls) }
    ensures { row.new ≡ row_without row.old place opened }
{
    row.copy_within(place + 16..16 * opened, place);
}
