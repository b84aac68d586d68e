// Calls put into a row of words and taken out of it, for states that hold them otherwise.

ghost use Rattle.std.specs.Prelude.{◌≡◌, cond, ◌%◌, ◌<◌, length};
ghost use Rattle.step.specs.Calls.{most_values, most_armed, event_of};
ghost use Rattle.engine.specs.Packed.{put_at, call_at, arms_at};
ghost use Rattle.engine.specs.Walk.{given_of};

use crate::{Given, event};
use sheet::Record;
use step::{ARMED, CALLS, Call};

// What is armed for a call: the first `count` of four numbers.
#[derive(Clone, Copy)]
pub struct Arms {
    pub count: u8,
    pub numbers: [u8; ARMED],
}

// Puts a call at the ith place, with what is armed for it; past the sixteenth nothing.
pub fn put(row: &mut [u32; 256], i: usize, call: Call, arms: Arms)
    ensures { (row.new ≡ put_at row.old i call arms) × (call.number < 65536) × (call.unit < 256) × (length call.kept ≡ most_values) × (length arms.numbers ≡ most_armed) }
{
    let number = u32::from(call.number);
    let unit = u32::from(call.unit);
    let kept = call.kept;
    let numbers = arms.numbers;
    if i < CALLS {
        let at = 16 * i;
        row[at] = number;
        row[at + 1] = unit;
        row[at + 2] = u32::from(arms.count);
        row[at + 3] = u32::from(numbers[0]);
        row[at + 4] = u32::from(numbers[1]);
        row[at + 5] = u32::from(numbers[2]);
        row[at + 6] = u32::from(numbers[3]);
        row[at + 7] = call.entry;
        row[at + 8] = kept[0];
        row[at + 9] = kept[1];
        row[at + 10] = kept[2];
        row[at + 11] = kept[3];
        row[at + 12] = kept[4];
        row[at + 13] = kept[5];
        row[at + 14] = kept[6];
        row[at + 15] = kept[7];
    }
}

// The call at the ith place, with its first `programs` values; past the sixteenth none.
pub fn call_at(row: &[u32; 256], i: usize, programs: usize) -> Call
    ensures { result ≡ call_at row.now i programs }
{
    if i < CALLS {} else {
        return step::rows::no_call();
    }
    let all = &row[..];
    let at = 16 * i;
    Call {
        number: (all[at] % 65536) as u16,
        unit: (all[at + 1] % 256) as u8,
        entry: all[at + 7],
        kept: step::rows::eight(condition::front(&all[at + 8..at + 16], programs)),
    }
}

// What is armed for the call at the ith place; past the sixteenth nothing.
pub fn arms_at(row: &[u32; 256], i: usize) -> Arms
    ensures { result ≡ arms_at row.now i }
{
    if i < CALLS {} else {
        return Arms {
            count: 0,
            numbers: [0; ARMED],
        };
    }
    let all = &row[..];
    let at = 16 * i;
    let count = event::four(all[at + 2]);
    Arms {
        count: count as u8,
        numbers: [
            below(0 < count, all[at + 3]),
            below(1 < count, all[at + 4]),
            below(2 < count, all[at + 5]),
            below(3 < count, all[at + 6]),
        ],
    }
}

// A number, or zero where it is not one of the first.
fn below(first: bool, n: u32) -> u8
    ensures { result ≡ cond first (n % 256) 0 }
{
    if first { (n % 256) as u8 } else { 0 }
}

// An event as it is given, with how many values there are.
pub fn given(event: Record, values: &[u32]) -> Given
    ensures { (result ≡ given_of (event_of event values.now)) × (event.number < 65536) × (event.unit < 256) }
{
    let number = u32::from(event.number);
    let unit = u32::from(event.unit);
    Given {
        kind: event.kind,
        unit: event.unit,
        number: event.number,
        count: values.len(),
    }
}
