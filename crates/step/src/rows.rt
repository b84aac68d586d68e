// Rows of calls, and the zeros behind what is there.

ghost use Rattle.std.specs.Prelude.{◌≡◌, ◌&&◌, map, eqb};
ghost use Rattle.sheet.specs.Table.{every, fit};
ghost use Rattle.step.specs.Lists.{any, distinct};
ghost use Rattle.step.specs.Calls.{most_values, entries_sound};
ghost use Rattle.step.specs.Padding.{zero_call, clear, padded, is_zero_call};

use crate::{Call, VALUES};

// The place of no call.
pub fn no_call() -> Call
    ensures { result ≡ zero_call }
{
    Call {
        number: 0,
        unit: 0,
        entry: 0,
        kept: [0; VALUES],
    }
}

// Up to eight values, zeros behind them.
pub fn eight(values: &[u32]) -> [u32; VALUES]
    ensures { result ≡ fit most_values 0 values.now }
{
    let mut out = [0u32; VALUES];
    let n = values.len().min(VALUES);
    out[..n].copy_from_slice(&values[..n]);
    out
}

// Whether all values from a place on are zero.
pub fn clear_from(values: &[u32], from: usize) -> bool
    ensures { result ≡ clear from values.now }
{
    values.iter().skip(from).all(|v| *v == 0)
}

// Whether a call keeps zeros from a value's number on.
fn keeps_clear(call: &Call, from: usize) -> bool
    ensures { result ≡ padded most_values from call.now.kept }
{
    clear_from(&call.kept, from)
}

// Whether it is the place of no call.
fn is_no_call(call: &Call) -> bool
    ensures { result ≡ (padded most_values 0 call.now.kept && is_zero_call call.now) }
{
    (call.number == 0) & ((call.unit == 0) & ((call.entry == 0) & keeps_clear(call, 0)))
}

// Whether all calls keep zeros from a value's number on.
pub fn kept_clear(calls: &[Call], from: usize) -> bool
    ensures { result ≡ every (λ c. padded most_values from c.kept) calls.now }
{
    calls.iter().all(|c| keeps_clear(c, from))
}

// Whether there is no call.
pub fn calls_clear(places: &[Call]) -> bool
    ensures { result ≡ every (λ c. padded most_values 0 c.kept && is_zero_call c) places.now }
{
    places.iter().all(|c| is_no_call(c))
}

// Whether all calls have different numbers.
pub fn numbers_distinct(calls: &[Call]) -> bool
    ensures { result ≡ distinct (map (λ c. c.number) calls.now) }
{
    for i in 0..calls.len() {
        if is_number_among(calls[i].number, &calls[i + 1..]) {
            return false;
        }
    }
    true
}

fn is_number_among(number: u16, calls: &[Call]) -> bool
    ensures { result ≡ any (eqb number) (map (λ c. c.number) calls.now) }
{
    calls.iter().any(|c| number == c.number)
}

// Whether the positions of the calls' entries are sound at a position: from 1 to it, each above the one
// before.
pub fn entries_sound(calls: &[Call], position: u32) -> bool
    ensures { result ≡ entries_sound position (map (λ c. c.entry) calls.now) }
{
    let mut last = 0;
    for c in calls {
        if c.entry <= last {
            return false;
        }
        if position < c.entry {
            return false;
        }
        last = c.entry;
    }
    true
}
