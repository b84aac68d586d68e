// The header's tests: refusals 1 to 3.

ghost use Rattle.std.specs.Prelude.{◌≡◌};
ghost use Rattle.sheet.specs.Bytes.{byte};
ghost use Rattle.sheet.specs.Reading.{is_bad, whole, counts_hold, start_holds, between};

use crate::bytes::{byte, half, number, shifted};

// 1 does not apply: the bytes say how many they are.
#[tactic(auto, unfolding(crate::specs::Reading::whole))]
pub(crate) fn whole(s: &[u8]) -> bool
    ensures { result ≡ whole s.now }
{
    let said = half(s, 0);
    (14 <= s.len()) & (said == s.len())
}

pub(crate) fn between(low: usize, high: usize, n: usize) -> bool
    ensures { result ≡ between low high n }
{
    (low <= n) & (n <= high)
}

// 2 does not apply: the version is one of a range.
pub(crate) fn version_is(s: &[u8], low: usize, high: usize) -> bool
    ensures { result ≡ between low high (byte s.now 2) }
{
    between(low, high, number(s, 2))
}

// 3 does not apply, for the most conditions, actions and transitions.
pub(crate) fn counts_hold(s: &[u8], conditions: usize, actions: usize, transitions: usize) -> bool
    ensures { result ≡ counts_hold conditions actions transitions s.now }
{
    let states = number(s, 3);
    let units = number(s, 4);
    let programs = number(s, 5);
    let monitors = number(s, 6);
    let tables = (number(s, 10) <= conditions)
        & ((number(s, 11) <= actions)
            & ((number(s, 12) <= transitions) & ((number(s, 13) <= 32) & start_holds(s))));
    between(1, 16, states)
        & (between(1, 16, units) & ((programs <= 8) & ((monitors <= 4) & tables)))
}

// The start state is there, no bad state is past the last, and the start is not bad.
fn start_holds(s: &[u8]) -> bool
    ensures { result ≡ start_holds s.now }
{
    let states = number(s, 3);
    let start = number(s, 7);
    let bad = half(s, 8) as u32;
    let past = shifted(bad, byte(s, 3));
    let from_start = shifted(bad, byte(s, 7));
    (start < states) & ((past == 0) & !(from_start % 2 == 1))
}

pub(crate) fn is_bad(bad: u16, state: u8) -> bool
    ensures { result ≡ is_bad bad state }
{
    shifted(u32::from(bad), state) % 2 == 1
}
