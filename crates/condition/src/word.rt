// Words: the bits of signed 32-bit values, and their arithmetic.

ghost use Rattle.std.specs.Prelude.{◌≡◌, ◌+◌, ◌%◌, ◌^◌, ◌<◌};
ghost use Rattle.std.proofs.Math.IntN.{sub_ℕ};
ghost use Rattle.condition.specs.Word.{unsigned, clamp, plus_word, minus_word, less_word, within_word};

use std::num::{wrapping_add_u32, wrapping_sub_u32};

// What raises a signed value.
const SIGN: u32 = 2147483648;

// The words of the ends of the signed range.
const LOW: u32 = 2147483648;

const HIGH: u32 = 2147483647;

// 2^31 and 2^32 as numbers.
const HALF: usize = 2147483648;

const WHOLE: usize = 4294967296;

// 2^31 more than a signed value: never negative, and in the same order.
fn raised(a: u32) -> usize
    ensures { (result ≡ (a + 2 ^ 31) % 2 ^ 32) × (result < 2 ^ 32) }
{
    wrapping_add_u32(a, SIGN) as usize
}

// The word of the number 2^32 below n, or of the end that it is past.
fn clamped(n: usize) -> u32
    ensures { result ≡ unsigned (clamp (sub_ℕ n (2 ^ 32))) }
{
    if n < HALF {
        LOW
    } else if n < WHOLE + HALF {
        (n % WHOLE) as u32
    } else {
        HIGH
    }
}

pub(crate) fn plus(a: u32, b: u32) -> u32
    ensures { result ≡ plus_word a b }
{
    clamped(raised(a) + raised(b))
}

pub(crate) fn minus(a: u32, b: u32) -> u32
    ensures { result ≡ minus_word a b }
{
    clamped(WHOLE + raised(a) - raised(b))
}

pub(crate) fn less(a: u32, b: u32) -> bool
    ensures { result ≡ less_word a b }
{
    raised(a) < raised(b)
}

pub(crate) fn within(a: u32, b: u32, k: u32) -> bool
    ensures { result ≡ within_word a b k }
{
    let elapsed = wrapping_sub_u32(a, b);
    elapsed <= k
}
