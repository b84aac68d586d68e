// Records by their place, and the bytes of a condition or action.

ghost use Rattle.std.specs.Prelude.{◌≡◌, ◌≤◌, take, drop};
ghost use Rattle.sheet.specs.Decode.{word_form, wide, text_form, transition_of, triple_form, pair_form, template_form};

use crate::bytes::{byte, has_wide, lead, said};
use crate::{Pair, Template, Transition, Triple, bytes};

pub(crate) fn transition(s: &[u8], at: usize) -> Transition
    requires { at ≤ 8000000000 }
    ensures { result ≡ transition_of (drop at s.now) }
{
    Transition {
        from: byte(s, at),
        kind: byte(s, at + 1),
        unit: byte(s, at + 2),
        condition: byte(s, at + 3),
        action: byte(s, at + 4),
        to: byte(s, at + 5),
    }
}

pub(crate) fn triple(s: &[u8], at: usize) -> Triple
    requires { at ≤ 8000000000 }
    ensures { result ≡ triple_form.value (drop at s.now) }
{
    Triple {
        state: byte(s, at),
        unit: byte(s, at + 1),
        precondition: byte(s, at + 2),
        postcondition: byte(s, at + 3),
    }
}

pub(crate) fn pair(s: &[u8], at: usize) -> Pair
    requires { at ≤ 8000000000 }
    ensures { result ≡ pair_form.value (drop at s.now) }
{
    Pair {
        condition: byte(s, at),
        template: byte(s, at + 1),
    }
}

pub(crate) fn template(s: &[u8], at: usize) -> Template
    requires { at ≤ 8000000000 }
    ensures { result ≡ template_form.value (drop at s.now) }
{
    Template {
        unit: byte(s, at),
        postcondition: byte(s, at + 1),
    }
}

// At most n bytes from a place on.
pub(crate) fn part(s: &[u8], at: usize, n: usize) -> &[u8]
    requires { (at ≤ 8000000002) × (n ≤ 8000000000) }
    ensures { result.now ≡ take n (drop at s.now) }
{
    if s.len() < at {
        return &s[..0];
    }
    if s.len() < at + n {
        return &s[at..];
    }
    &s[at..at + n]
}

// The bytes of the condition or action whose length is at a place.
pub(crate) fn text(s: &[u8], at: usize, w: bool) -> &[u8]
    requires { at ≤ 8000000000 }
    ensures { result.now ≡ (text_form w).value (drop at s.now) }
{
    let n = said(s, at, w);
    part(s, at + lead(w), n)
}

// The bytes of the condition whose length is at a place.
pub(crate) fn condition_text(s: &[u8], at: usize) -> &[u8]
    requires { at ≤ 8000000000 }
    ensures { result.now ≡ (text_form (wide s.now)).value (drop at s.now) }
{
    text(s, at, has_wide(s))
}

pub(crate) fn word(s: &[u8], at: usize) -> u32
    requires { at ≤ 8000000000 }
    ensures { result ≡ word_form.value (drop at s.now) }
{
    bytes::word(s, at)
}
