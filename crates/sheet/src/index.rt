// Where each condition or action of a table begins.

ghost use Rattle.std.specs.Prelude.{◌≡◌, ◌≤◌};
ghost use Rattle.sheet.specs.Table.{starts, fit};
ghost use Rattle.sheet.specs.Decode.{text_form};
ghost use Rattle.sheet.specs.Walk.{places_by};

use crate::Places;
use crate::bytes::{has_wide, number};
use crate::table::{Texts, numbers};
use crate::walk::Tables;

pub(crate) fn index(s: &[u8], at: usize, n: usize, w: bool) -> [u32; 161]
    requires { (at ≤ 100000000) × (n ≤ 255) }
    ensures { result ≡ fit 161 0 (starts (text_form w) n s.now at) }
{
    numbers(Texts { wide: w }, s, at, n, |place| place as u32)
}

// Where the parts stand, by the tables. Inlined, so that who asks for some of them pays for those alone.
#[inline(always)]
pub(crate) fn places(s: &[u8], t: Tables) -> Places
    requires { (t.conditions ≤ 70000000) × (t.actions ≤ 70000000) × (t.transitions ≤ 70000000) × (t.last ≤ 70000000) }
    ensures { result ≡ places_by s.now t }
{
    Places {
        conditions: index(s, t.conditions, number(s, 10), has_wide(s)),
        actions: index(s, t.actions, number(s, 11), false),
        transitions: t.transitions as u32,
        last: t.last as u32,
    }
}
