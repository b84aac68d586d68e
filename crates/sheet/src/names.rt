// What is named by number, in a file of its own since the definitions that contracts cite name it.

ghost use Rattle.std.specs.Prelude.{◌≤◌};

use crate::Counts;
use condition::Lent;

// What the transitions of a network may name: the counts, and so many templates from a place on.
#[derive(Clone, Copy)]
pub(crate) struct Names<'a> {
    pub s: &'a [u8],
    pub counts: Counts,
    pub last: usize,
    pub templates: usize,
    ghost small: { last ≤ 100000000 },
}

// The conditions of a sheet or network: where each begins, how many there are, and what they may
// name.
#[derive(Drop)]
pub(crate) struct Conditions<'a> {
    pub s: &'a [u8],
    pub index: [u32; 161],
    pub count: usize,
    pub lent: Lent,
    ghost few: { count ≤ 161 },
}
