// Where the tables stand, and whether their length bytes are in range and they end at the end:
// refusal 4.

ghost use Rattle.std.specs.Prelude.{◌≡◌, ◌≤◌, ◌&&◌};
ghost use Rattle.sheet.specs.Decode.{transition_form, triple_form, paired_form, template_form, conditions_at, actions_at, transitions_at};
ghost use Rattle.sheet.specs.Reading.{most_bytes, sheet_layout, network_layout, tabled};
ghost use Rattle.sheet.specs.Walk.{Finds, condition_lengths, action_lengths, pair_counts};

use crate::bytes::{has_wide, number, said};
use crate::head::between;
use crate::table::{
    Lengths, PairCounts, PairedTransitions, Records, Templates, Texts, Transitions, Triples, after,
    every,
};

// Where each table begins, and where the last ends.
#[derive(Clone, Copy)]
pub(crate) struct Tables {
    pub conditions: usize,
    pub actions: usize,
    pub transitions: usize,
    pub last: usize,
    pub end: usize,
}

// The tables of a layout, by the records of its last two.
fn find_tables<T: Records, R: Records>(s: &[u8], transitions_of: T, last_of: R) -> Tables
    ensures { Finds (T.form transitions_of) (R.form last_of) s.now result }
{
    let conditions = 14 + number(s, 6) * 4;
    let actions = after(Texts { wide: has_wide(s) }, s, conditions, number(s, 10));
    let transitions = after(Texts { wide: false }, s, actions, number(s, 11));
    let last = after(transitions_of, s, transitions, number(s, 12));
    let end = after(last_of, s, last, number(s, 13));
    Tables {
        conditions,
        actions,
        transitions,
        last,
        end,
    }
}

pub(crate) fn sheet_tables(s: &[u8]) -> Tables
    ensures { Finds transition_form triple_form s.now result }
{
    find_tables(s, Transitions, Triples)
}

pub(crate) fn network_tables(s: &[u8]) -> Tables
    ensures { Finds paired_form template_form s.now result }
{
    find_tables(s, PairedTransitions, Templates)
}

// The most bytes of a text.
fn most_bytes(w: bool) -> usize
    ensures { result ≡ most_bytes w }
{
    if w { 1024 } else { 64 }
}

// Whether the lengths of conditions and actions are in range.
fn lengths_hold(s: &[u8], conditions: usize, actions: usize) -> bool
    requires { (conditions ≡ conditions_at s.now) × (actions ≡ actions_at s.now) × (conditions ≤ 70000000) × (actions ≤ 70000000) }
    ensures { result ≡ (condition_lengths s.now && action_lengths s.now) }
{
    let wide = has_wide(s);
    every(Lengths { wide }, s, conditions, number(s, 10), |place| {
        between(1, most_bytes(wide), said(s, place, wide))
    }) & every(
        Lengths { wide: false },
        s,
        actions,
        number(s, 11),
        |place| { between(0, most_bytes(false), said(s, place, false)) },
    )
}

// 4 does not apply to a sheet with these tables.
pub(crate) fn sheet_tabled(s: &[u8], t: Tables) -> bool
    requires { Finds transition_form triple_form s.now t }
    ensures { result ≡ tabled sheet_layout s.now }
{
    lengths_hold(s, t.conditions, t.actions) & (t.end == s.len())
}

// Whether a network's transitions have at most four pairs each.
fn pairs_hold(s: &[u8], transitions: usize) -> bool
    requires { (transitions ≡ transitions_at s.now) × (transitions ≤ 70000000) }
    ensures { result ≡ pair_counts s.now }
{
    every(PairCounts, s, transitions, number(s, 12), |place| {
        between(0, 4, number(s, place + 6))
    })
}

// The same of a network.
pub(crate) fn network_tabled(s: &[u8], t: Tables) -> bool
    requires { Finds paired_form template_form s.now t }
    ensures { result ≡ tabled network_layout s.now }
{
    lengths_hold(s, t.conditions, t.actions) & (pairs_hold(s, t.transitions) & (t.end == s.len()))
}
