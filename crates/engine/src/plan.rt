// The plan of a sheet and of a network: what an event asks for, where it asks for it. Tables are read
// from the last record to the first, so that each finds the next of its kind already there.

ghost use Rattle.std.specs.Prelude.{◌≡◌, true, cond, ◌-◌, ◌<◌, ◌≤◌, suc, min, leb, length, take, drop};
ghost use Rattle.std.proofs.lemmas.List.Edits.{sets};
ghost use Rattle.sheet.specs.Table.{every, fit, starts};
ghost use Rattle.sheet.specs.Decode.{wide, lead, triple_form};
ghost use Rattle.sheet.specs.Reading.{reading, sheet_layout, network_layout};
ghost use Rattle.step.specs.Walk.{base_form};
ghost use Rattle.engine.specs.Plan.{absent, key_of};
ghost use Rattle.engine.specs.Prepared.{start_of, text_place, action_place, linked, with_transition, with_pairs, with_transitions, with_triple, post_words, head_words, sheet_into, network_into};

use crate::event::cell_of;
use crate::{ABSENT, PLAN};
use sheet::Header;

// Puts an accepted sheet into a plan.
pub(crate) fn of_sheet(s: &[u8], plan: &mut [u16; PLAN])
    requires { reading sheet_layout s.now ≡ 0 }
    ensures { plan.new ≡ sheet_into s.now plan.old }
{
    let h = sheet::header_of(s);
    let x = sheet::sheet_places(s);
    let conditions = x.conditions;
    let actions = x.actions;
    heads(h, 0, x.last, plan);
    let n = at_most(h.transitions, 96);
    let places = places(s, x.transitions, n, false);
    transitions(s, &conditions, &actions, &places, n, false, plan);
    let m = at_most(h.last, 32);
    triples(s, &conditions, x.last, m, plan);
    posts(s, &conditions, x.last, m, 4, plan);
}

// Puts an accepted network into a plan.
pub(crate) fn of_network(s: &[u8], plan: &mut [u16; PLAN])
    requires { reading network_layout s.now ≡ 0 }
    ensures { plan.new ≡ network_into s.now plan.old }
{
    let h = sheet::header_of(s);
    let x = sheet::network_places(s);
    let conditions = x.conditions;
    let actions = x.actions;
    heads(h, 1, x.last, plan);
    let n = at_most(h.transitions, 96);
    let places = places(s, x.transitions, n, true);
    transitions(s, &conditions, &actions, &places, n, true, plan);
    posts(s, &conditions, x.last, at_most(h.last, 32), 2, plan);
}

// The numbers of the header, whether transitions have pairs, and where the triples or templates begin.
fn heads(h: Header, paired: u16, last: u32, plan: &mut [u16; PLAN])
    ensures { plan.new ≡ sets plan.old 0 (head_words h paired last) }
{
    plan[0] = u16::from(h.units);
    plan[1] = u16::from(h.programs);
    plan[2] = u16::from(h.monitors);
    plan[3] = h.bad;
    plan[4] = paired;
    plan[5] = (last % 65536) as u16;
}

fn at_most(n: u8, most: usize) -> usize
    ensures { (result ≡ min n most) × (result ≤ most) }
{
    usize::from(n).min(most)
}

// Where each of n transitions stands.
fn places(s: &[u8], at: u32, n: usize, paired: bool) -> [u32; 96]
    requires { (n ≤ 96) × (at < 200000) }
    ensures { (result ≡ fit 96 0 (starts (base_form paired) n s.now at)) × (every (λ x. leb x 1000000) result ≡ true) }
{
    let mut out = [0u32; 96];
    let mut here = at;
    for i in 0..n {
        out[i] = here;
        here += size(s, here, paired);
    }
    out
}

// How many bytes the transition at a place takes.
fn size(s: &[u8], at: u32, paired: bool) -> u32
    requires { at ≤ 1000000 }
    ensures { (result ≡ (base_form paired).size (drop at s.now)) × (result ≤ 517) }
{
    if paired {
        7 + 2 * u32::from(sheet::byte_at(s, at + 6))
    } else {
        6
    }
}

// The transitions at n places, with their pairs if they have them.
fn transitions(
    s: &[u8],
    conditions: &[u32; 161],
    actions: &[u32; 161],
    places: &[u32; 96],
    n: usize,
    paired: bool,
    plan: &mut [u16; PLAN],
)
    requires { (n ≤ 96) × (n ≤ length places.now) × (every (λ x. leb x 1000000) places.now ≡ true) }
    ensures { plan.new ≡ with_transitions paired s.now conditions.now actions.now (take n places.now) plan.old }
{
    for i in (0..n).rev() {
        let at = places[i];
        transition(s, conditions, actions, i, at, plan);
        if paired {
            pairs(s, conditions, i, at, plan);
        }
    }
}

// The words of the transition at a place, and its number as the first of its key.
fn transition(
    s: &[u8],
    conditions: &[u32; 161],
    actions: &[u32; 161],
    i: usize,
    at: u32,
    plan: &mut [u16; PLAN],
)
    requires { i < 96 }
    ensures { plan.new ≡ with_transition s.now conditions.now actions.now i at plan.old }
{
    let t = sheet::transition_at(s, at);
    let key = 8 + key_of(t.from, t.unit, t.kind);
    let gap = behind(plan[key], i);
    let to = 552 + 4 * i;
    plan[to] = text(s, conditions, t.condition);
    plan[to + 1] = action(s, actions, t.action);
    plan[to + 2] = u16::from(t.to);
    plan[to + 3] = gap;
    plan[key] = i as u16;
}

// The pairs of the transition at a place as candidates, up to four, and the first of them.
fn pairs(s: &[u8], conditions: &[u32; 161], i: usize, at: u32, plan: &mut [u16; PLAN])
    requires { (i < 96) × (at ≤ 1000000) }
    ensures { plan.new ≡ with_pairs s.now conditions.now i at plan.old }
{
    let n = at_most(sheet::byte_at(s, at + 6), 4);
    let mut from = at + 7;
    let mut to = 1192 + 12 * i;
    for left in (0..n).rev() {
        let p = sheet::pair_at(s, from);
        plan[to] = text(s, conditions, p.condition);
        plan[to + 1] = u16::from(p.template);
        plan[to + 2] = pick(left == 0, 0);
        from += 2;
        to += 3;
    }
    plan[936 + i] = pick(n == 0, 4 * (i as u16));
}

// A number, or that of none.
fn pick(none: bool, n: u16) -> u16
    ensures { result ≡ cond none absent n }
{
    if none { ABSENT } else { n }
}

// The triples from a place on, as candidates of their state and unit.
fn triples(s: &[u8], conditions: &[u32; 161], at: u32, n: usize, plan: &mut [u16; PLAN])
    requires { (n ≤ 32) × (at ≤ 100000000) }
    ensures { plan.new ≡ linked (with_triple s.now conditions.now) 0 (starts triple_form n s.now at) plan.old }
{
    let mut here = at + 4 * (n as u32);
    for i in (0..n).rev() {
        here -= 4;
        triple(s, conditions, i, here, plan);
    }
}

// The words of the triple at a place, and its number as the first of its cell.
fn triple(s: &[u8], conditions: &[u32; 161], i: usize, at: u32, plan: &mut [u16; PLAN])
    requires { i < 32 }
    ensures { plan.new ≡ with_triple s.now conditions.now i at plan.old }
{
    let t = sheet::triple_at(s, at);
    let cell = 936 + cell_of(t.state, t.unit);
    let gap = behind(plan[cell], i);
    let to = 1192 + 3 * i;
    plan[to] = text(s, conditions, t.precondition);
    plan[to + 1] = i as u16;
    plan[to + 2] = gap;
    plan[cell] = i as u16;
}

// Where the postconditions of n records stand, each the last byte of its record.
fn posts(s: &[u8], conditions: &[u32; 161], at: u32, n: usize, size: u32, plan: &mut [u16; PLAN])
    requires { (n ≤ 32) × (at ≤ 100000000) × (1 ≤ size) × (size ≤ 4) }
    ensures { plan.new ≡ sets plan.old 520 (post_words s.now conditions.now size n at) }
{
    let mut here = at;
    for i in 0..n {
        plan[520 + i] = text(s, conditions, sheet::byte_at(s, here + (size - 1)));
        here += size;
    }
}

// Where the text of a condition begins; 0 where it is `true`.
fn text(s: &[u8], index: &[u32; 161], i: u8) -> u16
    ensures { result ≡ text_place s.now index.now i }
{
    let at = (start(index, i) + lead(s)) % 65536;
    if sheet::byte_at(s, at) == 0 {
        0
    } else {
        at as u16
    }
}

// Where an action stands; 0 where it is empty.
fn action(s: &[u8], index: &[u32; 161], i: u8) -> u16
    ensures { result ≡ action_place s.now index.now i }
{
    let at = start(index, i);
    if sheet::byte_at(s, at) == 0 {
        0
    } else {
        at as u16
    }
}

// Where a text stands.
fn start(index: &[u32; 161], i: u8) -> u32
    ensures { (result ≡ start_of index.now i) × (result < 65536) }
{
    let all = &index[..];
    let k = usize::from(i);
    if k < all.len() { all[k] % 65536 } else { 0 }
}

// How many bytes a condition's length takes.
fn lead(s: &[u8]) -> u32
    ensures { (result ≡ lead (wide s.now)) × (result ≤ 2) }
{
    if sheet::byte_at(s, 2) == 3 { 2 } else { 1 }
}

// How many stand between the record i and the next.
fn behind(next: u16, i: usize) -> u16
    requires { i < 96 }
    ensures { result ≡ next - suc i }
{
    let k = i as u16 + 1;
    if k < next { next - k } else { 0 }
}

fn key_of(state: u8, unit: u8, kind: u8) -> usize
    ensures { (result ≡ key_of state unit kind) × (result < 512) }
{
    (2 * cell_of(state, unit) + usize::from(kind)) % 512
}
