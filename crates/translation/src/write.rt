// Writing a network. Each writer stores where there is room and answers the next place.

ghost use Rattle.std.specs.Prelude.{false, ◌≡◌, [], ◌∷◌, ◌++◌, map, ◌+◌, ◌≤◌, ◌<◌, length, set, take, drop};
ghost use Rattle.sheet.specs.Table.{table, after};
ghost use Rattle.sheet.specs.Decode.{word_form, text_form, transition_of};
ghost use Rattle.sheet.specs.Encode.{length_bytes, word_bytes, pair_bytes, paired_bytes, written};
ghost use Rattle.translation.specs.Translate.{pairs_from, joined};
ghost use Rattle.sheet.specs.Reading.{reading, sheet_layout};
ghost use Rattle.translation.specs.Answer.{network_bytes, translated_paper, translated_of, buffer_of};
ghost use Rattle.translation.specs.Walk.{Room, Prepared, Measures, Writes, WritesTables, WritesAdded, texts_at, WritesTexts, triples_at, counted_pairs, base_bytes, copied_at, back_at, copied_bytes, added_at, templates_at, header_at};

use refusal::Refusal;
use sheet::{Header, Transition};

// Where a sheet's triples begin, and how many there are; the numbers of the added condition and
// action.
#[derive(Clone, Copy)]
pub struct Frame {
    pub triples: u32,
    pub count: u8,
    pub condition: u8,
    pub action: u8,
}

// The next place, and how many transitions have been added.
#[derive(Clone, Copy)]
pub struct Spot {
    pub at: usize,
    pub added: usize,
}

// The next place of the sheet, and that of the network.
#[derive(Clone, Copy)]
pub struct Both {
    pub from: u32,
    pub at: usize,
}

// Bytes one behind the other: each is stored where there is room for it.
// Byte by byte: a slice is copied only whole. By `get_mut` the proof did not close.
pub(crate) fn put(out: &mut [u8], at: usize, bytes: &[u8]) -> usize
    requires { Room at bytes.now }
    ensures { Writes out.old out.new at bytes.now result }
{
    for (i, b) in bytes.iter().enumerate() {
        if at + i < out.len() {
            out[at + i] = *b;
        }
    }
    at + bytes.len()
}

// Words of a sheet, from a place on.
pub(crate) fn words(s: &[u8], from: u32, n: u8, out: &mut [u8], at: usize) -> usize
    requires { (from ≤ 100000) × Room at (written word_bytes (table word_form n s.now from)) }
    ensures { Writes out.old out.new at (written word_bytes (table word_form n s.now from)) result }
{
    let mut place = from;
    let mut here = at;
    for _ in 0..n {
        here = put(out, here, &sheet::word_at(s, place).to_be_bytes());
        place += 4;
    }
    here
}

// A length, in one byte or in two.
fn put_length(out: &mut [u8], at: usize, wide: bool, size: u8) -> usize
    requires { Room at (length_bytes wide size) }
    ensures { Writes out.old out.new at (length_bytes wide size) result }
{
    if wide {
        put(out, at, &u16::from(size).to_be_bytes())
    } else {
        put(out, at, &[size])
    }
}

// Texts from a place on, where each has a length byte, with lengths in one byte or in two.
pub(crate) fn texts(s: &[u8], from: u32, n: u8, wide: bool, out: &mut [u8], at: usize) -> Both
    requires { (after (text_form false) n s.now from ≤ length s.now) × (length s.now ≤ 65535) × Room at (texts_at wide s.now from n) }
    ensures { WritesTexts wide s.now out.old out.new from n at result }
{
    let mut place = from;
    let mut here = at;
    for _ in 0..n {
        let size = sheet::byte_at(s, place);
        let next = put_length(out, here, wide, size);
        here = put(out, next, sheet::action_at(s, place));
        place += 1 + u32::from(size);
    }
    Both {
        from: place,
        at: here,
    }
}

// How many triples a state and unit have.
fn count(s: &[u8], f: Frame, state: u8, unit: u8) -> u8
    requires { f.triples ≤ 100000 }
    ensures { result ≡ length (pairs_from 0 state unit (triples_at s.now f)) }
{
    let mut found = 0;
    let mut place = f.triples;
    for _ in 0..f.count {
        let t = sheet::triple_at(s, place);
        if (t.state == state) & (t.unit == unit) {
            found += 1;
        }
        place += 4;
    }
    found
}

// The pairs of a state and unit.
fn pairs(s: &[u8], f: Frame, state: u8, unit: u8, out: &mut [u8], at: usize) -> usize
    requires { (f.triples ≤ 100000) × Room at (written pair_bytes (pairs_from 0 state unit (triples_at s.now f))) }
    ensures { Writes out.old out.new at (written pair_bytes (pairs_from 0 state unit (triples_at s.now f))) result }
{
    let mut place = f.triples;
    let mut here = at;
    for i in 0..f.count {
        let t = sheet::triple_at(s, place);
        if (t.state == state) & (t.unit == unit) {
            here = put(out, here, &[t.precondition, i]);
        }
        place += 4;
    }
    here
}

// How many pairs a state and unit have, and these.
fn with_pairs(s: &[u8], f: Frame, state: u8, unit: u8, out: &mut [u8], at: usize) -> usize
    requires { (f.triples ≤ 100000) × Room at (counted_pairs (pairs_from 0 state unit (triples_at s.now f))) }
    ensures { Writes out.old out.new at (counted_pairs (pairs_from 0 state unit (triples_at s.now f))) result }
{
    let next = put(out, at, &[count(s, f, state, unit)]);
    pairs(s, f, state, unit, out, next)
}

// The six bytes of a transition.
pub(crate) fn base(out: &mut [u8], at: usize, t: Transition) -> usize
    requires { Room at (base_bytes t) }
    ensures { Writes out.old out.new at (base_bytes t) result }
{
    put(
        out,
        at,
        &[t.from, t.kind, t.unit, t.condition, t.action, t.to],
    )
}

// A transition of the sheet, an entry one with its pairs.
fn transition(s: &[u8], f: Frame, place: u32, out: &mut [u8], at: usize) -> usize
    requires { (f.triples ≤ 100000) × Room at (paired_bytes (copied_at s.now f (transition_of (drop place s.now)))) }
    ensures { Writes out.old out.new at (paired_bytes (copied_at s.now f (transition_of (drop place s.now)))) result }
{
    let t = sheet::transition_at(s, place);
    let next = base(out, at, t);
    if t.kind == 0 {
        with_pairs(s, f, t.from, t.unit, out, next)
    } else {
        put(out, next, &[0])
    }
}

// So many transitions of the sheet, from a place on.
fn transitions(s: &[u8], f: Frame, from: u32, n: u8, out: &mut [u8], at: usize) -> usize
    requires { (f.triples ≤ 100000) × (from ≤ 100000) × Room at (copied_bytes s.now f from n) }
    ensures { Writes out.old out.new at (copied_bytes s.now f from n) result }
{
    let mut place = from;
    let mut here = at;
    for _ in 0..n {
        here = transition(s, f, place, out, here);
        place += 6;
    }
    here
}

// The entry transition back to a state for a unit, where these have triples.
fn back(s: &[u8], f: Frame, state: u8, unit: u8, out: &mut [u8], spot: Spot) -> Spot
    requires { (f.triples ≤ 100000) × Room spot.at (written paired_bytes (back_at s.now f state unit)) × (spot.added ≤ 1000) }
    ensures { WritesAdded out.old out.new spot (back_at s.now f state unit) result }
{
    if count(s, f, state, unit) == 0 {
        return spot;
    }
    let t = Transition {
        from: state,
        kind: 0,
        unit,
        condition: f.condition,
        action: f.action,
        to: state,
    };
    let next = base(out, spot.at, t);
    Spot {
        at: with_pairs(s, f, state, unit, out, next),
        added: spot.added + 1,
    }
}

// Those of a state, unit by unit.
fn units(s: &[u8], f: Frame, state: u8, n: u8, out: &mut [u8], spot: Spot) -> Spot
    requires { (f.triples ≤ 100000) × Room spot.at (written paired_bytes (joined n (λ u. back_at s.now f state u))) × (spot.added + length (joined n (λ u. back_at s.now f state u)) ≤ 1000) }
    ensures { WritesAdded out.old out.new spot (joined n (λ u. back_at s.now f state u)) result }
{
    let mut here = spot;
    for unit in 0..n {
        here = back(s, f, state, unit, out, here);
    }
    here
}

// Those of all states, state by state.
fn states(s: &[u8], f: Frame, n: u8, m: u8, out: &mut [u8], spot: Spot) -> Spot
    requires { (f.triples ≤ 100000) × Room spot.at (written paired_bytes (added_at s.now f n m)) × (spot.added + length (added_at s.now f n m) ≤ 1000) }
    ensures { WritesAdded out.old out.new spot (added_at s.now f n m) result }
{
    let mut here = spot;
    for state in 0..n {
        here = units(s, f, state, m, out, here);
    }
    here
}

// The templates, one for each triple.
fn templates(s: &[u8], f: Frame, out: &mut [u8], at: usize) -> usize
    requires { (f.triples ≤ 100000) × Room at (templates_at s.now f) }
    ensures { Writes out.old out.new at (templates_at s.now f) result }
{
    let mut place = f.triples;
    let mut here = at;
    for _ in 0..f.count {
        let t = sheet::triple_at(s, place);
        here = put(out, here, &[t.unit, t.postcondition]);
        place += 4;
    }
    here
}

// The tables of the network, behind its header.
fn tables(s: &[u8], h: Header, f: Frame, from: u32, out: &mut [u8], at: usize) -> Spot
    requires { Prepared s.now h f from × (at ≡ 14) }
    ensures { WritesTables s.now h f from out.old out.new at result }
{
    let first = words(s, 14, h.monitors, out, at);
    let conditions = texts(
        s,
        14 + 4 * u32::from(h.monitors),
        h.conditions,
        false,
        out,
        first,
    );
    let second = put(out, conditions.at, &[1, 0]);
    let actions = texts(s, conditions.from, h.actions, false, out, second);
    let third = put(out, actions.at, &[0]);
    let fourth = transitions(s, f, from, h.transitions, out, third);
    let spot = Spot {
        at: fourth,
        added: 0,
    };
    let last = states(s, f, h.states, h.units, out, spot);
    Spot {
        at: templates(s, f, out, last.at),
        added: last.added,
    }
}

// The header of a network of this size and version.
pub(crate) fn header(out: &mut [u8], h: Header, size: u16, version: u8) -> usize
    ensures { Writes out.old out.new 0 (header_at h size version) result }
{
    let second = put(out, 0, &size.to_be_bytes());
    let third = put(
        out,
        second,
        &[version, h.states, h.units, h.programs, h.monitors, h.start],
    );
    let fourth = put(out, third, &h.bad.to_be_bytes());
    put(
        out,
        fourth,
        &[h.conditions, h.actions, h.transitions, h.last],
    )
}

// How long the network is, and how many transitions are added: it is written where there is no room.
fn measure(s: &[u8], h: Header, f: Frame, from: u32) -> Spot
    requires { Prepared s.now h f from }
    ensures { Measures s.now result }
{
    let mut none = [0u8; 1];
    tables(s, h, f, from, &mut none, 14)
}

// Writes the network at the front of a buffer that holds it.
fn fill(s: &[u8], h: Header, f: Frame, from: u32, size: Spot, out: &mut [u8])
    requires { Prepared s.now h f from × Measures s.now size × (length (network_bytes s.now) ≤ length out.old) }
    ensures { out.new ≡ network_bytes s.now ++ drop (length (network_bytes s.now)) out.old }
{
    let n = usize::from(h.transitions) + size.added;
    let net = Header {
        conditions: h.conditions + 1,
        actions: h.actions + 1,
        transitions: n as u8,
        ..h
    };
    let at = header(out, net, size.at as u16, 2);
    tables(s, h, f, from, out, at);
}

// Translates an accepted sheet.
pub(crate) fn translate(s: &[u8], out: &mut [u8]) -> Result<usize, Refusal>
    requires { reading sheet_layout s.now ≡ 0 }
    ensures { (translated_paper result ≡ translated_of s.now out.old) × (out.new ≡ buffer_of s.now out.old) }
{
    let h = sheet::header_of(s);
    let p = sheet::sheet_places(s);
    let f = Frame {
        triples: p.last,
        count: h.last,
        condition: h.conditions,
        action: h.actions,
    };
    let size = measure(s, h, f, p.transitions);
    if out.len() < size.at {
        return Err(Refusal::ShortBuffer);
    }
    fill(s, h, f, p.transitions, size, out);
    Ok(size.at)
}
