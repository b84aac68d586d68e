// Writing a network for the card, from its bytes in version 2. Each writer stores where there is room
// and answers the next place.

ghost use Rattle.std.specs.Prelude.{true, false, ◌&&◌, ◌≡◌, ◌++◌, ◌+◌, ◌≤◌, ◌<◌, leb, length, drop};
ghost use Rattle.sheet.specs.Table.{table, after};
ghost use Rattle.sheet.specs.Decode.{text_form, paired_form, conditions_in, transitions_in, transitions_at, common_of, network_of};
ghost use Rattle.sheet.specs.Encode.{text_bytes, paired_bytes, written, table_bytes};
ghost use Rattle.sheet.specs.Reading.{reading, sheet_layout, network_layout, condition_in};
ghost use Rattle.translation.specs.Card.{is_of, joined_text, joined_conditions, guarded_by, guarded_from, separated};
ghost use Rattle.translation.specs.Answer.{translated_paper, translated_with, buffer_with, card_of, card_buffer_of};
ghost use Rattle.translation.specs.Walk.{Room, Writes};
ghost use Rattle.translation.specs.CardWalk.{Narrowed, Prepared, earlier_in, separated_bytes, joined_short, separate_refusal};

use crate::write;
use crate::write::{base, header, put, texts, words};
use refusal::Refusal;
use sheet::{Header, Places, Transition};

// A network of version 2, with its header and where its parts stand.
#[derive(Clone, Copy)]
pub struct Network<'a> {
    pub n: &'a [u8],
    pub h: Header,
    pub p: &'a Places,
}

// Whether a transition is of another's state, kind and unit.
fn same(t: Transition, u: Transition) -> bool
    ensures { result ≡ is_of t.from t.kind t.unit u }
{
    (u.from == t.from) & ((u.kind == t.kind) & (u.unit == t.unit))
}

// How many bytes the transition at a place has, with its pairs.
fn size_at(n: &[u8], place: u32) -> u32
    requires { place ≤ 100000 }
    ensures { (result ≡ paired_form.size (drop place n.now)) × (result < 600) }
{
    7 + 2 * u32::from(sheet::byte_at(n, place + 6))
}

// A condition by its number.
fn condition(net: &Network, i: u8, out: &mut [u8], at: usize) -> usize
    requires { Narrowed net.now × (i < conditions_in net.now.n.now) × Room at (condition_in (common_of net.now.n.now) i) }
    ensures { Writes out.old out.new at (condition_in (common_of net.now.n.now) i) result }
{
    let text = sheet::condition_at(net.n, net.p.conditions[usize::from(i)]);
    put(out, at, text)
}

// The joined condition of a transition behind the first k.
fn joined(net: &Network, k: u8, t: Transition, out: &mut [u8], at: usize) -> usize
    requires { Narrowed net.now × (k ≤ transitions_in net.now.n.now) × (t.condition < conditions_in net.now.n.now) × Room at (joined_text (common_of net.now.n.now) t (earlier_in net.now.n.now k)) }
    ensures { Writes out.old out.new at (joined_text (common_of net.now.n.now) t (earlier_in net.now.n.now k)) result }
{
    let mut place = net.p.transitions;
    let mut here = at;
    for _ in 0..k {
        let u = sheet::transition_at(net.n, place);
        if same(t, u) {
            let next = put(out, here, &[2, 1]);
            here = condition(net, u.condition, out, next);
        }
        place += size_at(net.n, place);
    }
    condition(net, t.condition, out, here)
}

// How many bytes it has: it is written where there is no room.
fn joined_size(net: &Network, k: u8, t: Transition) -> usize
    requires { Narrowed net.now × (k ≤ transitions_in net.now.n.now) × (t.condition < conditions_in net.now.n.now) }
    ensures { (result ≡ length (joined_text (common_of net.now.n.now) t (earlier_in net.now.n.now k))) × (result < 65536) }
{
    let mut none = [0u8; 1];
    joined(net, k, t, &mut none, 0)
}

// Whether no joined condition is too long.
fn all_short(net: &Network) -> bool
    requires { Narrowed net.now × (net.now.h.transitions ≡ transitions_in net.now.n.now) }
    ensures { result ≡ joined_short net.now.n.now }
{
    let mut ok = true;
    let mut place = net.p.transitions;
    for k in 0..net.h.transitions {
        let t = sheet::transition_at(net.n, place);
        ok = ok & (joined_size(net, k, t) <= 1024);
        place += size_at(net.n, place);
    }
    ok
}

// The joined conditions, each with its length.
fn joined_texts(net: &Network, out: &mut [u8], at: usize) -> usize
    requires { Narrowed net.now × (net.now.h.transitions ≡ transitions_in net.now.n.now) × Room at (written (text_bytes true) (joined_conditions (network_of net.now.n.now))) }
    ensures { Writes out.old out.new at (written (text_bytes true) (joined_conditions (network_of net.now.n.now))) result }
{
    let mut place = net.p.transitions;
    let mut here = at;
    for k in 0..net.h.transitions {
        let t = sheet::transition_at(net.n, place);
        let size = joined_size(net, k, t);
        let next = put(out, here, &(size as u16).to_be_bytes());
        here = joined(net, k, t, out, next);
        place += size_at(net.n, place);
    }
    here
}

// A transition, with the number of its new condition and the pairs that it had.
fn guarded(n: &[u8], place: u32, number: u8, out: &mut [u8], at: usize) -> usize
    requires { (place + paired_form.size (drop place n.now) ≤ length n.now) × (length n.now ≤ 65535) × Room at (paired_bytes (guarded_by number (paired_form.value (drop place n.now)))) }
    ensures { Writes out.old out.new at (paired_bytes (guarded_by number (paired_form.value (drop place n.now)))) result }
{
    let t = sheet::transition_at(n, place);
    let next = base(
        out,
        at,
        Transition {
            condition: number,
            ..t
        },
    );
    let end = place + size_at(n, place);
    put(out, next, &n[place as usize + 6..end as usize])
}

// All of them; the first has this number.
fn guarded_all(n: &[u8], from: u32, count: u8, number: u8, out: &mut [u8], at: usize) -> usize
    requires { (after paired_form count n.now from ≤ length n.now) × (length n.now ≤ 65535) × (number + count < 256) × Room at (written paired_bytes (guarded_from number (table paired_form count n.now from))) }
    ensures { Writes out.old out.new at (written paired_bytes (guarded_from number (table paired_form count n.now from))) result }
{
    let mut place = from;
    let mut here = at;
    for k in 0..count {
        here = guarded(n, place, number + k, out, here);
        place += size_at(n, place);
    }
    here
}

// The tables, behind the header.
fn tables(net: &Network, out: &mut [u8], at: usize) -> usize
    requires { Prepared net.now × (at ≡ 14) }
    ensures { Writes out.old out.new at (table_bytes true (separated (network_of net.now.n.now))) result }
{
    let n = net.n;
    let h = net.h;
    let first = words(n, 14, h.monitors, out, at);
    let old = texts(
        n,
        14 + 4 * u32::from(h.monitors),
        h.conditions,
        true,
        out,
        first,
    );
    let second = joined_texts(net, out, old.at);
    let actions = texts(n, old.from, h.actions, false, out, second);
    let third = guarded_all(
        n,
        net.p.transitions,
        h.transitions,
        h.conditions,
        out,
        actions.at,
    );
    let start = net.p.last as usize;
    put(out, third, &n[start..start + 2 * usize::from(h.last)])
}

// How long the network is: it is written where there is no room.
// Beside write::measure and write::fill: one for both would have to be handed the tables' writer, and
// be no plainer.
fn measure(net: &Network) -> usize
    requires { Prepared net.now }
    ensures { (result ≡ length (separated_bytes net.now.n.now)) × (result < 1000000) }
{
    let mut none = [0u8; 1];
    tables(net, &mut none, 14)
}

// Writes the network at the front of a buffer that holds it.
fn fill(net: &Network, size: u16, out: &mut [u8])
    requires { Prepared net.now × (size ≡ length (separated_bytes net.now.n.now)) × (length (separated_bytes net.now.n.now) ≤ length out.old) }
    ensures { out.new ≡ separated_bytes net.now.n.now ++ drop (length (separated_bytes net.now.n.now)) out.old }
{
    let head = Header {
        conditions: net.h.conditions + net.h.transitions,
        ..net.h
    };
    let at = header(out, head, size, 3);
    tables(net, out, at);
}

// Writes the network for the card from an accepted network of version 2.
fn separate(n: &[u8], out: &mut [u8]) -> Result<usize, Refusal>
    requires { (reading network_layout n.now ≡ 0) × (Rattle.sheet.specs.Decode.wide n.now ≡ false) }
    ensures { (translated_paper result ≡ translated_with (separate_refusal n.now out.old) (length (separated_bytes n.now))) × (out.new ≡ buffer_with (separate_refusal n.now out.old) (separated_bytes n.now) out.old) }
{
    let p = sheet::network_places(n);
    let net = Network {
        n,
        h: sheet::header_of(n),
        p: &p,
    };
    if !all_short(&net) {
        return Err(Refusal::TooLong);
    }
    let size = measure(&net);
    if 65535 < size {
        return Err(Refusal::TooLong);
    }
    if out.len() < size {
        return Err(Refusal::ShortBuffer);
    }
    fill(&net, size as u16, out);
    Ok(size)
}

// Writes the network for the card from an accepted sheet.
pub(crate) fn translate(s: &[u8], out: &mut [u8]) -> Result<usize, Refusal>
    requires { reading sheet_layout s.now ≡ 0 }
    ensures { (translated_paper result ≡ card_of s.now out.old) × (out.new ≡ card_buffer_of s.now out.old) }
{
    let mut room = [0u8; 8192];
    let k = write::translate(s, &mut room)?;
    separate(&room[..k], out)
}
