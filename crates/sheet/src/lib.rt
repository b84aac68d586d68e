// Sheets, networks and logs: their layouts, and reading them. A byte past the end reads as 0, so
// that every operation answers for all bytes and all places.
#![tactic(auto)]

ghost use Rattle.std.specs.Prelude.{◌≡◌, false, drop};
ghost use Rattle.sheet.specs.Bytes.{byte};
ghost use Rattle.sheet.specs.Table.{fit, table};
ghost use Rattle.sheet.specs.Decode.{word_form, wide, text_form, transition_of, triple_form, pair_form, template_form};
ghost use Rattle.sheet.specs.Reading.{is_bad, sheet_layout, network_layout, reading};
ghost use Rattle.sheet.specs.Log.{log_reading, records_in};
ghost use Rattle.sheet.specs.Answer.{reading_paper, answer, header_of, places_of, log_paper, read_of, record_of};

mod bytes;
mod formed;
mod head;
mod index;
mod log;
mod names;
mod ranged;
mod read;
mod records;
mod roles;
mod spread;
mod table;
mod walk;

use refusal::Refusal;

// How many states, units, conditions and actions there are.
#[derive(Clone, Copy)]
pub struct Counts {
    pub states: u8,
    pub units: u8,
    pub conditions: u8,
    pub actions: u8,
}

// The numbers of a header. `last` counts triples or templates.
#[derive(Clone, Copy)]
pub struct Header {
    pub states: u8,
    pub units: u8,
    pub programs: u8,
    pub monitors: u8,
    pub start: u8,
    pub bad: u16,
    pub conditions: u8,
    pub actions: u8,
    pub transitions: u8,
    pub last: u8,
}

// Where each condition and action begins, with its length byte, and where the transitions and the
// last table begin.
#[derive(Clone, Copy)]
pub struct Places {
    pub conditions: [u32; 161],
    pub actions: [u32; 161],
    pub transitions: u32,
    pub last: u32,
}

#[derive(Clone, Copy)]
pub struct Transition {
    pub from: u8,
    pub kind: u8,
    pub unit: u8,
    pub condition: u8,
    pub action: u8,
    pub to: u8,
}

#[derive(Clone, Copy)]
pub struct Triple {
    pub state: u8,
    pub unit: u8,
    pub precondition: u8,
    pub postcondition: u8,
}

#[derive(Clone, Copy)]
pub struct Pair {
    pub condition: u8,
    pub template: u8,
}

#[derive(Clone, Copy)]
pub struct Template {
    pub unit: u8,
    pub postcondition: u8,
}

// A record of a log without its values.
#[derive(Clone, Copy)]
pub struct Record {
    pub kind: u8,
    pub unit: u8,
    pub number: u16,
}

// Reads a sheet: accepted, or the first of refusals 1 to 8 that applies.
pub fn read_sheet(s: &[u8]) -> Result<(), Refusal>
    ensures { reading_paper result ≡ answer (reading sheet_layout s.now) }
{
    read::sheet(s)
}

// Reads a network: accepted, or the first of refusals 1 to 7 that applies.
pub fn read_network(s: &[u8]) -> Result<(), Refusal>
    ensures { reading_paper result ≡ answer (reading network_layout s.now) }
{
    read::network(s)
}

// The numbers of the header.
pub fn header_of(s: &[u8]) -> Header
    ensures { result ≡ header_of s.now }
{
    Header {
        states: bytes::byte(s, 3),
        units: bytes::byte(s, 4),
        programs: bytes::byte(s, 5),
        monitors: bytes::byte(s, 6),
        start: bytes::byte(s, 7),
        bad: bytes::half(s, 8) as u16,
        conditions: bytes::byte(s, 10),
        actions: bytes::byte(s, 11),
        transitions: bytes::byte(s, 12),
        last: bytes::byte(s, 13),
    }
}

// Whether a state is bad, by the bits of the header.
pub fn is_bad(bad: u16, state: u8) -> bool
    ensures { result ≡ is_bad bad state }
{
    head::is_bad(bad, state)
}

// Where the parts of a sheet stand.
pub fn sheet_places(s: &[u8]) -> Places
    ensures { result ≡ places_of sheet_layout s.now }
{
    index::places(s, walk::sheet_tables(s))
}

// Where the parts of a network stand.
pub fn network_places(s: &[u8]) -> Places
    ensures { result ≡ places_of network_layout s.now }
{
    index::places(s, walk::network_tables(s))
}

// The byte at a place.
pub fn byte_at(s: &[u8], at: u32) -> u8
    ensures { result ≡ byte s.now at }
{
    bytes::byte(s, at as usize)
}

// The word at a place, as of an initial value.
pub fn word_at(s: &[u8], at: u32) -> u32
    ensures { result ≡ word_form.value (drop at s.now) }
{
    records::word(s, at as usize)
}

// The bytes of the condition that begins at a place.
pub fn condition_at(s: &[u8], at: u32) -> &[u8]
    ensures { result.now ≡ (text_form (wide s.now)).value (drop at s.now) }
{
    records::condition_text(s, at as usize)
}

// The bytes of the action that begins at a place.
pub fn action_at(s: &[u8], at: u32) -> &[u8]
    ensures { result.now ≡ (text_form false).value (drop at s.now) }
{
    records::text(s, at as usize, false)
}

// The transition at a place, without its pairs.
pub fn transition_at(s: &[u8], at: u32) -> Transition
    ensures { result ≡ transition_of (drop at s.now) }
{
    records::transition(s, at as usize)
}

pub fn triple_at(s: &[u8], at: u32) -> Triple
    ensures { result ≡ triple_form.value (drop at s.now) }
{
    records::triple(s, at as usize)
}

pub fn pair_at(s: &[u8], at: u32) -> Pair
    ensures { result ≡ pair_form.value (drop at s.now) }
{
    records::pair(s, at as usize)
}

pub fn template_at(s: &[u8], at: u32) -> Template
    ensures { result ≡ template_form.value (drop at s.now) }
{
    records::template(s, at as usize)
}

// Reads a log for so many program variables: how many records it has.
pub fn read_log(s: &[u8], programs: u8) -> Result<usize, Refusal>
    ensures { log_paper result ≡ read_of (log_reading programs s.now) (records_in programs s.now) }
{
    log::read(s, usize::from(programs))
}

// The record at a place of a log.
pub fn record_at(s: &[u8], at: u32) -> Record
    ensures { result ≡ record_of (drop at s.now) }
{
    log::record(s, at as usize)
}

// Up to eight words from a place on, zeros behind them.
pub fn words_at(s: &[u8], at: u32, n: u8) -> [u32; 8]
    ensures { result ≡ fit 8 0 (table word_form n s.now at) }
{
    log::words(s, at as usize, usize::from(n))
}
