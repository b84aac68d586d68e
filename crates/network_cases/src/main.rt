// Carries out a framed script from standard input: lays out networks and states, offers events, runs
// logs, reads checkers, and prints a line for each answer. reference/CASES.md has the format.
#![tactic(auto)]

ghost use Rattle.std.specs.Prelude.{◌≤◌, length};

use frames::Reader;
use network::{Checker, NetworkState};
use scripts::lines::{Kept, Named, NamedAt};
use scripts::set::{Field, Setting};
use scripts::{Engine, Shared};
use sheet::Record;
use std::io;
use std::io::{BufWriter, Read, Write};
use step::{Counted, Fresh, Offered};

// The engine on a network.
struct Network;

// A frame that asks for the values at entry of the checker at a place.
#[derive(Drop)]
struct EntryValues(u8);

// Reads at most 64 pages of frames, each a script of its own.
fn main(rt: HostRuntime) -> io::Result<()> {
    let mut input = Vec::new(rt.alloc());
    rt.stdin().take(frames::INPUT).read_to_end(&mut input)?;
    let mut out = BufWriter::new(rt.alloc(), rt.stdout())?;
    for page in input.chunks(frames::PAGE) {
        Network::script(&mut out, page)?;
    }
    out.flush()
}

impl Engine for Network {
    type State = NetworkState;

    type Own = EntryValues;

    fn zero() -> NetworkState {
        NetworkState::zero()
    }

    fn fresh(text: &[u8]) -> Fresh<NetworkState> {
        NetworkState::fresh(text)
    }

    fn offer(
        text: &[u8],
        state: NetworkState,
        event: Record,
        values: &[u32],
    ) -> Offered<NetworkState> {
        network::offer(text, state, event, values)
    }

    fn run(text: &[u8], log: &[u8]) -> Counted {
        network::run(text, log)
    }

    fn shared(state: &NetworkState) -> Shared {
        Shared {
            main: state.main,
            variables: state.variables,
            opened: state.opened,
            calls: state.calls,
            position: state.position,
            outcome: state.outcome,
        }
    }

    fn with_shared(state: NetworkState, shared: Shared) -> NetworkState {
        let Shared {
            main,
            variables,
            opened,
            calls,
            position,
            outcome,
        } = shared;
        NetworkState {
            main,
            variables,
            opened,
            calls,
            position,
            outcome,
            ..state
        }
    }

    fn field(number: u8) -> Option<Field> {
        match number {
            0 => Some(Field::Main),
            1 => Some(Field::Variable),
            2 => Some(Field::Opened),
            3 => Some(Field::CallNumber),
            4 => Some(Field::CallUnit),
            5 => Some(Field::CallKept),
            9 => Some(Field::Position),
            10 => Some(Field::NoVerdict),
            11 => Some(Field::BadState),
            12 => Some(Field::Triple),
            13 => Some(Field::Both),
            14 => Some(Field::CallEntry),
            16 => Some(Field::VerdictEntry),
            _ => None,
        }
    }

    // How many checkers live, or the checker at a place.
    fn with_own(mut state: NetworkState, setting: Setting) -> NetworkState {
        if setting.field == 6 {
            state.living = setting.low_byte();
        } else if let Some(checker) = state.checkers.get_mut(usize::from(setting.i)) {
            set_checker(checker, setting);
        }
        state
    }

    fn print_behind_call<W: Write>(_: &mut W, _: &NetworkState, _: usize) -> io::Result<()> {
        Ok(())
    }

    // The living checkers: their number and, at each place, the call's number and the template.
    fn print_behind_calls<W: Write>(out: &mut W, state: &NetworkState) -> io::Result<()> {
        write!(out, "{}", Named("l", u32::from(state.living)))?;
        for (i, checker) in state.checkers.iter().enumerate() {
            write!(out, "{}", NamedAt("c", i, u32::from(checker.number)))?;
            write!(out, "{}", NamedAt("t", i, u32::from(checker.template)))?;
            write!(out, "{}", NamedAt("f", i, checker.entry))?;
        }
        Ok(())
    }

    fn read_own(code: u8, page: &mut Reader) -> Option<EntryValues> {
        match code {
            8 => Some(EntryValues(page.byte()?)),
            _ => None,
        }
    }

    fn answer_own<W: Write>(out: &mut W, state: NetworkState, own: EntryValues) -> io::Result<()> {
        let i = usize::from(own.0);
        let values = network::entry_values(state, i);
        writeln!(out, "entry {i}{}", Kept(i, &values))
    }
}

fn set_checker(checker: &mut Checker, setting: Setting) {
    match setting.field {
        7 => checker.number = setting.low_short(),
        8 => checker.template = setting.low_byte(),
        15 => checker.entry = setting.value,
        _ => {}
    }
}
