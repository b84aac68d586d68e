// Carries out a framed script from standard input: lays out sheets and states, offers events and
// runs logs, and prints a line for each answer. reference/CASES.md has the format.
#![tactic(auto)]

ghost use Rattle.std.specs.Prelude.{◌≤◌, length};

use frames::Reader;
use monitor::{Arms, WatchState};
use scripts::lines::NamedAt;
use scripts::set::{Field, Setting};
use scripts::{Engine, Shared};
use sheet::Record;
use std::io;
use std::io::{BufWriter, Read, Write};
use step::{Counted, Fresh, Offered};

// The engine on a sheet. It has no frames of its own.
struct Monitor;

// Reads at most 64 pages of frames, each a script of its own.
fn main(rt: HostRuntime) -> io::Result<()> {
    let mut input = Vec::new(rt.alloc());
    rt.stdin().take(frames::INPUT).read_to_end(&mut input)?;
    let mut out = BufWriter::new(rt.alloc(), rt.stdout())?;
    for page in input.chunks(frames::PAGE) {
        Monitor::script(&mut out, page)?;
    }
    out.flush()
}

impl Engine for Monitor {
    type State = WatchState;

    type Own = ();

    fn zero() -> WatchState {
        WatchState::zero()
    }

    fn fresh(text: &[u8]) -> Fresh<WatchState> {
        WatchState::fresh(text)
    }

    fn offer(text: &[u8], state: WatchState, event: Record, values: &[u32]) -> Offered<WatchState> {
        monitor::offer(text, state, event, values)
    }

    fn run(text: &[u8], log: &[u8]) -> Counted {
        monitor::run(text, log)
    }

    fn shared(state: &WatchState) -> Shared {
        Shared {
            main: state.main,
            variables: state.variables,
            opened: state.opened,
            calls: state.calls,
            position: state.position,
            outcome: state.outcome,
        }
    }

    fn with_shared(state: WatchState, shared: Shared) -> WatchState {
        let Shared {
            main,
            variables,
            opened,
            calls,
            position,
            outcome,
        } = shared;
        WatchState {
            main,
            variables,
            opened,
            calls,
            position,
            outcome,
            ..state
        }
    }

    fn field(number: u8) -> Option<Field> {
        match number {
            0 => Some(Field::Main),
            1 => Some(Field::Variable),
            2 => Some(Field::Opened),
            3 => Some(Field::CallNumber),
            4 => Some(Field::CallUnit),
            5 => Some(Field::CallKept),
            8 => Some(Field::Position),
            9 => Some(Field::NoVerdict),
            10 => Some(Field::BadState),
            11 => Some(Field::Triple),
            12 => Some(Field::Both),
            13 => Some(Field::CallEntry),
            14 => Some(Field::VerdictEntry),
            _ => None,
        }
    }

    // What is armed for the call at a place.
    fn with_own(mut state: WatchState, setting: Setting) -> WatchState {
        if let Some(arms) = state.arms.get_mut(usize::from(setting.i)) {
            set_arms(arms, setting);
        }
        state
    }

    fn print_behind_call<W: Write>(out: &mut W, state: &WatchState, i: usize) -> io::Result<()> {
        if let Some(arms) = state.arms.get(i) {
            write!(out, "{}", NamedAt("a", i, u32::from(arms.count)))?;
            for (j, triple) in arms.triples.iter().enumerate() {
                if *triple != 0 {
                    write!(out, " t{i}.{j}={triple}")?;
                }
            }
        }
        Ok(())
    }

    fn print_behind_calls<W: Write>(_: &mut W, _: &WatchState) -> io::Result<()> {
        Ok(())
    }

    fn read_own(_: u8, page: &mut Reader) -> Option<()> {
        None
    }

    fn answer_own<W: Write>(_: &mut W, _: WatchState, _: ()) -> io::Result<()> {
        Ok(())
    }
}

fn set_arms(arms: &mut Arms, setting: Setting) {
    match setting.field {
        6 => arms.count = setting.low_byte(),
        7 => {
            if let Some(triple) = arms.triples.get_mut(usize::from(setting.j)) {
                *triple = setting.low_byte();
            }
        }
        _ => {}
    }
}
