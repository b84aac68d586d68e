// The scripts of the programs that try the two engines: frames that lay out a sheet or a network and a
// state, offer events and run logs, and the lines that are printed. reference/CASES.md has the format.
#![tactic(auto)]

ghost use Rattle.std.specs.Prelude.{◌≤◌, length, IfSome};

use sheet::Record;
use std::io;
use std::io::Write;
use step::{Call, Counted, Fresh, Offered, Verdict};

mod bench;
mod frame;
pub mod lines;
pub mod set;

use bench::Bench;
use frame::Step;
use frames::{Frames, Reader};
use set::{Field, Setting};

// The fields that a state has in both engines.
#[derive(Clone, Copy)]
pub struct Shared {
    pub main: u8,
    pub variables: [u32; condition::VARIABLES],
    pub opened: u8,
    pub calls: [Call; step::CALLS],
    pub position: u32,
    pub outcome: Option<Verdict>,
}

// An engine, as a script uses it, and what its frames, fields and lines have of their own.
pub trait Engine: Sized {
    type State: Copy;

    type Own: Drop;

    fn zero() -> Self::State;

    // What reading the text answers, and its fresh state.
    fn fresh(text: &[u8]) -> Fresh<Self::State>;

    fn offer(
        text: &[u8],
        state: Self::State,
        event: Record,
        values: &[u32],
    ) -> Offered<Self::State>;

    fn run(text: &[u8], log: &[u8]) -> Counted;

    fn shared(state: &Self::State) -> Shared;

    fn with_shared(state: Self::State, shared: Shared) -> Self::State;

    // The field with a number, if both engines have it.
    fn field(number: u8) -> Option<Field>;

    // Sets a field that the other engine has not.
    fn with_own(state: Self::State, setting: Setting) -> Self::State;

    // What is printed behind the call at a place, and behind all calls.
    fn print_behind_call<W: Write>(out: &mut W, state: &Self::State, i: usize) -> io::Result<()>;

    fn print_behind_calls<W: Write>(out: &mut W, state: &Self::State) -> io::Result<()>;

    // The rest of a frame that the other engine has not.
    fn read_own(code: u8, page: &mut Reader) -> Option<Self::Own>
        ensures { IfSome result (λ _. length page.new ≤ length page.old) };

    fn answer_own<W: Write>(out: &mut W, state: Self::State, own: Self::Own) -> io::Result<()>;

    // Carries out the frames of a page, from no text and zero states on.
    final fn script<W: Write>(out: &mut W, page: &[u8]) -> io::Result<()> {
        let mut text = &page[..0];
        let mut bench = Bench::<Self>::new();
        for frame in Frames::<Step<Self>>::new(page) {
            match frame {
                Step::Text(next) => text = next,
                Step::Do(action) => bench.carry_out(out, text, action)?,
            }
        }
        Ok(())
    }
}
