// The frames of a script.

ghost use Rattle.std.specs.Prelude.{◌≤◌, length, IfSome};

use crate::Engine;
use crate::set::Setting;
use frames::{Frame, Reader, Words};
use sheet::Record;

// An event, and its values.
#[derive(Drop)]
pub(crate) struct Event {
    pub(crate) record: Record,
    pub(crate) values: Words,
}

// A frame brings a text, a sheet or a network, or something to do.
#[derive(Drop)]
pub(crate) enum Step<'a, E: Engine> {
    Text(&'a [u8]),
    Do(Action<'a, E>),
}

// What to do. The state that comes back from an event that is taken becomes the state.
#[derive(Drop)]
pub(crate) enum Action<'a, E: Engine> {
    Fresh,
    Set(Setting),
    Save,
    Restore,
    Offer(Event),
    Take(Event),
    Run(&'a [u8]),
    Own(E::Own),
}

impl<'a, E: Engine> Frame<'a> for Step<'a, E> {
    fn read(page: &mut Reader<'a>) -> Option<Step<'a, E>> {
        match page.byte()? {
            0 => Some(Step::Text(read_part(page)?)),
            1 => Some(Step::Do(Action::Fresh)),
            2 => Some(Step::Do(Action::Set(read_setting(page)?))),
            3 => Some(Step::Do(Action::Save)),
            4 => Some(Step::Do(Action::Restore)),
            5 => Some(Step::Do(Action::Offer(read_event(page)?))),
            6 => Some(Step::Do(Action::Take(read_event(page)?))),
            7 => Some(Step::Do(Action::Run(read_part(page)?))),
            code => Some(Step::Do(Action::Own(E::read_own(code, page)?))),
        }
    }
}

// Bytes with their number before them.
fn read_part<'a>(page: &mut Reader<'a>) -> Option<&'a [u8]>
    ensures { IfSome result (λ _. length page.new ≤ length page.old) }
{
    let size = page.short()?;
    page.part(usize::from(size))
}

fn read_setting(page: &mut Reader) -> Option<Setting>
    ensures { IfSome result (λ _. length page.new ≤ length page.old) }
{
    Some(Setting {
        field: page.byte()?,
        i: page.byte()?,
        j: page.byte()?,
        value: page.word()?,
    })
}

fn read_event(page: &mut Reader) -> Option<Event>
    ensures { IfSome result (λ _. length page.new ≤ length page.old) }
{
    Some(Event {
        record: Record {
            kind: page.byte()?,
            unit: page.byte()?,
            number: page.short()?,
        },
        values: page.words()?,
    })
}
