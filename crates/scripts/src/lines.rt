// How the parts of a line are printed.

use std::fmt;
use step::{Call, Cause, Verdict};

// A number with a name before it, and nothing where it is 0.
#[derive(Clone, Copy)]
pub struct Named(pub &'static str, pub u32);

// The same at a place.
#[derive(Clone, Copy)]
pub struct NamedAt(pub &'static str, pub usize, pub u32);

// The values that are kept at a place, those that are not 0.
#[derive(Clone, Copy)]
pub struct Kept<'a>(pub usize, pub &'a [u32; step::VALUES]);

// The call at a place.
#[derive(Clone, Copy)]
pub struct CallAt<'a>(pub usize, pub &'a Call);

// A verdict up to its triple.
#[derive(Clone, Copy)]
pub struct Judged(pub Verdict);

impl fmt::Display for Named {
    fn fmt<W: fmt::Write>(&self, f: &mut fmt::Formatter<W>) -> fmt::Result {
        if self.1 == 0 {
            return Ok(());
        }
        write!(f, " {}={}", self.0, self.1)
    }
}

impl fmt::Display for NamedAt {
    fn fmt<W: fmt::Write>(&self, f: &mut fmt::Formatter<W>) -> fmt::Result {
        if self.2 == 0 {
            return Ok(());
        }
        write!(f, " {}{}={}", self.0, self.1, self.2)
    }
}

impl<'a> fmt::Display for Kept<'a> {
    fn fmt<W: fmt::Write>(&self, f: &mut fmt::Formatter<W>) -> fmt::Result {
        for (j, word) in self.1.iter().enumerate() {
            if *word != 0 {
                write!(f, " k{}.{j}={}", self.0, word.cast_signed())?;
            }
        }
        Ok(())
    }
}

impl<'a> fmt::Display for CallAt<'a> {
    fn fmt<W: fmt::Write>(&self, f: &mut fmt::Formatter<W>) -> fmt::Result {
        let number = NamedAt("n", self.0, u32::from(self.1.number));
        let unit = NamedAt("u", self.0, u32::from(self.1.unit));
        let entry = NamedAt("e", self.0, self.1.entry);
        let kept = Kept(self.0, &self.1.kept);
        write!(f, "{number}{unit}{entry}{kept}")
    }
}

impl fmt::Display for Judged {
    fn fmt<W: fmt::Write>(&self, f: &mut fmt::Formatter<W>) -> fmt::Result {
        write!(f, "violated {}", self.0.position)?;
        match self.0.cause {
            Cause::BadState(state) => write!(f, " state {state} triple -"),
            Cause::Triple(triple) => write!(f, " state - triple {triple}"),
            Cause::Both(state, triple) => write!(f, " state {state} triple {triple}"),
        }
    }
}
