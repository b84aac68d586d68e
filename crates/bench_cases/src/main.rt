// Runs framed calls of the two operations on test conditions from standard input, and prints the
// answer of each with its eight bytes. reference/CASES.md has the format of the frames and lines.
#![tactic(auto)]

use frames::{Frame, Frames, Reader};
use refusal::Refusal;
use std::io;
use std::io::{BufWriter, Read, Write};

// The most lines of a walk.
const LINES: usize = 1000;

// What is asked of the conditions of so many bytes: all in order, the first, or the one after another.
#[derive(Drop)]
enum Case {
    Walk(u8),
    First(u8),
    Next(u8, [u8; 8]),
}

impl<'a> Frame<'a> for Case {
    fn read(page: &mut Reader<'a>) -> Option<Case> {
        match page.byte()? {
            0 => Some(Case::Walk(page.byte()?)),
            1 => Some(Case::First(page.byte()?)),
            2 => Some(Case::Next(page.byte()?, page.array()?)),
            _ => None,
        }
    }
}

// Reads at most 64 pages of frames, and answers one after the other.
fn main(rt: HostRuntime) -> io::Result<()> {
    let mut input = Vec::new(rt.alloc());
    rt.stdin().take(frames::INPUT).read_to_end(&mut input)?;
    let mut out = BufWriter::new(rt.alloc(), rt.stdout())?;
    for page in input.chunks(frames::PAGE) {
        for case in Frames::<Case>::new(page) {
            answer(&mut out, case)?;
        }
    }
    out.flush()
}

fn answer<W: Write>(out: &mut W, case: Case) -> io::Result<()> {
    match case {
        Case::Walk(n) => walk(out, n),
        Case::First(n) => print_answer(out, bench::first(n).map(Some)),
        Case::Next(n, given) => print_answer(out, bench::next(n, given)),
    }
}

// The first condition and, from each, the next, to the line that says there is none.
fn walk<W: Write>(out: &mut W, n: u8) -> io::Result<()> {
    let mut answer = bench::first(n).map(Some);
    for _ in 0..LINES {
        print_answer(out, answer)?;
        let Ok(Some(bytes)) = answer else {
            return Ok(());
        };
        answer = bench::next(n, bytes);
    }
    Ok(())
}

// An answer of either operation, and a space and two digits for each of its eight bytes, zeros where it
// gives none.
fn print_answer<W: Write>(out: &mut W, answer: Result<Option<[u8; 8]>, Refusal>) -> io::Result<()> {
    match answer {
        Ok(Some(_)) => write!(out, "is")?,
        Ok(None) => write!(out, "none")?,
        Err(refusal) => write!(out, "{refusal}")?,
    }
    let bytes = answer.ok().flatten().unwrap_or([0; 8]);
    for byte in &bytes {
        write!(out, " {byte:02x}")?;
    }
    writeln!(out)
}
