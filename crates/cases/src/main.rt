// Runs framed inputs from standard input through the function that the program `watch` calls, and
// prints the lines of each. reference/CASES.md has the format.
#![tactic(auto)]

use frames::{Frame, Frames, Reader};
use std::io;
use std::io::{BufWriter, Read, Write};

// The most zeros that an input may be: one more than the longest input that is judged.
const ZEROS: usize = 65537;

// An input, or that it is so many zeros.
#[derive(Drop)]
enum Case<'a> {
    Input(&'a [u8]),
    Zeros(u32),
}

impl<'a> Frame<'a> for Case<'a> {
    fn read(page: &mut Reader<'a>) -> Option<Case<'a>> {
        match page.byte()? {
            0 => {
                let size = page.short()?;
                Some(Case::Input(page.part(usize::from(size))?))
            }
            1 => {
                let [high, middle, low] = page.array::<3>()?;
                Some(Case::Zeros(u32::from_be_bytes([0, high, middle, low])))
            }
            _ => None,
        }
    }
}

// Reads at most 64 pages of frames, and answers one after the other.
fn main(rt: HostRuntime) -> io::Result<()> {
    let mut input = Vec::new(rt.alloc());
    rt.stdin().take(frames::INPUT).read_to_end(&mut input)?;
    let mut out = BufWriter::new(rt.alloc(), rt.stdout())?;
    for page in input.chunks(frames::PAGE) {
        for case in Frames::<Case>::new(page) {
            answer(&mut out, case)?;
        }
    }
    out.flush()
}

// Of too many zeros there are none.
fn answer<W: Write>(out: &mut W, case: Case) -> io::Result<()> {
    match case {
        Case::Input(input) => print_lines(out, input),
        Case::Zeros(n) => print_lines(out, [0; ZEROS].get(..n as usize).unwrap_or(&[])),
    }
}

fn print_lines<W: Write>(out: &mut W, input: &[u8]) -> io::Result<()> {
    let mut room = [0; 300];
    let n = lines::lines(input, &mut room);
    out.write_all(&room[..n])
}
