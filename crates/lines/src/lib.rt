// The two lines that the program prints for its input.
#![tactic(auto)]

ghost use Rattle.std.specs.Prelude.{◌≡◌, ◌≤◌, ◌<◌, length};
ghost use Rattle.std.proofs.lemmas.List.Edits.{sets};
ghost use Rattle.step.specs.Answers.{run_paper};
ghost use Rattle.monitor.specs.Answers.{run_of};
ghost use Rattle.lines.specs.Lines.{sheet_size, network_run, lines_of};

use step::RunAnswer;

mod text;

// Writes the lines for an input at the front of the buffer, as much of them as there is room for,
// and answers how many bytes they have: at most 300.
pub fn lines(input: &[u8], out: &mut [u8]) -> usize
    ensures value { (result ≡ length (lines_of input.now)) × (result ≤ 300) }
    ensures out_after { out.new ≡ sets out.old 0 (lines_of input.now) }
{
    if 65536 < input.len() {
        return text::text(out, 0, b"too long\n");
    }
    let n = sheet_size(input);
    let sheet = &input[..n];
    let log = &input[n..];
    let next = text::line(out, 0, sheet_run(sheet, log));
    text::line(out, next, network_run(sheet, log))
}

// How many bytes of the input are the sheet.
fn sheet_size(input: &[u8]) -> usize
    ensures { (result ≡ sheet_size input.now) × (result ≤ length input.now) }
{
    if input.len() < 2 {
        return input.len();
    }
    let said = usize::from(u16::from_be_bytes([input[0], input[1]]));
    if said < input.len() {
        said
    } else {
        input.len()
    }
}

// Runs a log on a sheet; what it counts is not printed.
fn sheet_run(s: &[u8], log: &[u8]) -> RunAnswer
    ensures { run_paper result ≡ run_of s.now log.now }
{
    let ran = monitor::run(s, log);
    ran.answer
}

// Translates a sheet and runs a log on its network.
fn network_run(s: &[u8], log: &[u8]) -> RunAnswer
    ensures { run_paper result ≡ network_run s.now log.now }
{
    let mut buffer = [0u8; 8192];
    match translation::translate(s, &mut buffer) {
        Ok(n) => {
            let ran = network::run(&buffer[..n], log);
            ran.answer
        }
        Err(reason) => RunAnswer::Refused(reason),
    }
}
