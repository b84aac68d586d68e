// Logs: refusals 16 to 18, and records.

ghost use Rattle.std.specs.Prelude.{◌≡◌, ◌≤◌, drop};
ghost use Rattle.sheet.specs.Table.{fit, table};
ghost use Rattle.sheet.specs.Decode.{word_form};
ghost use Rattle.sheet.specs.Log.{log_reading, records_in};
ghost use Rattle.sheet.specs.Answer.{log_paper, read_of, record_of};

use crate::bytes::{byte, half, number};
use crate::table::{Words, numbers};
use crate::{Record, bytes, records};
use refusal::Refusal;

pub(crate) fn read(s: &[u8], programs: usize) -> Result<usize, Refusal>
    requires { programs ≤ 255 }
    ensures { log_paper result ≡ read_of (log_reading programs s.now) (records_in programs s.now) }
{
    let said = bytes::word(s, 0) as usize;
    let version = number(s, 4);
    let lent = number(s, 5);
    if (6 <= s.len()) & ((said == s.len()) & (version == 1)) {} else {
        return Err(Refusal::LogHead);
    }
    if lent == programs {} else {
        return Err(Refusal::LogPrograms);
    }
    let size = 4 + 4 * programs;
    let rest = s.len() - 6;
    if rest % size == 0 {
        Ok(rest / size)
    } else {
        Err(Refusal::LogRecords)
    }
}

pub(crate) fn record(s: &[u8], at: usize) -> Record
    requires { at ≤ 8000000000 }
    ensures { result ≡ record_of (drop at s.now) }
{
    Record {
        kind: byte(s, at),
        unit: byte(s, at + 1),
        number: half(s, at + 2) as u16,
    }
}

pub(crate) fn words(s: &[u8], at: usize, n: usize) -> [u32; 8]
    requires { (at ≤ 7000000000) × (n ≤ 255) }
    ensures { result ≡ fit 8 0 (table word_form n s.now at) }
{
    numbers(Words, s, at, n, |place| records::word(s, place))
}
