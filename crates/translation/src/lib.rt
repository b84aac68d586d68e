// A sheet's network in either form, written into a lent buffer.
#![tactic(auto)]

ghost use Rattle.std.specs.Prelude.{◌≡◌};
ghost use Rattle.translation.specs.Answer.{translated_paper, translated_of, buffer_of, card_of, card_buffer_of};

use refusal::Refusal;

mod card;
mod write;

// Translates a sheet: writes its network at the front of the buffer, or nothing where it is refused, and
// answers how many bytes it has.
pub fn translate(s: &[u8], out: &mut [u8]) -> Result<usize, Refusal>
    ensures { (translated_paper result ≡ translated_of s.now out.old) × (out.new ≡ buffer_of s.now out.old) }
{
    sheet::read_sheet(s)?;
    write::translate(s, out)
}

// The same in the second form, version 3, for the card: the transitions of a state, kind and unit exclude
// each other.
pub fn translate_card(s: &[u8], out: &mut [u8]) -> Result<usize, Refusal>
    ensures { (translated_paper result ≡ card_of s.now out.old) × (out.new ≡ card_buffer_of s.now out.old) }
{
    sheet::read_sheet(s)?;
    card::translate(s, out)
}
