// Refusal 8: at most four triples of one state and unit.

ghost use Rattle.std.specs.Prelude.{◌≡◌, true, ◌≤◌, leb};
ghost use Rattle.sheet.specs.Table.{table, every};
ghost use Rattle.sheet.specs.Decode.{triple_form};
ghost use Rattle.sheet.specs.Reading.{together};
ghost use Rattle.sheet.specs.Walk.{within};

use crate::records::triple;

// The most triples of one state and unit.
const MOST: u8 = 4;

// Whether none of n triples stands with more than three others: they are counted, by state and unit.
pub(crate) fn spread(s: &[u8], at: usize, n: usize) -> bool
    requires { (at ≤ 100000000) × (n ≤ 255) × (every within (table triple_form n s.now at) ≡ true) }
    ensures { result ≡ every (λ t. leb (together t (table triple_form n s.now at)) 4) (table triple_form n s.now at) }
{
    let mut counts = [0u8; 256];
    let mut place = at;
    for _ in 0..n {
        let t = triple(s, place);
        let cell = 16 * usize::from(t.state) + usize::from(t.unit);
        let count = &mut counts[cell];
        if *count == MOST {
            return false;
        }
        *count += 1;
        place += 4;
    }
    true
}
