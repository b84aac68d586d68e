// Refusal 5: every condition and action is well formed; and 7 for actions.

ghost use Rattle.std.specs.Prelude.{◌≡◌, true, false, not, ◌≤◌};
ghost use Rattle.condition.specs.Tree.{action_names, is_at_entry};
ghost use Rattle.condition.specs.Answer.{condition_which, action_which};
ghost use Rattle.sheet.specs.Table.{table, every};
ghost use Rattle.sheet.specs.Decode.{text_form};

use crate::records::text;
use crate::table::{Texts, every};
use condition::Lent;

// Whether n texts are conditions.
pub(crate) fn conditions_formed(s: &[u8], at: usize, n: usize, lent: Lent, w: bool) -> bool
    requires { (at ≤ 100000000) × (n ≤ 255) }
    ensures { result ≡ every (condition_which (λ _. true) lent) (table (text_form w) n s.now at) }
{
    every(
        Texts { wide: w },
        s,
        at,
        n,
        |place| condition::is_condition(text(s, place, w), lent),
    )
}

// Whether n texts are actions.
pub(crate) fn actions_formed(s: &[u8], at: usize, n: usize, lent: Lent) -> bool
    requires { (at ≤ 100000000) × (n ≤ 255) }
    ensures { result ≡ every (action_which (λ _. true) lent) (table (text_form false) n s.now at) }
{
    every(
        Texts { wide: false },
        s,
        at,
        n,
        |place| condition::is_action(text(s, place, false), lent),
    )
}

// Whether none of n texts is an action with a value-at-entry.
pub(crate) fn actions_free(s: &[u8], at: usize, n: usize, lent: Lent) -> bool
    requires { (at ≤ 100000000) × (n ≤ 255) }
    ensures { result ≡ every (λ a. not (action_which (λ r. action_names r is_at_entry) lent a)) (table (text_form false) n s.now at) }
{
    every(
        Texts { wide: false },
        s,
        at,
        n,
        |place| !condition::action_has_entry(text(s, place, false), lent),
    )
}
