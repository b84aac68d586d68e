// Runs of assignments: judging one by the grammar, and carrying one out.

ghost use Rattle.std.specs.Prelude.{◌≡◌, ◌+◌, ◌/◌, ◌%◌, ◌^◌, ◌<◌, ◌≤◌, true, length, take};
ghost use Rattle.condition.specs.Parse.{parse_action};
ghost use Rattle.condition.specs.Meaning.{environment};
ghost use Rattle.condition.specs.Answer.{most_variables, run_outcome, run_counted, done, performed_on, whether};
ghost use Rattle.condition.specs.Walk.{Cursor, ValueAt, SkipsAssignment, Assigns, ran, evaluated};

use crate::evaluate::C;
use crate::{Lent, VARIABLES, evaluate, front, skip};

// Carries out a whole run, in order: how much was evaluated of its values. A malformed one is none, and
// changes no variable.
pub(crate) fn run<'a>(
    s: &[u8],
    program: &'a [u32],
    variables: &mut [u32; VARIABLES],
    count: usize,
    kept: &'a [u32],
) -> Option<u32>
    requires { length s.now ≤ 65534 }
    ensures { (ran result ≡ done (run_outcome s.now (environment program.now (take count variables.old) kept.now))) × (variables.new ≡ performed_on count variables.old (run_outcome s.now (environment program.now (take count variables.old) kept.now))) × (evaluated result ≡ run_counted s.now (environment program.now (take count variables.old) kept.now)) }
{
    let before = *variables;
    let mut c = 0;
    while c % C < s.len() {
        c = assign(s, c, program, variables, count, kept);
    }
    if c % C == s.len() {
        Some((c / C) as u32)
    } else {
        *variables = before;
        None
    }
}

// Carries out the assignment at a cursor: the cursor behind it. What is counted is its value.
fn assign<'a>(
    s: &[u8],
    c: usize,
    program: &'a [u32],
    variables: &mut [u32; VARIABLES],
    count: usize,
    kept: &'a [u32],
) -> usize
    requires { (length s.now ≤ 65534) × ((c % 65536 < length s.now) × (c / 65536 ≤ c % 65536)) }
    ensures { Assigns (environment program.now (take count variables.old) kept.now) s.now (c % 65536) (c / 65536) (result % 65536) (result / 65536) count variables.old variables.new }
{
    let target = usize::from(s[c % C]);
    let r = value(s, c + 1, program, variables, count, kept);
    if target < count {} else {
        return s.len() + 1;
    }
    if target < VARIABLES {} else {
        return s.len() + 1;
    }
    variables[target] = (r % 4294967296) as u32;
    r / 4294967296
}

// The value at a cursor, over the first `count` of four monitor variables.
fn value<'a>(
    s: &[u8],
    c: usize,
    program: &'a [u32],
    variables: &'a [u32; VARIABLES],
    count: usize,
    kept: &'a [u32],
) -> usize
    requires { Cursor s.now c }
    ensures { (length variables.now ≡ most_variables) × ValueAt (environment program.now (take count variables.now) kept.now) s.now c (result / 2 ^ 32) (result % 2 ^ 32) }
{
    let monitor = front(&variables[..], count);
    let e = [program, monitor, kept];
    evaluate::value(&s, c, &e)
}

// Whether the bytes are exactly a run of assignments.
pub(crate) fn is_run(s: &[u8], lent: Lent) -> bool
    requires { length s.now ≤ 65535 }
    ensures { result ≡ whether (parse_action lent s.now) (λ _. true) }
{
    let mut at = 0;
    while at < s.len() {
        at = skip_assignment(s, at, lent);
    }
    at == s.len()
}

// The place behind the assignment at a place.
fn skip_assignment(s: &[u8], at: usize, lent: Lent) -> usize
    requires { (length s.now ≤ 65535) × (at < length s.now) }
    ensures { SkipsAssignment lent s.now at result }
{
    if usize::from(s[at]) < lent.monitors {
        skip::value(&s, at + 1, lent.programs, lent.monitors, lent.kept)
    } else {
        s.len() + 1
    }
}
