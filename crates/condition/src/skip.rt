// Passing over a condition or a value by the grammar alone: the place behind it, or one past the
// end where the bytes there are none, or name a variable that is not lent. How many values are lent goes
// along as three numbers: a struct by value gives each call a frame, also for the last operand, and one by
// reference took half as long again over nested conditions (docs/LOOK-BACK.md, c1 and d1).

ghost use Rattle.std.specs.Prelude.{◌≡◌, ◌+◌, ◌<◌, ◌≤◌, length};
ghost use Rattle.condition.specs.Walk.{Skips, condition_reader, value_reader, lent_of, literal_end, variable_end, EndTried, LeafSkipped};

#[cycle(condition_value)]
pub(crate) fn condition(s: &&[u8], at: usize, p: usize, m: usize, k: usize) -> usize
    requires { (length s.now.now ≤ 65535) × (at ≤ length s.now.now + 1) }
    ensures { Skips (condition_reader (lent_of p m k)) s.now.now at result }
{
    if at < s.len() {} else {
        return s.len() + 1;
    }
    match s[at] {
        0 => at + 1,
        1 => condition(s, at + 1, p, m, k),
        2 => condition(s, condition(s, at + 1, p, m, k), p, m, k),
        3 => condition(s, condition(s, at + 1, p, m, k), p, m, k),
        4 | 5 => {
            let l = leaf(s, at + 1, p, m, k);
            let next = if l == 0 { value(s, at + 1, p, m, k) } else { l };
            value(s, next, p, m, k)
        }
        6 => {
            let l = leaf(s, at + 1, p, m, k);
            let next = if l == 0 { value(s, at + 1, p, m, k) } else { l };
            let last = value(s, next, p, m, k);
            value(s, last, p, m, k)
        }
        _ => s.len() + 1,
    }
}

#[cycle(condition_value)]
pub(crate) fn value(s: &&[u8], at: usize, p: usize, m: usize, k: usize) -> usize
    requires { (length s.now.now ≤ 65535) × (at ≤ length s.now.now + 1) }
    ensures { Skips (value_reader (lent_of p m k)) s.now.now at result }
{
    if at < s.len() {} else {
        return s.len() + 1;
    }
    match s[at] {
        20 | 21 => {
            let l = leaf(s, at + 1, p, m, k);
            let next = if l == 0 { value(s, at + 1, p, m, k) } else { l };
            value(s, next, p, m, k)
        }
        22 => {
            let next = condition(s, at + 1, p, m, k);
            let last = value(s, next, p, m, k);
            value(s, last, p, m, k)
        }
        _ => {
            let l = leaf(s, at, p, m, k);
            if l == 0 { s.len() + 1 } else { l }
        }
    }
}

// The place behind a constant or a variable, without the cost of a recursive call; 0, which is
// behind nothing, where there is none.
fn leaf(s: &&[u8], at: usize, p: usize, m: usize, k: usize) -> usize
    requires { (length s.now.now ≤ 65535) × (at ≤ length s.now.now + 1) }
    ensures { LeafSkipped (lent_of p m k) s.now.now at result }
{
    if at + 1 < s.len() {} else {
        return 0;
    }
    match s[at] {
        16 => literal(s, at),
        17 => variable(s, at, p),
        18 => variable(s, at, m),
        19 => variable(s, at, k),
        _ => 0,
    }
}

// The place behind the four bytes that follow `at`; 0 where there are fewer.
fn literal(s: &&[u8], at: usize) -> usize
    requires { (length s.now.now ≤ 65535) × (at < length s.now.now) }
    ensures { EndTried s.now.now (literal_end s.now.now at) result }
{
    if at + 5 <= s.len() { at + 5 } else { 0 }
}

// The place behind the variable's number that follows `at`; 0 where it is not below `limit`.
fn variable(s: &&[u8], at: usize, limit: usize) -> usize
    requires { (length s.now.now ≤ 65535) × (at + 1 < length s.now.now) }
    ensures { EndTried s.now.now (variable_end s.now.now at limit) result }
{
    if usize::from(s[at + 1]) < limit {
        at + 2
    } else {
        0
    }
}
