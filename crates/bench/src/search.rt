// The least bytes that complete a condition, and the next ones after given bytes.

ghost use Rattle.std.specs.Prelude.{◌≡◌, ◌-◌, ◌≤◌, ◌<◌, IfSome, option_map, get_or, take, drop};
ghost use Rattle.std.proofs.lemmas.List.Edits.{sets};
ghost use Rattle.bench.specs.Walk.{Small, one_condition, least, completed, accepts, greater_at, following, stored};

use crate::parts::Pending;

// A byte that was found, and what is pending behind it.
#[derive(Clone, Copy)]
struct Found {
    byte: u8,
    pending: Pending,
}

// The least byte from `from` on behind which exactly k bytes can hold what is pending.
#[tactic(auto, using(crate::proofs::Searches::seek_on), unfolding(crate::specs::Walk::least, crate::specs::Walk::seek))]
fn least(p: Pending, k: usize, from: u8) -> Option<Found>
    requires { Small p × (k ≤ 8) }
    ensures is { result ≡ least p k from }
    ensures small { IfSome result (λ f. Small f.pending) }
{
    let (part, _) = p.split_first()?;
    for byte in from.max(part.lowest())..part.limit() {
        if let Some(pending) = p.onward(byte, k) {
            return Some(Found { byte, pending });
        }
    }
    None
}

// The bytes with the least that complete them from a place on.
#[tactic(auto, using(crate::proofs::Searches::completed_end, crate::proofs::Searches::completed_none, crate::proofs::Searches::completed_on))]
pub(crate) fn complete(bytes: [u8; 8], at: usize, n: usize, pending: Pending) -> Option<[u8; 8]>
    requires { (at ≤ n) × ((n ≤ 8) × Small pending) }
    ensures { result ≡ stored bytes at (completed (n - at) pending) }
{
    let mut out = bytes;
    let mut p = pending;
    for i in at..n {
        let found = least(p, n - 1 - i, 0)?;
        out[i] = found.byte;
        p = found.pending;
    }
    Some(out)
}

// Whether the first n bytes are a test condition.
#[tactic(auto, using(crate::proofs::Searches::accepts_end, crate::proofs::Searches::accepts_on))]
pub(crate) fn accepts(given: [u8; 8], n: usize) -> bool
    requires { n ≤ 8 }
    ensures { result ≡ accepts one_condition (take n given) }
{
    let mut p = Pending::one_condition();
    for i in 0..n {
        let Some(next) = p.onward(given[i], n - 1 - i) else {
            return false;
        };
        p = next;
    }
    p.fits(0)
}

// The next bytes of those that agree with the given ones up to a place, if there are some.
#[tactic(auto, using(crate::proofs::Searches::following_end, crate::proofs::Searches::following_stays, crate::proofs::Searches::following_rises, crate::proofs::Searches::following_lost))]
pub(crate) fn following(given: [u8; 8], at: usize, n: usize, p: Pending) -> Option<[u8; 8]>
    requires { (at ≤ n) × ((n ≤ 8) × Small p) }
    ensures { result ≡ stored given at (following p (drop at (take n given))) }
{
    if at == n {
        return None;
    }
    if let Some(next) = p.onward(given[at], n - 1 - at) {
        if let Some(bytes) = following(given, at + 1, n, next) {
            return Some(bytes);
        }
    }
    greater_at(given, at, n, p)
}

// The bytes with the least greater one at a place, and the least behind it.
#[tactic(auto, using(crate::proofs::Searches::greater_none))]
fn greater_at(given: [u8; 8], at: usize, n: usize, p: Pending) -> Option<[u8; 8]>
    requires { (at < n) × ((n ≤ 8) × Small p) }
    ensures { result ≡ stored given at (greater_at (n - 1 - at) p (get_or given at 0)) }
{
    let found = least(p, n - 1 - at, given[at].checked_add(1)?)?;
    let mut out = given;
    out[at] = found.byte;
    complete(out, at + 1, n, found.pending)
}
