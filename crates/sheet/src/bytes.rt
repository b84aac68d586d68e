// Numbers in bytes, big-endian. A byte past the end reads as 0.

ghost use Rattle.std.specs.Prelude.{◌≡◌, ◌/◌, ◌^◌, ◌≤◌, ◌<◌, drop};
ghost use Rattle.sheet.specs.Bytes.{byte, half, word};
ghost use Rattle.sheet.specs.Decode.{wide, lead, said, text_form};

pub(crate) fn byte(s: &[u8], at: usize) -> u8
    ensures { result ≡ byte s.now at }
{
    if at < s.len() { s[at] } else { 0 }
}

pub(crate) fn number(s: &[u8], at: usize) -> usize
    ensures { (result ≡ byte s.now at) × (result < 256) }
{
    usize::from(byte(s, at))
}

// Two bytes.
pub(crate) fn half(s: &[u8], at: usize) -> usize
    requires { at ≤ 9000000000 }
    ensures { (result ≡ half s.now at) × (result < 65536) }
{
    number(s, at) * 256 + number(s, at + 1)
}

// Whether the lengths of conditions take two bytes.
pub(crate) fn has_wide(s: &[u8]) -> bool
    ensures { result ≡ wide s.now }
{
    number(s, 2) == 3
}

// How many bytes the length of a text takes.
pub(crate) fn lead(w: bool) -> usize
    ensures { (result ≡ lead w) × (result ≤ 2) }
{
    if w { 2 } else { 1 }
}

// The length of the text at a place.
pub(crate) fn said(s: &[u8], at: usize, w: bool) -> usize
    requires { at ≤ 9000000000 }
    ensures { (result ≡ said w (drop at s.now)) × (result < 65536) }
{
    if w { half(s, at) } else { number(s, at) }
}

// How many bytes the text at a place takes, with its length.
pub(crate) fn text_size(s: &[u8], at: usize, w: bool) -> usize
    requires { at ≤ 9000000000 }
    ensures { (result ≡ (text_form w).size (drop at s.now)) × (result ≤ 65537) }
{
    lead(w) + said(s, at, w)
}

// Four bytes.
pub(crate) fn word(s: &[u8], at: usize) -> u32
    requires { at ≤ 8000000000 }
    ensures { result ≡ word s.now at }
{
    (half(s, at) * 65536 + half(s, at + 2)) as u32
}

// The bit worth 2^q, and those above it, as a number.
pub(crate) fn shifted(mask: u32, q: u8) -> u32
    requires { mask < 65536 }
    ensures { result ≡ mask / 2 ^ q }
{
    if q < 32 { mask >> q } else { 0 }
}
