// Big-endian numbers in a lent slice, and parts of a slice copied, moved and cleared.
//
// Nothing here knows what the bytes are for. Whoever writes says by `replaced` which bytes took the place of which; all others stay.
// A number is read and written by one function for every width, so that its proof is one proof. Only the numbers of four and of eight bytes, as every row has them, are read so that the compiler makes one load of each.
#![tactic(auto)]

ghost use Rattle.std.specs.Prelude.{◌≡◌, ◌++◌, ◌+◌, ◌≤◌, ◌<◌, ◌^◌, length, replicate};
ghost use Rattle.wire.specs.Parts.{part, replaced};
ghost use Rattle.wire.specs.Numbers.{number_at, bytes};

// What the high half of an 8-byte number counts: 256 to the fourth.
const HALF: u64 = 0x1_0000_0000;

// The number in the `width` bytes from `at`. The bound is there for callers that keep it in a narrower type.
pub fn number_at(s: &[u8], at: usize, width: usize) -> u64
    requires { (width ≤ 8) × (at + width ≤ length s.now) }
    ensures { (result ≡ number_at s.now at width) × (result < 256 ^ width) }
{
    let mut x: u64 = 0;
    for b in &s[at..at + width] {
        x = x * 256 + u64::from(*b);
    }
    x
}

// The numbers of one, two, four and eight bytes, each in its own type. They stay side by side, since a trait over the types would need the same bodies as its methods.
pub fn u8_at(s: &[u8], at: usize) -> u8
    requires { at + 1 ≤ length s.now }
    ensures { result ≡ number_at s.now at 1 }
{
    number_at(s, at, 1) as u8
}

pub fn u16_at(s: &[u8], at: usize) -> u16
    requires { at + 2 ≤ length s.now }
    ensures { result ≡ number_at s.now at 2 }
{
    number_at(s, at, 2) as u16
}

#[tactic(auto, using(crate::proofs::Numbers::four_read))]
pub fn u32_at(s: &[u8], at: usize) -> u32
    requires { at + 4 ≤ length s.now }
    ensures { result ≡ number_at s.now at 4 }
{
    u32::from_be_bytes([s[at], s[at + 1], s[at + 2], s[at + 3]])
}

// In two halves: by `from_be_bytes` of all eight bytes a walk over rows took an instruction more for each row.
#[tactic(auto, using(crate::proofs::Numbers::two_halves))]
pub fn u64_at(s: &[u8], at: usize) -> u64
    requires { at + 8 ≤ length s.now }
    ensures { result ≡ number_at s.now at 8 }
{
    number_at(s, at, 4) * HALF + number_at(s, at + 4, 4)
}

// Writes `x` into the `width` bytes from `at`, the last byte first.
#[tactic(auto, using(crate::proofs::Turns::put_turn, crate::proofs::Turns::put_below, crate::proofs::Turns::put_none))]
pub fn put_number(s: &mut [u8], at: usize, width: usize, x: u64)
    requires { (at + width ≤ length s.old) × (x < 256 ^ width) }
    ensures { s.new ≡ replaced s.old at (bytes width x) }
{
    let mut rest = x;
    for i in (0..width).rev() {
        s[at + i] = (rest % 256) as u8;
        rest /= 256;
    }
}

// A number of each type takes as many bytes as the type has, so that it always fits.
pub fn put_u8(s: &mut [u8], at: usize, x: u8)
    requires { at + 1 ≤ length s.old }
    ensures { s.new ≡ replaced s.old at (bytes 1 x) }
{
    put_number(s, at, 1, u64::from(x))
}

pub fn put_u16(s: &mut [u8], at: usize, x: u16)
    requires { at + 2 ≤ length s.old }
    ensures { s.new ≡ replaced s.old at (bytes 2 x) }
{
    put_number(s, at, 2, u64::from(x))
}

pub fn put_u32(s: &mut [u8], at: usize, x: u32)
    requires { at + 4 ≤ length s.old }
    ensures { s.new ≡ replaced s.old at (bytes 4 x) }
{
    put_number(s, at, 4, u64::from(x))
}

pub fn put_u64(s: &mut [u8], at: usize, x: u64)
    requires { at + 8 ≤ length s.old }
    ensures { s.new ≡ replaced s.old at (bytes 8 x) }
{
    put_number(s, at, 8, x)
}

// Four numbers of a byte each, side by side, as arguments: whoever writes them has four fields in hand.
#[tactic(auto, using(crate::proofs::Numbers::four_bytes))]
pub fn put_four_u8(s: &mut [u8], at: usize, a: u8, b: u8, c: u8, d: u8)
    requires { at + 4 ≤ length s.old }
    ensures { s.new ≡ replaced s.old at (bytes 1 a ++ (bytes 1 b ++ (bytes 1 c ++ bytes 1 d))) }
{
    copy_part(&[a, b, c, d], s, at)
}

// Copies a lent part, whole, into another slice from `at`. Byte by byte: `copy_from_slice` was tried and took half as long again for a whole image.
#[tactic(auto, using(crate::proofs::Turns::copy_turn, crate::proofs::Turns::copy_end))]
pub fn copy_part(src: &[u8], dst: &mut [u8], at: usize)
    requires { at + length src.now ≤ length dst.old }
    ensures { dst.new ≡ replaced dst.old at src.now }
{
    for (i, b) in src.iter().enumerate() {
        dst[at + i] = *b;
    }
}

// Moves the `n` bytes at `from` to `to` inside one slice, up or down; the two places may overlap.
#[tactic(auto, using(crate::proofs::Parts::part_moved))]
pub fn move_part(s: &mut [u8], from: usize, to: usize, n: usize)
    requires { (from + n ≤ length s.old) × (to + n ≤ length s.old) }
    ensures { s.new ≡ replaced s.old to (part s.old from n) }
{
    s.copy_within(from..from + n, to);
}

// Sets the `n` bytes from `at` to zero.
#[tactic(auto, using(crate::proofs::Parts::part_cleared))]
pub fn clear_part(s: &mut [u8], at: usize, n: usize)
    requires { at + n ≤ length s.old }
    ensures { s.new ≡ replaced s.old at (replicate n 0) }
{
    s[at..at + n].fill(0);
}
