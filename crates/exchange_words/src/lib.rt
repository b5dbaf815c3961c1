// The exchange of 1, 2, 4 or 8 bytes of two lent blocks under one bit, as one number each. The bit and the bytes are secret: every
// byte is read and written, whatever the bit; no branch and no index depends on them. Public for the crate `exchange_blocks` only,
// whose callers have asked their questions before: so an exchange `requires` what they have settled.
#![tactic(auto)]

ghost use Rattle.std.specs.Prelude.{◌≡◌, ◌+◌, ◌<◌, ◌≤◌, length};
ghost use Rattle.exchange_words.specs.Bytes.{bytes_switched};
ghost use Rattle.exchange_words.specs.Words.{number, byte_of, from, written, pick};

// The number of the N bytes from `at` on, low byte first. So the compiler sees one load, and in `put` one store.
fn number<const N: usize>(bytes: &[u8], at: usize) -> u64
    requires { (N ≤ 8) × (at + N ≤ length bytes.now) }
    ensures { result ≡ number N (from at bytes.now) }
{
    let mut part = [0u8; 8];
    part[..N].copy_from_slice(&bytes[at..at + N]);
    u64::from_le_bytes(part)
}

// The N bytes from `at` on become the lowest of v's.
fn put<const N: usize>(bytes: &mut [u8], at: usize, v: u64)
    requires { (N ≤ 8) × (at + N ≤ length bytes.old) }
    ensures { bytes.new ≡ written N at (λ j. byte_of j v) bytes.old }
{
    let part = v.to_le_bytes();
    bytes[at..at + N].copy_from_slice(&part[..N]);
}

#[derive(Clone, Copy)]
struct Two {
    lower: u64,
    upper: u64,
}

// Two numbers, exchanged where the bit s is 1: one gains and the other loses their masked difference.
fn switched(x: u64, y: u64, s: u8) -> Two
    requires { s < 2 }
    ensures { (result.lower ≡ pick s x y) × (result.upper ≡ pick s y x) }
{
    let mask = u64::from(s) * 18446744073709551615;
    let d = y.wrapping_sub(x) & mask;
    Two {
        lower: x.wrapping_add(d),
        upper: y.wrapping_sub(d),
    }
}

// Exchanges the N bytes from a on with those that lie `gap` further on where the bit s is 1. That s is below 2 each exchange asks for
// itself: a type for it would be made of a lent byte in two loops, each asked the same, and taken apart again here.
pub fn exchange<const N: usize>(blocks: &mut [u8], a: usize, gap: usize, s: u8)
    requires { (N ≤ 8) × (s < 2) × (N ≤ gap) × (a + gap + N ≤ length blocks.old) }
    ensures { blocks.new ≡ bytes_switched a gap s N blocks.old }
{
    let y = number::<N>(blocks, a + gap);
    let x = number::<N>(blocks, a);
    let w = switched(x, y, s);
    put::<N>(blocks, a + gap, w.upper);
    put::<N>(blocks, a, w.lower);
}
