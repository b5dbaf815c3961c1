// The exchange of two lent blocks under one bit, in parts: of 32 bytes each, then of 8, 4, 2 and 1. The bit and the bytes are
// secret: every byte of both blocks is read and written, whatever the bit; no branch and no index depends on them. Public for the
// crate `apply_layers` only, whose callers have asked their questions before: so an exchange `requires` what they have settled.
#![tactic(auto)]

ghost use Rattle.std.specs.Prelude.{◌≡◌, ◌+◌, ◌*◌, ◌/◌, ◌%◌, ◌<◌, ◌≤◌, length};
ghost use Rattle.exchange_words.specs.Bytes.{bytes_switched};

// Exchanges 32 bytes from a on with those that lie `gap` further on where the bit s is 1: each byte gains or loses the masked
// difference of the two. They go through arrays of their own: so the compiler need not ask whether the two parts overlap, and
// takes 16 bytes at a time. (At 8 bytes and fewer it takes them one by one so, at two to eight times the instructions: hence the numbers of
// the crate `exchange_words`.)
fn exchange32(blocks: &mut [u8], a: usize, gap: usize, s: u8)
    requires { (s < 2) × (32 ≤ gap) × (a + gap + 32 ≤ length blocks.old) }
    ensures { blocks.new ≡ bytes_switched a gap s 32 blocks.old }
{
    let mask = s * 255;
    let mut y = [0u8; 32];
    let mut x = [0u8; 32];
    y.copy_from_slice(&blocks[a + gap..a + gap + 32]);
    x.copy_from_slice(&blocks[a..a + 32]);
    for j in 0..32 { // by index: zipped, the two are a third more instructions
        let q = y[j];
        let p = x[j];
        let d = q.wrapping_sub(p) & mask;
        y[j] = q.wrapping_sub(d);
        x[j] = p.wrapping_add(d);
    }
    blocks[a + gap..a + gap + 32].copy_from_slice(&y);
    blocks[a..a + 32].copy_from_slice(&x);
}

// The same of `whole` bytes, a number that 32 divides.
pub fn exchange_whole(blocks: &mut [u8], whole: usize, a: usize, gap: usize, s: u8)
    requires { (s < 2) × (whole % 32 ≡ 0) × (whole ≤ gap) × (a + gap + whole ≤ length blocks.old) }
    ensures { blocks.new ≡ bytes_switched a gap s whole blocks.old }
{
    let n = whole / 32;
    for j in 0..n {
        exchange32(blocks, a + 32 * j, gap, s);
    }
}

// ---- what is left of a width, by its binary digits. Each returns the place behind its bytes.

fn eights(blocks: &mut [u8], rest: usize, a: usize, gap: usize, s: u8) -> usize
    requires { (s < 2) × (rest ≤ gap) × (a + gap + rest ≤ length blocks.old) }
    ensures { (result ≡ a + 8 * (rest / 8)) × (blocks.new ≡ bytes_switched a gap s (8 * (rest / 8)) blocks.old) }
{
    let n = rest / 8;
    for j in 0..n {
        exchange_words::exchange::<8>(blocks, a + 8 * j, gap, s);
    }
    a + 8 * n
}

// N bytes, where that digit is 1.
fn digit<const N: usize>(blocks: &mut [u8], rest: usize, a: usize, gap: usize, s: u8) -> usize
    requires { (s < 2) × (N * (rest / N % 2) ≤ gap) × (a + gap + N * (rest / N % 2) ≤ length blocks.old) × (1 ≤ N) × (N ≤ 8) }
    ensures { (result ≡ a + N * (rest / N % 2))
        × (blocks.new ≡ bytes_switched a gap s (N * (rest / N % 2)) blocks.old) }
{
    if rest / N % 2 == 1 {
        exchange_words::exchange::<N>(blocks, a, gap, s);
        return a + N;
    }
    a
}

// Exchanges `rest` bytes.
pub fn exchange_rest(blocks: &mut [u8], rest: usize, a: usize, gap: usize, s: u8)
    requires { (s < 2) × (rest ≤ gap) × (a + gap + rest ≤ length blocks.old) }
    ensures { blocks.new ≡ bytes_switched a gap s rest blocks.old }
{
    let b = eights(blocks, rest, a, gap, s);
    let c = digit::<4>(blocks, rest, b, gap, s);
    let d = digit::<2>(blocks, rest, c, gap, s);
    let _ = digit::<1>(blocks, rest, d, gap, s);
}
