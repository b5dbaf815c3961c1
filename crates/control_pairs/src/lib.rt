// The marks of a network's pairs and the bits of their input switches, in one table, so that one sweep marks a pair, keeps its
// bit and finds the lowest unmarked pair. The table, p, and the bits are hidden: no branch and no index depends on one. Each sweep
// takes whole sixteens of pairs: so the compiled loop has no remainder, which would take them one by one. Public for the crates of
// the steps; the call `set` has asked its questions before: so a function may `require` sizes.
#![tactic(auto)]

ghost use Rattle.std.specs.Prelude.{◌≡◌, ℕ, ◌+◌, ◌≤◌, ◌<◌, length, get_or};
ghost use Rattle.control_pairs.specs.Pairs.{Numbered, Unmarked, Settled, bits_in};

// No pair of k is marked.
pub fn unmark(pairs: &mut [u16], k: usize)
    requires { (k ≤ 512) × (512 ≤ length pairs.old) }
    ensures { Unmarked k pairs.new }
{
    let mut c = 0u16;
    for pair in &mut pairs[..control_rows::sixteens(k)] {
        *pair = c;
        c += 1;
    }
}

// Marks the hidden pair p of k with its bit, and finds the lowest pair that is then unmarked, or k.
pub fn settle(pairs: &mut [u16], k: usize, p: u16, bit: u16) -> u16
    requires { (0 < k) × (k ≤ 512) × (512 ≤ length pairs.old) × (p < 32768) × (bit < 2) × Numbered k pairs.old }
    ensures { Settled k p bit pairs.old pairs.new result }
{
    let r = control_rows::sixteens(k);
    if r < 16 { // never so: no short way is compiled
        return 0;
    }
    let v = p + 1024 + 2048 * bit;
    let mut low = k as u16;
    let mut c = 0u16;
    for pair in &mut pairs[..r] {
        *pair = select::pick(u16::from(c == p), v, *pair);
        low = select::least(low, *pair);
        c += 1;
    }
    low
}

// The n bits from b on become those of the marked pairs; an unmarked pair's bit is left. By index: pairs and bits at once.
pub fn give_bits(bits: &mut [u8], b: usize, n: usize, pairs: &[u16])
    requires { (n ≤ length pairs.now) × (b + n ≤ length bits.old) × ((i : ℕ) → i < n → get_or pairs.now i 0 < 4096) }
    ensures { bits.new ≡ bits_in b n pairs.now bits.old }
{
    for i in 0..n {
        let x = pairs[i];
        let old = u16::from(bits[b + i]);
        bits[b + i] = select::pick(select::below(x, 1024), old, x / 2048) as u8;
    }
}
