// Question 6 of a list of entries, with the laws of permutations.
#![tactic(auto)]

ghost use Rattle.std.specs.Prelude.{◌≡◌, ◌&&◌, ◌+◌, ◌≤◌, ◌<◌, eqb, length};
ghost use Rattle.permutation.specs.Permutations.{bit, matches, first_bad_entry};

// ---- question 6. The entries are secret: no branch and no index below depends on one. The caller decides, once.

// How many of some entries are x, in 16 bits so that the loop takes several entries at a time.
fn count_matches(entries: &[u16], x: u16) -> u16
    requires { length entries.now ≤ 1024 }
    ensures { result ≡ matches entries.now (length entries.now) x }
{
    let mut c = 0u16;
    for entry in entries {
        c += u16::from(*entry == x);
    }
    c
}

// The first bad index below i + 1, from the one below i and whether index i is good. Public only for question 6 of a record.
pub fn sweep(low: usize, i: usize, good: bool) -> usize
    requires { low < 1024 }
    ensures { result ≡ low + bit (good && eqb low i) }
{
    low + usize::from(good & (low == i))
}

// The first bad index of a list, or its length. Public only because other crates ask question 6 by it; that there are at
// most 1,024 entries is question 1, which each caller asks before.
pub fn first_bad_entry(order: &[u16]) -> usize
    requires { length order.now ≤ 1024 }
    ensures { result ≡ first_bad_entry order.now }
{
    let n = order.len();
    let mut low = 0;
    for (i, x) in order.iter().enumerate() {
        let c = count_matches(&order[..i], *x);
        low = sweep(low, i, (usize::from(*x) < n) & (c == 0));
    }
    low
}
