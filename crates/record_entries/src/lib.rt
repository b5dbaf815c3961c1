// The 1,024 entries of a permutation record, those past its length 0: the lists that they come to hold, and how many of them
// stay home. The calls on records keep no log, and 01 asks only of calls that do that no index depends on an entry: `combine`
// and `invert` index by one. What is required here, the questions of the record's calls ensure (crate records).
#![tactic(auto)]

ghost use Rattle.std.specs.Prelude.{◌≡◌, ◌+◌, ◌≤◌, ◌<◌, eqb, length, take};
ghost use Rattle.permutation.specs.Permutations.{IsPermutation, bit, identity, exchanged, combined, inverted};
ghost use Rattle.record_entries.specs.Entries.{padded};
ghost use Rattle.record_entries.specs.Fillings.{counted_of};

// Entries, with how many of them stay home.
#[derive(Clone, Copy)]
pub struct Counted {
    pub entries: [u16; 1024],
    pub fixed: usize,
}

// 0 .. n - 1. (The shuffle fills a lent slice so, in one loop of its own: sharing that loop would be no shorter.)
pub fn identity(n: usize) -> [u16; 1024]
    requires { n ≤ 1024 }
    ensures { result ≡ padded (identity n) }
{
    let mut e = [0u16; 1024];
    for (i, entry) in e[..n].iter_mut().enumerate() {
        *entry = i as u16;
    }
    e
}

pub fn of_list(list: &[u16]) -> Counted
    requires { length list.now ≤ 1024 }
    ensures { result ≡ counted_of list.now }
{
    let mut entries = [0u16; 1024];
    entries[..list.len()].copy_from_slice(list);
    Counted {
        entries,
        fixed: record_questions::fixed_points(list),
    }
}

pub fn exchange(mut entries: [u16; 1024], i: usize, j: usize) -> [u16; 1024]
    requires { (i < 1024) × (j < 1024) }
    ensures { result ≡ exchanged entries i j }
{
    entries.swap(i, j);
    entries
}

// How many entries stay home once x at place i and y at place j are exchanged, from how many do before.
pub fn fixed_exchanged(fixed: usize, i: usize, x: u16, j: usize, y: u16) -> usize
    requires { (fixed ≤ 1024) × (i < 1024) × (j < 1024)
        × (bit (eqb x i) + bit (eqb y j) ≤ fixed + (bit (eqb y i) + bit (eqb x j))) }
    ensures { result + (bit (eqb x i) + bit (eqb y j)) ≡ fixed + (bit (eqb y i) + bit (eqb x j)) }
{
    let come = record_questions::home(y, i) + record_questions::home(x, j);
    let gone = record_questions::home(x, i) + record_questions::home(y, j);
    fixed + usize::from(come) - usize::from(gone)
}

// First `first`, then `second`: entry i is second[first[i]].
pub fn combine(n: usize, first: &[u16; 1024], second: &[u16; 1024]) -> Counted
    requires { (n ≤ 1024) × IsPermutation n (take n first.now) }
    ensures { result ≡ counted_of (combined (take n first.now) (take n second.now)) }
{
    let mut entries = [0u16; 1024];
    for (i, x) in first[..n].iter().enumerate() {
        entries[i] = second[usize::from(*x)];
    }
    let fixed = record_questions::fixed_points(&entries[..n]);
    Counted { entries, fixed }
}

pub fn invert(n: usize, f: &[u16; 1024]) -> [u16; 1024]
    requires { (n ≤ 1024) × IsPermutation n (take n f.now) }
    ensures { result ≡ padded (inverted (take n f.now)) }
{
    let mut back = [0u16; 1024];
    for (i, x) in f[..n].iter().enumerate() {
        back[usize::from(*x)] = i as u16;
    }
    back
}
