// The switch count W and the setter's entry count E of a network of n places: both by recursion on halves, W also from a
// table and by its closed formula. Each answer is equated with the recursive rule.
#![tactic(auto)]

ghost use Rattle.std.specs.Prelude.{◌≡◌, ◌≤◌};
ghost use Rattle.counts.specs.Counts.{W, E, L};
ghost use Rattle.counts.specs.Table.{StandsAt};

// The most places that a call takes, and the switches and the setter's entries of so many.
pub const MOST_PLACES: usize = 1024;

pub const MOST_SWITCHES: usize = 9217;

pub const MOST_ENTRIES: usize = 16381;

mod switch_table;

// The number at place n of a table.
fn read_table(table: &[u16; 1025], n: usize) -> usize
    requires { n ≤ 1024 }
    ensures { StandsAt table.now n result }
{
    usize::from(table[n])
}

// The table's switch count. Public for the crates of the calls only, each of which has asked question 1 before: so it
// `requires` n to be at most 1,024.
pub fn switches(n: usize) -> usize
    requires { n ≤ 1024 }
    ensures { (result ≡ W n) × (result ≤ 9217) }
{
    read_table(&switch_table::SWITCHES, n)
}

// The entry count, with a `requires` for the same reason. It is worked out from its rule and not read from a table (02, F-4:
// less read-only memory), so a call asks for it once.
pub fn entries(n: usize) -> usize
    requires { n ≤ 1024 }
    ensures { (result ≡ E n) × (result ≤ 16381) }
{
    entries_by_halves(n as u32) as usize
}

// W by its rule: the top and the bottom network, and one switch less than places.
pub fn switches_by_halves(n: u32) -> u64
    ensures { result ≡ W n }
{
    if n < 2 {
        return 0;
    }
    let k = n.div_ceil(2);
    let top = switches_by_halves(k);
    let bottom = switches_by_halves(n - k);
    u64::from(n - 1) + top + bottom
}

// E by its rule: the top and the bottom network, one place of each pair in the top, and three entries for each pair and
// three more.
// W and E keep a recursion each: the proof has one, over a rule, but a rule that is handed in would have to promise how large its
// sums get, and the two would be no plainer.
pub fn entries_by_halves(n: u32) -> u64
    ensures { result ≡ E n }
{
    if n < 2 {
        return 0;
    }
    if n == 2 {
        return 2;
    }
    let pairs = n.div_ceil(2);
    let top = entries_by_halves(pairs);
    let bottom = entries_by_halves(n - pairs);
    3 * u64::from(pairs) + 3 + top + bottom
}

// W by its closed formula n × L − 2^L + 1, with L the count of binary digits of n − 1. The 1 is added before 2^L is
// taken away: the other way round the difference would fall below 0 at n = 1.
pub fn switches_by_formula(n: u32) -> u64
    ensures { result ≡ W n }
{
    if n == 0 {
        return 0;
    }
    let l = digits(n - 1);
    u64::from(n) * l + 1 - (1u64 << l)
}

// L, the count of binary digits of x.
fn digits(x: u32) -> u64
    ensures { result ≡ L x }
{
    u64::from(u32::BITS - x.leading_zeros())
}
