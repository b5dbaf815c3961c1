// Looking and seeking in a row: the values of one network, gathered side by side. The numbers in the row, and p and a below, are
// hidden: no branch and no index depends on one. Each function is public for the crates of the calls, which have asked their
// questions before: so it may `require` sizes.
#![tactic(auto)]

ghost use Rattle.std.specs.Prelude.{◌≡◌, ℕ, ◌+◌, ◌*◌, ◌≤◌, ◌<◌, length};
ghost use Rattle.steps.specs.Sweeps.{look, seek};
ghost use Rattle.control_rows.specs.Rows.{sixteens, Gathered, Padded};

// How many places a row of m values takes: whole sixteens. No `next_multiple_of`: from this form the compiler knows that a sweep of
// them has no remainder.
pub fn sixteens(m: usize) -> usize
    requires { m ≤ 1024 }
    ensures { result ≡ sixteens m }
{
    (m + 15) / 16 * 16
}

// The m values whose places lie `apart` from each other, from o on, side by side; past them, up to a whole sixteen, a number
// that is no value.
pub fn gather(row: &mut [u16; 1024], xs: &[u16], o: usize, apart: usize, m: usize)
    requires { (m ≤ 1024) × ((i : ℕ) → i < m → o + i * apart < length xs.now) }
    ensures { Gathered (λ i. o + i * apart) m xs.now row.new × Padded m row.new }
{
    // told apart only so that the loop is compiled anew: of places side by side it takes several at a time
    if apart == 1 {
        fill(row, xs, o, 1, m);
    } else {
        fill(row, xs, o, apart, m);
    }
}

fn fill(row: &mut [u16; 1024], xs: &[u16], o: usize, apart: usize, m: usize)
    requires { (m ≤ 1024) × ((i : ℕ) → i < m → o + i * apart < length xs.now) }
    ensures { Gathered (λ i. o + i * apart) m xs.now row.new × Padded m row.new }
{
    for i in 0..m {
        row[i] = xs[o + i * apart];
    }
    row[m..sixteens(m)].fill(65535);
}

// The number at the hidden place p of the row's m. An imagined place is sought as 65,535, which no counter meets.
pub fn look_in(row: &[u16; 1024], m: usize, p: u16) -> u16
    requires { (0 < m) × (m ≤ 1024) × (p < 32768) }
    ensures { result ≡ look (λ i. i) m row.now p }
{
    let past = select::mask(select::at_least(p, m as u16));
    let q = p | past;
    let r = sixteens(m);
    // never so: it spares the compiled loop a way round it
    if r < 16 {
        return 0;
    }
    let mut g = 0u16;
    let mut c = 0u16; // no index as u16: a sweep would then take fewer places at a time
    for x in &row[..r] {
        g |= x & select::mask(u16::from(c == q));
        c += 1;
    }
    g | (p & past)
}

// The place of the hidden number a among the row's m: the highest that holds it.
pub fn seek_in(row: &[u16; 1024], m: usize, a: u16) -> u16
    requires { (0 < m) × (m ≤ 1024) × (a < 32768) × Padded m row.now }
    ensures { result ≡ seek (λ i. i) m row.now a }
{
    let r = sixteens(m);
    // never so, as above
    if r < 16 {
        return 0;
    }
    let mut best = 0u16;
    let mut c = 1u16;
    for x in &row[..r] {
        best = select::most(c & select::mask(u16::from(*x == a)), best);
        c += 1;
    }
    let found = select::at_least(best, 1);
    select::pick(found, best - found, a)
}
