// Small oblivious functions on tables. The numbers in the tables are hidden: no branch and no index depends on one. Each function
// sweeps all the places that it is given, by index, since they lie at a distance, and selects by arithmetic. Every function is
// public for the crates of the calls, which have asked their questions before: so it may `require` sizes.
#![tactic(auto)]

ghost use Rattle.std.specs.Prelude.{◌≡◌, false, ◌+◌, ◌*◌, ◌%◌, ◌≤◌, length, get_or};
ghost use Rattle.network.specs.Network.{down};
ghost use Rattle.steps.specs.Sweeps.{each, act};
ghost use Rattle.wirings.specs.Nets.{net_of, place_of, side_of, stepped};
ghost use Rattle.control_sweeps.specs.Tables.{Below, Within, Covers, Reaches, Parted, Joined};

// n switches on the pairs that lie `step` from each other, from o on, under the bits from b on: they act on both tables. Step and gap are
// numbers of their own, so that step can be the constant 1.
#[tactic(auto, using(crate::proofs::Places::pair_here))]
fn act_by(
    vals: &mut [u16],
    trails: &mut [u16],
    o: usize,
    step: usize,
    gap: usize,
    n: usize,
    bits: &[u8],
    b: usize,
)
    requires { Reaches o step gap n vals.old × Reaches o step gap n trails.old × (b + n ≤ length bits.now) × Below 2 bits.now }
    ensures { (vals.new ≡ act (stepped o step gap) bits.now b n vals.old)
        × (trails.new ≡ act (stepped o step gap) bits.now b n trails.old) }
{
    for i in 0..n {
        let s = u16::from(bits[b + i]);
        let p = o + i * step;
        let q = p + gap;
        let x = vals[p];
        let y = vals[q];
        vals[p] = select::pick(s, y, x);
        vals[q] = select::pick(s, x, y);
        let t = trails[p];
        let u = trails[q];
        trails[p] = select::pick(s, u, t);
        trails[q] = select::pick(s, t, u);
    }
}

// The switches of the network's first n pairs act. Places side by side are told apart from others, here and below, only so that the
// loop is compiled anew for them: it then takes several at a time.
pub fn act_on(
    vals: &mut [u16],
    trails: &mut [u16],
    net: wirings::Net,
    n: usize,
    bits: &[u8],
    b: usize,
)
    requires { (2 ≤ net.size) × Covers net vals.old × Covers net trails.old × (n ≤ down net.size) × (b + n ≤ length bits.now)
        × Below 2 bits.now }
    ensures { (vals.new ≡ act (λ p. place_of net (side_of net p)) bits.now b n vals.old)
        × (trails.new ≡ act (λ p. place_of net (side_of net p)) bits.now b n trails.old) }
{
    let spacing = net.spacing();
    let step = spacing.step;
    if step == 1 {
        act_by(vals, trails, net.start, 1, spacing.gap, n, bits, b);
    } else {
        act_by(vals, trails, net.start, step, spacing.gap, n, bits, b);
    }
}

// The n bits from b become the last bits of the trails that lie `step` from each other, from o on.
#[tactic(auto, using(crate::proofs::Places::pair_here))]
fn last_by(bits: &mut [u8], b: usize, n: usize, trails: &[u16], o: usize, step: usize)
    requires { Reaches o step 0 n trails.now × (b + n ≤ length bits.old) }
    ensures { bits.new ≡ each (λ i. b + i) n (λ i x. get_or trails.now (o + i * step) 0 % 2) bits.old }
{
    for i in 0..n {
        bits[b + i] = (trails[o + i * step] % 2) as u8;
    }
}

// The n bits from b become the last bits of the trails at the first places of the network's first n pairs.
pub fn last_bits(bits: &mut [u8], b: usize, n: usize, trails: &[u16], net: wirings::Net)
    requires { (2 ≤ net.size) × Covers net trails.now × (n ≤ down net.size) × (b + n ≤ length bits.old) }
    ensures { bits.new ≡ each (λ i. b + i) n (λ i x. get_or trails.now (place_of net (side_of net (i, false))) 0 % 2)
        bits.old }
{
    let step = net.spacing().step;
    if step == 1 {
        last_by(bits, b, n, trails, net.start, 1);
    } else {
        last_by(bits, b, n, trails, net.start, step);
    }
}

// Each value of the m places from o keeps its pair of k, and its trail gains its side.
#[tactic(auto, using(crate::proofs::Places::here))]
fn split_by(
    vals: &mut [u16],
    trails: &mut [u16],
    t: wirings::Topology,
    o: usize,
    apart: usize,
    m: usize,
    k: u16,
)
    requires { (k ≤ 1024) × Covers (net_of t o m apart) vals.old × Covers (net_of t o m apart) trails.old
        × Within (place_of (net_of t o m apart)) m 32768 vals.old × Within (place_of (net_of t o m apart)) m 32768 trails.old }
    ensures { Parted (net_of t o m apart) k vals.old trails.old vals.new trails.new }
{
    for i in 0..m {
        let p = o + i * apart;
        let v = vals[p];
        let trail = trails[p];
        trails[p] = trail * 2 + control_sides::side_of(t, k, v);
        vals[p] = control_sides::pair_of(t, k, v);
    }
}

// Step 5's sweep of the network's places.
pub fn split_values(vals: &mut [u16], trails: &mut [u16], net: wirings::Net, k: u16)
    requires { (k ≤ 1024) × Covers net vals.old × Covers net trails.old × Within (place_of net) net.size 32768 vals.old
        × Within (place_of net) net.size 32768 trails.old }
    ensures { Parted net k vals.old trails.old vals.new trails.new }
{
    let t = net.topology;
    let apart = net.apart;
    if apart == 1 {
        split_by(vals, trails, t, net.start, 1, net.size, k);
    } else {
        split_by(vals, trails, t, net.start, apart, net.size, k);
    }
}

// Each value of the m places from o is again what it was among k pairs, by the last bit of its trail, which its trail loses.
#[tactic(auto, using(crate::proofs::Places::here))]
fn join_by(
    vals: &mut [u16],
    trails: &mut [u16],
    t: wirings::Topology,
    o: usize,
    apart: usize,
    m: usize,
    k: u16,
)
    requires { (k ≤ 1024) × Covers (net_of t o m apart) vals.old × Covers (net_of t o m apart) trails.old
        × Within (place_of (net_of t o m apart)) m 32768 vals.old }
    ensures { Joined (net_of t o m apart) k vals.old trails.old vals.new trails.new }
{
    for i in 0..m {
        let p = o + i * apart;
        let trail = trails[p];
        vals[p] = control_sides::value_of(t, k, vals[p], trail % 2);
        trails[p] = trail / 2;
    }
}

// Step 6's sweep of the network's places: a function like step 5's, since one that took the sweep would have to promise what that does.
pub fn join_values(vals: &mut [u16], trails: &mut [u16], net: wirings::Net, k: u16)
    requires { (k ≤ 1024) × Covers net vals.old × Covers net trails.old × Within (place_of net) net.size 32768 vals.old }
    ensures { Joined net k vals.old trails.old vals.new trails.new }
{
    let t = net.topology;
    let apart = net.apart;
    if apart == 1 {
        join_by(vals, trails, t, net.start, 1, net.size, k);
    } else {
        join_by(vals, trails, t, net.start, apart, net.size, k);
    }
}
