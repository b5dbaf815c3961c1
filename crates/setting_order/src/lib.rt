// The setting of an order and the order of a setting, in each wiring, for the crates that keep no log. Each function `requires` that
// the questions of the call behind it get a yes.
#![tactic(auto)]

ghost use Rattle.std.specs.Prelude.{◌≡◌, ◌+◌, ◌*◌, ◌≤◌, length};
ghost use Rattle.answers.specs.Buffers.{overlay};
ghost use Rattle.bits.specs.Bits.{Bits};
ghost use Rattle.counts.specs.Counts.{W, E};
ghost use Rattle.network.specs.Wiring.{paper};
ghost use Rattle.network.specs.Blocks.{order_of};
ghost use Rattle.permutation.specs.Permutations.{IsPermutation, tabulate, first_bad_entry};
ghost use Rattle.steps.specs.Setting.{setting_for};
ghost use Rattle.wirings.specs.Nets.{wiring_of};
ghost use Rattle.setting_order.specs.Inner.{number_in, Numbered};

use wirings::Topology;

// The canonical setting of an order in the paper's wiring, in all of bits, and the number of entries that the setter logged.
pub fn setting_of_order(order: &[u16], bits: &mut [u8]) -> usize
    requires { (length order.now ≤ 1024) × (first_bad_entry order.now ≡ length order.now)
        × (length bits.old ≡ W (length order.now)) }
    ensures { (result ≡ E (length order.now)) × (bits.new ≡ setting_for paper order.now) }
{
    setting_of_order_in(Topology::Paper, order, bits)
}

// The same in the wiring t; the setter's log is kept aside.
pub fn setting_of_order_in(t: Topology, order: &[u16], bits: &mut [u8]) -> usize
    requires { (length order.now ≤ 1024) × IsPermutation (length order.now) order.now
        × (length bits.old ≡ W (length order.now)) }
    ensures { (result ≡ E (length order.now)) × (bits.new ≡ setting_for (wiring_of t) order.now) }
{
    let mut log = [0u16; entry_log::MOST_SET_WORDS];
    setter::set_order_in(t, order, bits, &mut log)
}

// The order that a setting of the paper's wiring carries, over the front of `order`.
pub fn order_of_setting(n: usize, bits: &[u8], order: &mut [u16; 1024])
    requires { (n ≤ 1024) × (W n ≤ 9217) × (length bits.now ≡ W n) × Bits bits.now }
    ensures { order.new ≡ overlay order.old 0 (order_of paper n bits.now) }
{
    order_of_setting_in(Topology::Paper, n, bits, order);
}

// The same in the wiring t: the blocks 0, 1, .. are returned under the setting, and then block i names the place to which the block
// at i goes.
pub fn order_of_setting_in(t: Topology, n: usize, bits: &[u8], order: &mut [u16; 1024])
    requires { (n ≤ 1024) × (W n ≤ 9217) × (length bits.now ≡ W n) × Bits bits.now }
    ensures { order.new ≡ overlay order.old 0 (order_of (wiring_of t) n bits.now) }
{
    let mut blocks = [0u8; 2048];
    number(n, &mut blocks);
    let mut log = [0u16; entry_log::MOST_MOVE_WORDS];
    let end = n * 2;
    apply::apply_inverse_in(t, n, 2, &mut blocks[..end], bits, &mut log).unwrap(); // no question gets a no
    gather(n, &blocks, order);
}

// Each block holds its own place. The blocks are bytes, and not pairs of them: of what `as_flattened_mut` lends out std does not say
// what it ends as.
fn number(n: usize, blocks: &mut [u8])
    requires { (n ≤ 1024) × (2 * n ≤ length blocks.old) }
    ensures { Numbered n blocks.new }
{
    for i in 0..n {
        let [low, high] = (i as u16).to_le_bytes();
        blocks[2 * i] = low;
        blocks[2 * i + 1] = high;
    }
}

// The numbers in the blocks.
fn gather(n: usize, blocks: &[u8], order: &mut [u16])
    requires { (2 * n ≤ length blocks.now) × (n ≤ length order.old) }
    ensures { order.new ≡ overlay order.old 0 (tabulate (number_in blocks.now) n) }
{
    for (i, entry) in order[..n].iter_mut().enumerate() {
        *entry = number_in(blocks, i);
    }
}

fn number_in(blocks: &[u8], i: usize) -> u16
    requires { 2 * i + 2 ≤ length blocks.now }
    ensures { result ≡ number_in blocks.now i }
{
    u16::from_le_bytes([blocks[2 * i], blocks[2 * i + 1]])
}
