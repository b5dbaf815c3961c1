// An order drawn from random bytes, as the programs read it: what the program `draw` does with what it read.
#![tactic(auto)]

ghost use Rattle.std.specs.Prelude.{◌≡◌, ◌+◌, ◌*◌, ◌≤◌, length};
ghost use Rattle.answers.specs.Answers.{answer_from};
ghost use Rattle.answers.specs.Buffers.{Put};
ghost use Rattle.answers.specs.Outcomes.{outcome};
ghost use Rattle.permutation.specs.Permutations.{tabulate};
ghost use Rattle.rows.specs.Rows.{Fourteens};
ghost use Rattle.cmd_draw.specs.Draw.{word_at, bytes_for, order_bytes, draw_from, draw_call};

use answers::Refusal;

// Words beyond one for each place, for those that are skipped. That they do not do for an order has a chance below 2^-1000:
// docs/DECISIONS.md has the estimate.
const SPARE: usize = 64;

/// The words of the bytes draw an order (01: draw; 02, F-5), whose bytes go over the front of out: 2,050 are enough for each.
pub fn draw_order(n: usize, bytes: &[u8], out: &mut [u8; 2050]) -> Result<usize, Refusal>
    ensures { outcome (answer_from result) out.new ≡ draw_call n bytes.now out.old }
{
    let count = bytes_for(n).min(bytes.len()) / 4;
    let mut words = [0u32; 1088];
    gather(bytes, &mut words[..count]);
    draw_words(n, &words[..count], out)
}

// The order that words draw.
fn draw_words(n: usize, words: &[u32], out: &mut [u8; 2050]) -> Result<usize, Refusal>
    ensures { outcome (answer_from result) out.new ≡ draw_from n words.now out.old }
{
    let mut order = [0u16; 1024];
    let drawn = shuffle::shuffle(n, words, &mut order)?;
    Ok(put_order(&order[..drawn.count], out))
}

/// How many bytes are read for n places.
pub fn bytes_for(n: usize) -> usize
    ensures { (result ≡ bytes_for n) × (result ≤ 4352) }
{
    if n <= counts::MOST_PLACES {
        4 * (n + SPARE)
    } else {
        0
    }
}

// The first words of the bytes.
fn gather(bytes: &[u8], words: &mut [u32])
    requires { 4 * length words.old ≤ length bytes.now }
    ensures { words.new ≡ tabulate (word_at bytes.now) (length words.old) }
{
    for (i, word) in words.iter_mut().enumerate() {
        *word = word_at(bytes, i);
    }
}

fn word_at(bytes: &[u8], i: usize) -> u32
    requires { 4 * i + 4 ≤ length bytes.now }
    ensures { result ≡ word_at bytes.now i }
{
    let at = 4 * i;
    u32::from_le_bytes([bytes[at], bytes[at + 1], bytes[at + 2], bytes[at + 3]])
}

// ---- the order's bytes

fn put_order(order: &[u16], out: &mut [u8; 2050]) -> usize
    requires { (length order.now ≤ 1024) × Fourteens order.now }
    ensures { Put out.old 0 (order_bytes order.now) result out.new }
{
    let at = numbers::put_number(out, 0, order.len());
    rows::put_row(order, out, at)
}
