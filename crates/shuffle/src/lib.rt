// A permutation shuffled by words (01: draw; 02, F-5: fair drawing).
#![tactic(auto)]

ghost use Rattle.std.specs.Prelude.{◌≡◌, ◌≤◌, ◌<◌, length};
ghost use Rattle.permutation.specs.Permutations.{identity};
ghost use Rattle.shuffle.specs.Shuffled.{partner, stepped, drawn, shuffle_call};

use answers::{Reason, Refusal};

/// How many entries were drawn, and how many of the words that used.
#[derive(Clone, Copy, Debug, PartialEq, Eq)]
pub struct Drawn {
    pub count: usize,
    pub used: usize,
}

// Each entry is its own place.
fn number_places(out: &mut [u16])
    requires { length out.old ≤ 1024 }
    ensures { out.new ≡ identity (length out.old) }
{
    for (i, entry) in out.iter_mut().enumerate() {
        *entry = i as u16;
    }
}

// The place with which place i of n is exchanged.
fn partner_of(n: usize, i: usize, word: u32) -> usize
    requires { (i < n) × (n ≤ 1024) }
    ensures { (result ≡ partner n i word) × (result < n) }
{
    i + word as usize % (n - i)
}

// The exchanges of all the words.
fn exchange(words: &[u32], out: &mut [u16])
    requires { (length words.now ≤ length out.old) × (length words.now ≤ 1024) }
    ensures { out.new ≡ stepped (length words.now) words.now out.old }
{
    let n = words.len();
    for (i, word) in words.iter().enumerate() {
        out.swap(i, partner_of(n, i, *word));
    }
}

// The call keeps no log: its places may follow the words.
pub fn shuffle(n: usize, words: &[u32], out: &mut [u16]) -> Result<Drawn, Refusal>
    ensures { drawn result out.new ≡ shuffle_call n words.now out.old }
{
    if counts::MOST_PLACES < n {
        return Err(Refusal::of(Reason::Places));
    }
    if out.len() < n {
        return Err(Refusal::of(Reason::OutputRoom));
    }
    let mut kept = [0u32; 1024];
    let Some(used) = shuffle_fair::choose(n, words, &mut kept) else {
        return Err(Refusal::of(Reason::Words));
    };
    number_places(&mut out[..n]);
    exchange(&kept[..n], out);
    Ok(Drawn { count: n, used })
}
