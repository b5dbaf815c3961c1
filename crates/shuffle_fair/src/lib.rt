// Which of the words are taken for the places of an order (02, F-5: fair drawing).
#![tactic(auto)]

ghost use Rattle.std.specs.Prelude.{◌≡◌, ◌≤◌, ◌<◌, length};
ghost use Rattle.permutation.specs.Permutations.{bit};
ghost use Rattle.shuffle_fair.specs.Words.{limit, fit};
ghost use Rattle.shuffle_fair.specs.Choosing.{Chose};

// The first word that is skipped with d places left.
fn limit_of(d: usize) -> usize
    requires { 0 < d }
    ensures { result ≡ limit d }
{
    4294967296 / d * d
}

// 1 for a word that is taken with d places left, 0 for one that is skipped.
fn taken(d: usize, word: u32) -> usize
    requires { 0 < d }
    ensures { (result ≡ bit (fit d word)) × (result ≤ 1) }
{
    usize::from((word as usize) < limit_of(d))
}

// The first word that is fit for n places left, then the first behind it that is fit for n - 1, and so on, over the front of
// kept. A word that is skipped is overwritten by the next. How many words that used, or nothing where they run out.
pub fn choose(n: usize, words: &[u32], kept: &mut [u32]) -> Option<usize>
    requires { n ≤ length kept.old }
    ensures { Chose n words.now kept.new result }
{
    let mut i = 0;
    let mut used = 0;
    // No `for`: the places go on only where a word is taken.
    while i < n {
        let word = *words.get(used)?;
        kept[i] = word;
        i += taken(n - i, word);
        used += 1;
    }
    Some(used)
}
