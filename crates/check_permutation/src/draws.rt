// Draws a second way: the limit is 2^32 less its remainder by d, and remainders are found by subtracting. Words at the limits,
// skipped ones, exactly enough, one too few and some left over. Sums wrap and numbers are taken modulo a bound: none here comes near it,
// and so nothing has to be proved of it.
use crate::plain;
use shuffle::Drawn;
use std::alloc::{AllocError, Global};
use tally::Tally;

const WORDS: usize = 4294967296;

// A draw: the list, how many places were left, how many words were used.
#[derive(Drop)]
struct Draw {
    list: Vec<u16>,
    left: usize,
    used: usize,
}

// ---- the second way

// The remainder of x by d, for x up to 2^32 and d up to 2,047: d times 2^32, 2^31, .. and 1 is taken off where it can be.
fn rest(x: usize, d: usize) -> usize {
    let mut left = x;
    let mut part = d % 2048 * 4294967296;
    for _ in 0..33 {
        if part <= left {
            left -= part;
        }
        part /= 2;
    }
    left
}

// The first word that is skipped with d places left, of `range` words.
fn limit(range: usize, d: usize) -> usize {
    range.wrapping_sub(rest(range, d))
}

// From 0 to n - 1, by the words in turn.
fn second(alloc: Global, words: &[u32], n: usize) -> Result<Draw, AllocError> {
    let mut list = plain::identity(alloc, n)?;
    let mut left = n;
    let mut used = 0usize;
    for word in words {
        if left == 0 {
            break;
        }
        used = used.wrapping_add(1);
        let x = *word as usize;
        if x < limit(WORDS, left) {
            let i = n.wrapping_sub(left);
            check_cases::exchange(&mut list, i, i.wrapping_add(rest(x, left)));
            left -= 1;
        }
    }
    Ok(Draw { list, left, used })
}

// The order of n places that a seed gives.
pub(crate) fn order(alloc: Global, seed: u32, n: usize) -> Result<Vec<u16>, AllocError> {
    let draw = second(alloc, &tally::words(seed), n)?;
    Ok(draw.list)
}

// ---- a draw, and the same a second way

fn check(alloc: Global, tally: &mut Tally, n: usize, words: &[u32]) -> Result<(), AllocError> {
    let mut out = [7u16; 1024];
    let drawn = shuffle::shuffle(n, words, &mut out);
    let Draw { list, left, used } = second(alloc, words, n)?;
    let mut right = [7u16; 1024];
    let same = if left == 0 {
        for (entry, value) in right.iter_mut().zip(&list) {
            *entry = *value;
        }
        drawn == Ok(Drawn { count: n, used })
    } else {
        tally::refused(drawn.map(|drawn| drawn.count), 18, 0)
    };
    tally.count(same && out == right);
    Ok(())
}

// ---- how many words

// Pseudo-random words; each sixteenth is skipped but where a power of 2 is left.
fn spoiled(seed: u32) -> [u32; 1100] {
    let mut out = [u32::MAX; 1100];
    let mut x = seed;
    for (i, word) in out.iter_mut().enumerate() {
        if i % 16 != 15 {
            *word = x;
        }
        x = tally::next(x);
    }
    out
}

// Words left over, exactly enough, one too few.
pub(crate) fn check_size(
    alloc: Global,
    tally: &mut Tally,
    n: usize,
    seed: u32,
) -> Result<(), AllocError> {
    let words = spoiled(seed);
    let used = second(alloc, &words, n)?.used;
    for count in [1100, used, used.wrapping_sub(1)] {
        if count <= 1100 {
            check(alloc, tally, n, &words[..count])?;
        }
    }
    Ok(())
}

// ---- the limits

const DIVISORS: [usize; 6] = [3, 5, 6, 7, 1000, 1023];

// With d of n places left the word is just below the limit (k = 0), at it, or just above. Where that is 2^32 it is 0, which is
// taken: with 3 or 5 places left only the largest word is skipped.
fn check_limit(
    alloc: Global,
    tally: &mut Tally,
    n: usize,
    d: usize,
    k: usize,
) -> Result<(), AllocError> {
    let mut words = tally::words(77);
    let word = limit(WORDS, d).wrapping_add(k).wrapping_sub(1);
    words[n.wrapping_sub(d) % 1024] = (word % WORDS) as u32;
    check(alloc, tally, n, &words)
}

// .. where they are the first places, and later ones; of 1,024 places a skipped word leaves too few. Then the largest words: all
// are skipped but where a power of 2 is left.
pub(crate) fn limits(alloc: Global) -> Result<Tally, AllocError> {
    let mut tally = Tally::new();
    for d in DIVISORS {
        for k in 0..3 {
            for n in [d, 1023, 1024] {
                check_limit(alloc, &mut tally, n, d, k)?;
            }
        }
    }
    for n in 0..17 {
        check(alloc, &mut tally, n, &[u32::MAX; 1024])?;
    }
    Ok(tally)
}

// ---- the second way's own rule, with words of 8 bits, every word counted: so what the library is compared with is fair

// How many words are taken with d places left and leave x.
fn leaving(d: usize, x: usize) -> usize {
    (0..256)
        .filter(|word| *word < limit(256, d) && rest(*word, d) == x)
        .count()
}

// 1 to 16 places left: each remainder equally often.
pub(crate) fn model() -> Tally {
    let mut tally = Tally::new();
    for d in 1..17 {
        for x in 0..d {
            tally.count(leaving(d, x) == 256 / d);
        }
    }
    tally
}
