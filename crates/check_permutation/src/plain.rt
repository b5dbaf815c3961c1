// A plain second computation on lists: marks and searches.
use answers::Answer;
use records::{Permutation, Reply};
use std::alloc::{AllocError, Global};

// ---- records and replies

// The record of a list, with the number counted here.
pub(crate) fn record(list: &[u16]) -> Permutation {
    numbered(list, fixed(list))
}

// The record of a list with this number, true or false.
pub(crate) fn numbered(list: &[u16], number: usize) -> Permutation {
    let mut entries = [0u16; 1024];
    for (entry, value) in entries.iter_mut().zip(list) {
        *entry = *value;
    }
    Permutation {
        length: list.len(),
        entries,
        fixed: number,
    }
}

pub(crate) fn accepted(list: &[u16]) -> Reply {
    refused(0, 0, record(list))
}

// Refused, and this record comes back.
pub(crate) fn refused(number: usize, place: usize, permutation: Permutation) -> Reply {
    let answer = Answer {
        number,
        place,
        count: 0,
    };
    Reply {
        answer,
        permutation,
    }
}

// The asking's reply: the number that the record carries, and the record.
pub(crate) fn asked(permutation: Permutation) -> Reply {
    let answer = Answer {
        number: 0,
        place: 0,
        count: permutation.fixed,
    };
    Reply {
        answer,
        permutation,
    }
}

// ---- lists

fn narrow(x: usize) -> u16 {
    u16::try_from(x).unwrap_or(u16::MAX)
}

pub(crate) fn at(list: &[u16], i: usize) -> usize {
    list.get(i).map_or(0, |entry| usize::from(*entry))
}

// The first entry that is no place, or was marked before.
pub(crate) fn first_bad(alloc: Global, list: &[u16]) -> Result<Option<usize>, AllocError> {
    let mut marks = vec![in alloc; false; list.len()]?;
    for (i, entry) in list.iter().enumerate() {
        let Some(mark) = marks.get_mut(usize::from(*entry)) else {
            return Ok(Some(i));
        };
        if *mark {
            return Ok(Some(i));
        }
        *mark = true;
    }
    Ok(None)
}

// The last place that holds v, searched from the back; else 0.
fn place_of(list: &[u16], v: usize) -> usize {
    list.iter()
        .rposition(|entry| usize::from(*entry) == v)
        .unwrap_or(0)
}

pub(crate) fn inverse(alloc: Global, list: &[u16]) -> Result<Vec<u16>, AllocError> {
    (0..list.len())
        .map(|v| narrow(place_of(list, v)))
        .collect(alloc)
}

pub(crate) fn combine(
    alloc: Global,
    first: &[u16],
    second: &[u16],
) -> Result<Vec<u16>, AllocError> {
    first
        .iter()
        .map(|entry| narrow(at(second, usize::from(*entry))))
        .collect(alloc)
}

// How many entries stay home, one taken off for each that does not.
pub(crate) fn fixed(list: &[u16]) -> usize {
    let mut home = list.len();
    for (i, entry) in list.iter().enumerate() {
        if usize::from(*entry) != i {
            home = home.wrapping_sub(1);
        }
    }
    home
}

pub(crate) fn identity(alloc: Global, n: usize) -> Result<Vec<u16>, AllocError> {
    (0..n).map(narrow).collect(alloc)
}

// Each place to the next, the last to 0.
pub(crate) fn rotation(alloc: Global, n: usize) -> Result<Vec<u16>, AllocError> {
    (1..n).chain(0..n.min(1)).map(narrow).collect(alloc)
}

// The last n digits of c to base 6, the last one first.
pub(crate) fn digits(alloc: Global, c: usize, n: usize) -> Result<Vec<u16>, AllocError> {
    let mut digits = Vec::new(alloc);
    let mut left = c;
    for _ in 0..n {
        digits.push((left % 6) as u16)?;
        left /= 6;
    }
    Ok(digits)
}
