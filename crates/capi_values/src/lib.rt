// What crosses between the calls for C (crate capi) and the crates that do the work: the answers of the number reader and of a
// draw, a gauge's report, and a permutation as its entries and its number. A call that gives no more than an answer gives
// `answers::Answer` itself. 01 lays each out in plain numbers for C, so these are no Results; each is made from one.
#![tactic(auto)]

ghost use Rattle.std.specs.Prelude.{◌≡◌, length, get_or};
ghost use Rattle.numbers.specs.Reading.{meaning};
ghost use Rattle.gauges.specs.Calls.{report_from};
ghost use Rattle.capi_values.specs.Crossing.{number_in, drawn_from, report_in, told_in, told, lending, record_in, spread, lent};

use answers::{Answer, Refusal};
use gauges::Figures;
use numbers::Number;
use records::{Permutation, Reply};
use shuffle::Drawn;

// The answer of the number reader, with the two numbers that stand beside it.
#[repr(C)]
#[derive(Clone, Copy, Debug, PartialEq, Eq)]
pub struct CNumber {
    pub answer: Answer,
    pub value: usize,
    pub next: usize,
}

impl From<Result<Number, Refusal>> for CNumber {
    ghost from_gives = { λ read given. number_in given ≡ meaning read };

    fn from(read: Result<Number, Refusal>) -> CNumber {
        match read {
            Ok(number) => CNumber {
                answer: Answer::from(Ok(0)),
                value: number.value,
                next: number.next,
            },
            Err(refusal) => CNumber {
                answer: Answer::from(Err(refusal)),
                value: 0,
                next: 0,
            },
        }
    }
}

// The answer of a draw, with the number of words used.
#[repr(C)]
#[derive(Clone, Copy, Debug, PartialEq, Eq)]
pub struct CDrawn {
    pub answer: Answer,
    pub used: usize,
}

impl From<Result<Drawn, Refusal>> for CDrawn {
    ghost from_gives = { λ drawn given. given ≡ drawn_from drawn };

    fn from(drawn: Result<Drawn, Refusal>) -> CDrawn {
        match drawn {
            Ok(drawn) => CDrawn {
                answer: Answer::from(Ok(drawn.count)),
                used: drawn.used,
            },
            Err(refusal) => CDrawn {
                answer: Answer::from(Err(refusal)),
                used: 0,
            },
        }
    }
}

// The answer of a gauge's report, with its six numbers.
#[repr(C)]
#[derive(Clone, Copy, Debug, PartialEq, Eq)]
pub struct CReport {
    pub answer: Answer,
    pub count: usize,
    pub least: i64,
    pub greatest: i64,
    pub sum: i64,
    pub mean: i64,
    pub remainder: i64,
}

impl From<Result<Figures, Refusal>> for CReport {
    ghost from_gives = { λ report given. report_in given ≡ report_from report };

    fn from(report: Result<Figures, Refusal>) -> CReport {
        let figures = report.unwrap_or_default();
        CReport {
            answer: report.map(|_| 0).into(),
            count: figures.count,
            least: figures.least,
            greatest: figures.greatest,
            sum: figures.sum,
            mean: figures.mean,
            remainder: figures.remainder,
        }
    }
}

// ---- permutations: the record is its entries as lent, and its number

// The answer of a call on a record, with the number that the record which it gives carries (how many entries stay home).
#[repr(C)]
#[derive(Clone, Copy, Debug, PartialEq, Eq)]
pub struct CRecord {
    pub answer: Answer,
    pub fixed: usize,
}

impl From<Reply> for CRecord {
    ghost from_gives = { λ reply given. told_in given ≡ told reply };

    fn from(reply: Reply) -> CRecord {
        CRecord {
            answer: reply.answer,
            fixed: reply.permutation.fixed,
        }
    }
}

// Entry i, or 0 past the end.
fn at(entries: &[u16], i: usize) -> u16
    ensures { result ≡ get_or entries.now i 0 }
{
    entries.get(i).copied().unwrap_or(0)
}

// The record of lent entries and their number. Where more than 1,024 are lent the calls refuse it by its length.
pub fn record_of(lent: &[u16], fixed: usize) -> Permutation
    ensures { result ≡ record_in lent.now fixed }
{
    let mut entries = [0u16; 1024];
    for (i, entry) in entries.iter_mut().enumerate() {
        *entry = at(lent, i);
    }
    Permutation {
        length: lent.len(),
        entries,
        fixed,
    }
}

// A record's entries over all the lent ones.
fn put(p: Permutation, lent: &mut [u16])
    ensures { lent.new ≡ spread p (length lent.old) }
{
    for (i, entry) in lent.iter_mut().enumerate() {
        *entry = at(&p.entries, i);
    }
}

pub fn give(reply: Reply, entries: &mut [u16]) -> CRecord
    ensures { lending (told_in result) entries.new ≡ lent reply entries.old }
{
    if reply.answer.number != 0 { // nothing is written
        return CRecord::from(reply);
    }
    put(reply.permutation, entries);
    CRecord::from(reply)
}
