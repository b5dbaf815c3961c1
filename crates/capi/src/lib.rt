// The calls for programs in other languages: the C interface of include/lomuveran.h. A slice crosses as a pointer and a
// length. Each export makes one call of the crate that does the work, and its promise is that crate's own definition of the
// call.
#![tactic(auto)]

ghost use Rattle.std.specs.Prelude.{◌≡◌, length};
ghost use Rattle.answers.specs.Outcomes.{outcome, logged};
ghost use Rattle.apply.specs.Calls.{apply_call, inverse_call, apply_call_in, inverse_call_in};
ghost use Rattle.convert.specs.Calls.{convert_call};
ghost use Rattle.gauges.specs.Calls.{report_call};
ghost use Rattle.sheets.specs.Calls.{write_sheet, read_sheet};
ghost use Rattle.control.specs.Calls.{set_call, set_call_in};
ghost use Rattle.counts.specs.Counts.{W, E};
ghost use Rattle.network.specs.Wiring.{neighbour};
ghost use Rattle.wirings.specs.declared.Topology.TheVariants.{Paper, Neighbour};
ghost use Rattle.numbers.specs.Numbers.{number_at};
ghost use Rattle.records.specs.Records as records;
ghost use Rattle.listed_order.specs.Calls.{ranked, ranked_call};
ghost use Rattle.shuffle.specs.Shuffled.{shuffle_call};
ghost use Rattle.capi_values.specs.Crossing.{number_in, drawn_in, report_in, told_in, told, lending, record_in, lent, counted};

use answers::{Answer, Reason, Refusal};
use capi_values::{CDrawn, CNumber, CRecord, CReport};
use records::Permutation;
use wirings::Topology;

// 01: set.
#[unsafe(no_mangle)]
pub extern "C" fn lomuveran_control_bits(order: &[u16], bits: &mut [u8], log: &mut [u16]) -> Answer
    ensures { logged result bits.new log.new
        ≡ set_call order.now bits.old log.old }
{
    control::control_bits(order, bits, log).into()
}

// 01: mix.
#[unsafe(no_mangle)]
pub extern "C" fn lomuveran_apply(
    n: usize,
    width: usize,
    blocks: &mut [u8],
    bits: &[u8],
    log: &mut [u16],
) -> Answer
    ensures { logged result blocks.new log.new
        ≡ apply_call n width blocks.old bits.now log.old }
{
    apply::apply(n, width, blocks, bits, log).into()
}

// 01: return.
#[unsafe(no_mangle)]
pub extern "C" fn lomuveran_apply_inverse(
    n: usize,
    width: usize,
    blocks: &mut [u8],
    bits: &[u8],
    log: &mut [u16],
) -> Answer
    ensures { logged result blocks.new log.new
        ≡ inverse_call n width blocks.old bits.now log.old }
{
    apply::apply_inverse(n, width, blocks, bits, log).into()
}

// 01: draw; 02, F-5.
#[unsafe(no_mangle)]
pub extern "C" fn lomuveran_shuffle(n: usize, words: &[u32], out: &mut [u16]) -> CDrawn
    ensures { drawn_in result out.new ≡ shuffle_call n words.now out.old }
{
    shuffle::shuffle(n, words, out).into()
}

// 02, F-3: the r-th order of n places, with its setting.
#[unsafe(no_mangle)]
pub extern "C" fn lomuveran_ranked_order(
    n: usize,
    r: usize,
    order: &mut [u16],
    bits: &mut [u8],
    log: &mut [u16],
) -> Answer
    ensures { ranked result order.new bits.new log.new
        ≡ ranked_call n r order.old bits.old log.old }
{
    listed_order::ranked_order(n, r, order, bits, log).into()
}

// ---- the neighbour wiring (02, F-6): a call of its own for each, so that no number for a wiring must be asked about

// Set.
#[unsafe(no_mangle)]
pub extern "C" fn lomuveran_neighbour_control_bits(
    order: &[u16],
    bits: &mut [u8],
    log: &mut [u16],
) -> Answer
    ensures { logged result bits.new log.new
        ≡ set_call_in neighbour order.now bits.old log.old }
{
    control::control_bits_in(Topology::Neighbour, order, bits, log).into()
}

// Mix.
#[unsafe(no_mangle)]
pub extern "C" fn lomuveran_neighbour_apply(
    n: usize,
    width: usize,
    blocks: &mut [u8],
    bits: &[u8],
    log: &mut [u16],
) -> Answer
    ensures { logged result blocks.new log.new
        ≡ apply_call_in neighbour n width blocks.old bits.now log.old }
{
    apply::apply_in(Topology::Neighbour, n, width, blocks, bits, log).into()
}

// Return.
#[unsafe(no_mangle)]
pub extern "C" fn lomuveran_neighbour_apply_inverse(
    n: usize,
    width: usize,
    blocks: &mut [u8],
    bits: &[u8],
    log: &mut [u16],
) -> Answer
    ensures { logged result blocks.new log.new
        ≡ inverse_call_in neighbour n width blocks.old bits.now log.old }
{
    apply::apply_inverse_in(Topology::Neighbour, n, width, blocks, bits, log).into()
}

// The converter, from the paper's wiring.
#[unsafe(no_mangle)]
pub extern "C" fn lomuveran_to_neighbour(n: usize, given: &[u8], out: &mut [u8]) -> Answer
    ensures { outcome result out.new ≡ convert_call Paper n given.now out.old }
{
    convert::convert(Topology::Paper, n, given, out).into()
}

// The converter, from the neighbour wiring.
#[unsafe(no_mangle)]
pub extern "C" fn lomuveran_to_paper(n: usize, given: &[u8], out: &mut [u8]) -> Answer
    ensures { outcome result out.new ≡ convert_call Neighbour n given.now out.old }
{
    convert::convert(Topology::Neighbour, n, given, out).into()
}

// ---- sheets

// 01: write sheet.
#[unsafe(no_mangle)]
pub extern "C" fn lomuveran_write_sheet(n: usize, bits: &[u8], out: &mut [u8]) -> Answer
    ensures { outcome result out.new ≡ write_sheet n bits.now out.old }
{
    sheet_writer::write_sheet(n, bits, out).into()
}

// 01: read sheet.
#[unsafe(no_mangle)]
pub extern "C" fn lomuveran_read_sheet(input: &[u8], bits: &mut [u8]) -> Answer
    ensures { outcome result bits.new ≡ read_sheet input.now bits.old }
{
    sheet_reader::read_sheet(input, bits).into()
}

// 01: the number reader.
#[unsafe(no_mangle)]
pub extern "C" fn lomuveran_read_number(input: &[u8], at: usize) -> CNumber
    ensures { number_in result ≡ number_at input.now at }
{
    numbers::read_number(input, at).into()
}

// ---- the chart

// 02, F-1: the figures of a gauge, from blocks as they lie.
#[unsafe(no_mangle)]
pub extern "C" fn lomuveran_gauge_report(
    n: usize,
    width: usize,
    blocks: &[u8],
    gauge: u16,
) -> CReport
    ensures { report_in result ≡ report_call n width blocks.now gauge }
{
    gauges::gauge_report(n, width, blocks, gauge).into()
}

// ---- counts, for callers who must size their buffers: question 1, then the count

// How many switches, so how many bits, n places have. This and the next are twins that C names.
#[unsafe(no_mangle)]
pub extern "C" fn lomuveran_switches(n: usize) -> Answer
    ensures { result ≡ counted W n }
{
    if counts::MOST_PLACES < n {
        return Answer::from(Err(Refusal::of(Reason::Places)));
    }
    Answer::from(Ok(counts::switches(n)))
}

// How many entries the setter logs for n places.
#[unsafe(no_mangle)]
pub extern "C" fn lomuveran_entries(n: usize) -> Answer
    ensures { result ≡ counted E n }
{
    if counts::MOST_PLACES < n {
        return Answer::from(Err(Refusal::of(Reason::Places)));
    }
    Answer::from(Ok(counts::entries(n)))
}

// ---- permutations (01: open orders): the record is its entries as lent and the number of those that stay home (02, F-2); an
// accepted call leaves the new entries in the lent ones and tells their number

// 01: fresh, of as many places as there are entries.
#[unsafe(no_mangle)]
pub extern "C" fn lomuveran_permutation_identity(entries: &mut [u16]) -> CRecord
    ensures { lending (told_in result) entries.new ≡ lent (records.identity_call (length entries.old))
        entries.old }
{
    capi_values::give(Permutation::identity(entries.len()), entries)
}

// 01: from a list. The record is the list itself, as lent, with the number that is told.
#[unsafe(no_mangle)]
pub extern "C" fn lomuveran_permutation_from_list(list: &[u16]) -> CRecord
    ensures { told_in result ≡ told (records.from_list_call list.now) }
{
    Permutation::from_list(list).into()
}

#[unsafe(no_mangle)]
pub extern "C" fn lomuveran_permutation_exchange(
    entries: &mut [u16],
    fixed: usize,
    i: usize,
    j: usize,
) -> CRecord
    ensures { lending (told_in result) entries.new ≡ lent (records.exchange_call (record_in
        entries.old fixed) i j) entries.old }
{
    let p = capi_values::record_of(entries, fixed);
    capi_values::give(p.exchange(i, j), entries)
}

// First, then second, into first; each has its own number.
#[unsafe(no_mangle)]
pub extern "C" fn lomuveran_permutation_combine(
    first: &mut [u16],
    first_fixed: usize,
    second: &[u16],
    second_fixed: usize,
) -> CRecord
    ensures { lending (told_in result) first.new ≡ lent (records.combine_call (record_in
        first.old first_fixed) (record_in second.now second_fixed)) first.old }
{
    let p = capi_values::record_of(first, first_fixed);
    capi_values::give(
        p.combine(capi_values::record_of(second, second_fixed)),
        first,
    )
}

#[unsafe(no_mangle)]
pub extern "C" fn lomuveran_permutation_inverse(entries: &mut [u16], fixed: usize) -> CRecord
    ensures { lending (told_in result) entries.new ≡ lent (records.inverse_call (record_in
        entries.old fixed)) entries.old }
{
    let p = capi_values::record_of(entries, fixed);
    capi_values::give(p.inverse(), entries)
}

// The number that the record carries, as the count. The entries are not looked at, only how many there are.
#[unsafe(no_mangle)]
pub extern "C" fn lomuveran_permutation_fixed_points(entries: &[u16], fixed: usize) -> Answer
    ensures { result ≡ (records.fixed_points_call (record_in entries.now fixed)).answer }
{
    records::fixed_points_of(entries.len(), fixed).into()
}
