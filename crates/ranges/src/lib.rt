// Ranges of symbols: what two ranges share, whether the ranges of a run of records overlap, and the symbols that none of them holds.
// Each function on a run reads each of its records once.
#![tactic(auto)]

ghost use Rattle.std.specs.Prelude.{◌≡◌, ◌+◌, ◌*◌, ◌≤◌, min, max, length};
ghost use Rattle.std.proofs.lemmas.List.Edits.{sets};
ghost use Rattle.automata.specs.Automaton.{ranges_of};
ghost use Rattle.automata.specs.Records.{read_records};
ghost use Rattle.automata.specs.inner.Chunks.{records_of};
ghost use Rattle.ranges.specs.Span.{intersect_ranges, span_of, overlaps_from, overlapping};
ghost use Rattle.ranges.specs.Missing.{SortedRanges, missing};
ghost use Rattle.ranges.specs.inner.Missing.{gap, span_words};

// The two ends of a stretch of symbols: the least and the greatest.
#[derive(Clone, Copy)]
pub struct Ends {
    pub lower: u32,
    pub upper: u32,
}

fn larger(a: u32, b: u32) -> u32
    ensures { result ≡ max a b }
{
    if a < b { b } else { a }
}

fn smaller(a: u32, b: u32) -> u32
    ensures { result ≡ min a b }
{
    if a < b { a } else { b }
}

// The first and the last common symbol of two ranges, or None where there is no common symbol.
#[tactic(auto, unfolding(crate::specs::Span::intersect_ranges))]
pub fn intersect_ranges(first1: u32, last1: u32, first2: u32, last2: u32) -> Option<(u32, u32)>
    ensures { span_of result ≡ intersect_ranges (record { first = first1; last = last1 }) (record { first = first2; last = last2 }) }
{
    let first = larger(first1, first2);
    let last = smaller(last1, last2);
    if first <= last {
        Some((first, last))
    } else {
        None
    }
}

// Whether a range among the records starts at or below `end` or the end of a range before it.
#[tactic(auto, using(crate::proofs::Runs::below_next, crate::proofs::Runs::below_done))]
fn overlaps_from(records: &[[u32; 5]], end: u32) -> bool
    ensures { result ≡ overlaps_from end (ranges_of (records_of records.now)) }
{
    let mut largest = end;
    for r in records {
        if r[1] == 1 {
            if r[2] <= largest {
                return true;
            }
            largest = larger(largest, r[3]);
        }
    }
    false
}

// Whether a range of the run starts at or below the largest end before it.
#[tactic(auto, using(automata::proofs::Chunks::records_chunks, std::proofs::lemmas::List::take_rest, crate::proofs::Runs::overlap_next, crate::proofs::Runs::overlap_done))]
pub fn has_overlapping_ranges(run: &[u32]) -> bool
    ensures { result ≡ overlapping (ranges_of (read_records run.now)) }
{
    let (records, _) = run.as_chunks::<5>();
    for (k, r) in records.iter().enumerate() {
        if r[1] == 1 {
            return overlaps_from(&records[k + 1..], r[3]);
        }
    }
    false
}

// The first symbol above those settled so far and the range's last.
fn past(cursor: u64, last: u32) -> u64
    ensures { result ≡ max cursor (last + 1) }
{
    if cursor <= (last as u64) {
        last as u64 + 1
    } else {
        cursor
    }
}

// A range's first symbol, or top if that is less: where a span ends that goes up to and without the range.
pub fn until(first: u32, top: u64) -> u64
    ensures { result ≡ min first top }
{
    if (first as u64) < top {
        first as u64
    } else {
        top
    }
}

// The symbol behind a range's last, or top if that is less: where a span ends that goes up to the range's end. Behind the greatest symbol of 32 bits
// there is one of 64.
pub fn through(last: u32, top: u64) -> u64
    ensures { result ≡ min (last + 1) top }
{
    let behind = last as u64 + 1;
    if behind < top { behind } else { top }
}

// Writes the span from `from` up to and without `to` behind n spans, if it has a symbol; answers how many spans there are then.
fn add_gap(holes: &mut [u32], n: usize, from: u64, to: u64) -> usize
    requires { (2 * n + 2 ≤ length holes.old) × (to ≤ 4294967296) }
    ensures count { result ≡ n + length (gap from to) }
    ensures written { holes.new ≡ sets holes.old (2 * n) (span_words (gap from to)) }
{
    if from < to {
        holes[2 * n] = from as u32;
        holes[2 * n + 1] = (to - 1) as u32;
        return n + 1;
    }
    n
}

// Writes first and last of each hole that the run's ranges leave from lower to upper at the front of holes; answers how many holes there are.
// There is room for two words for each record of five, and two more.
pub fn missing_ranges(run: &[u32], lower: u32, upper: u32, holes: &mut [u32]) -> usize
    requires { SortedRanges (ranges_of (read_records run.now)) × (2 * length run.now + 10 ≤ 5 * length holes.old) }
    ensures count { result ≡ length (missing lower upper (ranges_of (read_records run.now))) }
    ensures written { holes.new ≡ sets holes.old 0 (span_words (missing lower upper (ranges_of (read_records run.now)))) }
{
    let top = upper as u64 + 1;
    let mut cursor = lower as u64;
    let mut n: usize = 0;
    let (records, _) = run.as_chunks::<5>();
    for r in records {
        if r[1] == 1 {
            n = add_gap(holes, n, cursor, until(r[2], top));
            cursor = past(cursor, r[3]);
        }
    }
    add_gap(holes, n, cursor, top)
}
