// Cases of ranges: what two have in common, or whether the ranges of a state overlap and the holes that they leave.
ghost use Rattle.std.specs.Prelude.{◌≡◌, ◌+◌, ◌*◌, ◌<◌, ◌≤◌, IfSome, IfNone, length};
ghost use Rattle.automata.specs.Automaton.{leaving, ranges_of};
ghost use Rattle.automata.specs.Records.{read_records};
ghost use Rattle.stores.specs.Written.{Written};
ghost use Rattle.ranges.specs.Missing.{missing, SortedRanges};
ghost use Rattle.ranges.specs.Span.{span_of};
ghost use Rattle.sheets.specs.inner.Accepted.{Accepted};
ghost use Rattle.sheets.specs.Sheet.{read};
ghost use Rattle.replay_all.specs.Spans.{is_ends, common_case, records, range_sheet, is_bit, are_spans, is_holes, holes_case, ranges_case};

// 0 and the ranges of a state, or 1 and two ranges.
pub fn ranges_of(case: &[u32]) -> bool
    ensures { result ≡ ranges_case case.now }
{
    if case.len() == 0 {
        return false;
    }
    if case[0] == 0 {
        return holes(case);
    }
    common(case)
}

// Whether the list has first and last of the common symbols of two ranges, or nothing.
fn is_ends(expected: &[u32], found: Option<(u32, u32)>) -> bool
    ensures { result ≡ is_ends expected.now (span_of found) }
{
    match found {
        Some((first, last)) => {
            if expected.len() != 2 {
                return false;
            }
            if expected[0] != first {
                return false;
            }
            expected[1] == last
        }
        None => expected.len() == 0,
    }
}

// First and last of two ranges, then their common symbols as a list of two or of none.
fn common(case: &[u32]) -> bool
    ensures { result ≡ common_case case.now }
{
    if case.len() < 5 {
        return false;
    }
    let expected = replay::list(case, 5);
    if 6 + expected.len() != case.len() {
        return false;
    }
    let found = ranges::intersect_ranges(case[1], case[2], case[3], case[4]);
    is_ends(expected, found)
}

// Stores the records of the given ranges from state 0 to states 0, 1 and so on, so that equal ranges are different records; answers the place
// behind them.
fn put_ranges(pairs: &[u32], sheet: &mut [u32], first: usize) -> usize
    requires { (length pairs.now ≤ 128) × (2 * first + 5 * length pairs.now ≤ 2 * length sheet.old) }
    ensures { Written sheet.old first (records 0 pairs.now) sheet.new result }
{
    let (ranges, _) = pairs.as_chunks::<2>();
    let mut at = first;
    for (to, r) in ranges.iter().enumerate() {
        at = output::put_record(sheet, at, 0, 1, r[0], r[1], to as u32);
    }
    at
}

// Stores a sheet of 64 states that has the given ranges; answers its length, or None where there are over 64 ranges.
fn put_sheet(pairs: &[u32], sheet: &mut [u32]) -> Option<usize>
    requires { 388 ≤ length sheet.old }
    ensures within { IfSome result (λ n. n ≤ 388) }
    ensures written { IfSome result (λ n. Written sheet.old 0 (range_sheet pairs.now) sheet.new n) }
    ensures many { IfNone result ((128 < length pairs.now) × (sheet.new ≡ sheet.old)) }
{
    if 128 < pairs.len() {
        return None;
    }
    let none = [0u32; 64];
    let accepts = output::put_start(sheet, 0, 64);
    let count = stores::put_all(sheet, accepts, &none);
    let first = stores::put(sheet, count, (pairs.len() / 2) as u32);
    Some(put_ranges(pairs, sheet, first))
}

// The ranges as firsts and lasts in turn, then whether they overlap, then the holes that they leave.
#[tactic(auto, using(crate::proofs::Spans::holes_many))]
fn holes(case: &[u32]) -> bool
    ensures { result ≡ holes_case case.now }
{
    let pairs = replay::list(case, 1);
    let mut words = [0u32; 388];
    let Some(n) = put_sheet(pairs, &mut words) else {
        return false;
    };
    let sheet = &words[0..n];
    match sheets::check(sheet) {
        Ok(()) => holes_of(sheet, case, 2 + pairs.len()),
        Err(_) => false,
    }
}

// Whether the listed holes are those that the ranges of the run leave.
fn are_holes(run: &[u32], expected: &[u32]) -> bool
    requires { SortedRanges (ranges_of (read_records run.now)) × (length run.now ≤ 10240) }
    ensures { result ≡ are_spans expected.now (missing 0 4294967295 (ranges_of (read_records run.now))) }
{
    let mut found = [0u32; 4098];
    let n = ranges::missing_ranges(run, 0, 4294967295, &mut found);
    if 2049 < n {
        return false;
    }
    let end = 2 * n;
    replay::same(expected, &found[0..end])
}

// Whether x is 1 where the test holds, and 0 where it does not.
fn is_answer(x: u32, holds: bool) -> bool
    ensures { result ≡ is_bit x holds }
{
    if holds {
        return x == 1;
    }
    x == 0
}

// Whether the case has at the place at what the ranges of state 0 give.
fn holes_of(sheet: &[u32], case: &[u32], at: usize) -> bool
    requires { Accepted sheet.now }
    ensures { result ≡ is_holes case.now at (ranges_of (leaving (read sheet.now) 0)) }
{
    if case.len() <= at {
        return false;
    }
    let expected = replay::list(case, at + 1);
    if at + 2 + expected.len() != case.len() {
        return false;
    }
    let mut starts = [0u32; 257];
    sheets::run_starts(sheet, &mut starts);
    let run = sheets::run(sheet, &starts, 0);
    if is_answer(case[at], ranges::has_overlapping_ranges(run)) {
        return are_holes(run, expected);
    }
    false
}
