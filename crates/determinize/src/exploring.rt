// The first pass: the table of the nonempty sets that words reach, in the order in which a queue meets them, and a note of each transition.
// The entries of the table are the queue. Each span between cuts costs one reading of the runs of the set's members up to the first range behind it,
// and one look-up, which starts at a place that the set's bits give (`sets::find`). Where the members have over 64 records the pass gives up, and
// `sweeping` takes its place.
// The sets that look-ups compare are added up in `compared`, modulo 2^64. No answer depends on the sum: contracts leave it free, and it is there to be printed.
ghost use Rattle.std.specs.Prelude.{◌≡◌, ◌+◌, ◌-◌, ◌*◌, ◌%◌, ◌<◌, ◌≤◌, ◌&&◌, [], ◌∷◌, length, ◌==◌, nat_lt, slice_index_or};
ghost use Rattle.stores.specs.Written.{Written};
ghost use Rattle.automata.specs.Records.{write_records};
ghost use Rattle.sets.specs.inner.BitSet.{set_at, entries};
ghost use Rattle.sets.specs.inner.Places.{Placed};
ghost use Rattle.sheets.specs.Sheet.{read};
ghost use Rattle.words.specs.Simulation.{outgoing, step};
ghost use Rattle.words.specs.inner.Gather.{Tables};
ghost use Rattle.ranges.specs.Cuts.{next_cut};
ghost use Rattle.determinize.specs.inner.Notes.{sink_notes, SetPlaced, SpansResult};
ghost use Rattle.determinize.specs.inner.Memory.{StateSet, TableAndNotes, StartTable, ProgressPlaced, ExplorationPlaced};
ghost use Rattle.determinize.specs.inner.Attempts.{run_length, run_lengths, SpansExploration, TableExploration};

use crate::{MOST_STATES, Unfinished};
use ranges::Ends;

// Where a set stands in the table, and how many sets the table has.
#[derive(Drop)]
pub struct SetEntry {
    pub number: u32,
    pub sets: usize,
}

// How many sets the table has, and how many transitions are noted.
#[derive(Drop)]
pub struct SetCounts {
    pub sets: usize,
    pub notes: usize,
}

// Where a span ends, which is before the next cut, the number of the set that it leads to, and how many sets the table has then.
#[derive(Drop)]
pub struct SpanEnd {
    pub cut: u64,
    pub number: u32,
    pub sets: usize,
}

// The number of a set in the table of n sets. A nonempty set that the table lacks goes to its end; the empty set has the number 256.
pub fn place(
    table: &mut [u64],
    n: usize,
    places: &mut [u32],
    set: &[u64],
    compared: &mut u64,
) -> SetEntry
    requires { (n < 256) × (length table.old ≡ 1024) × (4 ≤ length set.now) × Placed places.old (entries table.old n) }
    ensures number { SetPlaced (set_at set.now 0) (entries table.old n) table.new result.sets result.number }
    ensures places { Placed places.new (entries table.new result.sets) }
{
    if sets::is_empty(set) {
        return SetEntry {
            number: 256,
            sets: n,
        };
    }
    let found = sets::find(table, n, places, set);
    *compared = std::num::wrapping_add_u64(*compared, found.compared);
    if found.number < n {
        return SetEntry {
            number: found.number as u32,
            sets: n,
        };
    }
    sets::add(table, n, places, set, found);
    SetEntry {
        number: n as u32,
        sets: n + 1,
    }
}

// The note of a range behind `count` others. Past the end of the memory nothing is stored.
pub fn note(notes: &mut [u32], count: usize, from: u32, first: u32, last: u32, to: u32)
    requires { length notes.old % 5 ≡ 0 }
    ensures { Written notes.old (5 * count) (from ∷ 1 ∷ first ∷ last ∷ to ∷ []) notes.new (5 * count + 5) }
{
    if count < notes.len() / 5 {
        output::put_record(notes, 5 * count, from, 1, first, last, to);
    }
}

// The span of a set from first up to the next cut, which is top where no range is cut before: the set that it leads to gets its place in the table of n
// sets.
fn visit(
    s: &[u32],
    starts: &[u32],
    closures: &[u64],
    set: &[u64],
    first: u32,
    top: u64,
    table: &mut [u64],
    n: usize,
    places: &mut [u32],
    compared: &mut u64,
) -> SpanEnd
    requires tables { Tables s.now starts.now closures.now × StateSet s.now set.now × (first < top) × (top ≤ 4294967296) }
    requires n_bound { (n < 256) × (length table.old ≡ 1024) × Placed places.old (entries table.old n) }
    ensures cut { result.cut ≡ next_cut first top (outgoing (read s.now) (set_at set.now 0)) }
    ensures number { SetPlaced (step (read s.now) (set_at set.now 0) first) (entries table.old n) table.new result.sets result.number }
    ensures places { Placed places.new (entries table.new result.sets) }
{
    let mut next = [0u64; 4];
    let cut = words::step(s, starts, closures, set, first, &mut next, top);
    let placed = place(table, n, places, &next, compared);
    SpanEnd {
        cut,
        number: placed.number,
        sets: placed.sets,
    }
}

// Visits the spans between the cuts of the ranges that leave a set, ascending: those that a range holds are the parts, the others the holes. `None` where the
// table would have over 255 sets, in every function of the pass.
// Each of 256 sets has at most 2^32 of them, so that the number of notes stays far below what a usize holds.
pub fn visit_spans(
    s: &[u32],
    starts: &[u32],
    closures: &[u64],
    symbols: Ends,
    set: &[u64],
    from: u32,
    table: &mut [u64],
    places: &mut [u32],
    notes: &mut [u32],
    counts: SetCounts,
    compared: &mut u64,
) -> Option<SetCounts>
    requires tables { Tables s.now starts.now closures.now × StateSet s.now set.now }
    requires table_and_notes { TableAndNotes s.now table.old notes.old counts.sets counts.notes × Placed places.old (entries table.old counts.sets) }
    ensures visited { SpansResult symbols.lower symbols.upper (read s.now) (set_at set.now 0) (entries table.old counts.sets)
        from notes.old counts.notes table.new notes.new result }
    ensures places { ProgressPlaced places.new table.new result }
{
    let upper = symbols.upper;
    let top = upper as u64 + 1;
    let mut a = symbols.lower as u64;
    let mut n = counts.sets;
    let mut count = counts.notes;
    while a < top {
        let first = a as u32;
        let visited = visit(
            s, starts, closures, set, first, top, table, n, places, compared,
        );
        let last = (visited.cut - 1) as u32;
        note(notes, count, from, first, last, visited.number);
        n = visited.sets;
        if n == MOST_STATES {
            return None;
        }
        count += 1;
        a = visited.cut;
    }
    Some(SetCounts {
        sets: n,
        notes: count,
    })
}

// The note of the sink's loop, which holds all symbols, behind `count` others; answers how many notes there are then.
pub fn note_sink(notes: &mut [u32], count: usize, sink: u32, symbols: Ends) -> usize
    requires { (length notes.old % 5 ≡ 0) × (count ≤ 1099511627776) }
    ensures { Written notes.old (5 * count) (write_records (sink_notes symbols.lower symbols.upper sink)) notes.new (5 * result) }
{
    if symbols.lower <= symbols.upper {
        note(notes, count, sink, symbols.lower, symbols.upper, 256);
        return count + 1;
    }
    count
}

// How many words the run of q has, by the table of the runs.
fn run_length(starts: &[u32], q: usize) -> u32
    requires { q < 256 }
    ensures { result ≡ run_length starts.now q }
{
    if starts.len() <= q + 1 {
        return 0;
    }
    let start = starts[q];
    let end = starts[q + 1];
    if end <= start {
        return 0;
    }
    end - start
}

// Whether the runs of the set's members have over 64 records together, of five words each: then a pass over the events of the whole sheet is quicker than reading the runs
// for each span.
pub fn is_long(starts: &[u32], set: &[u64]) -> bool
    requires { 4 ≤ length set.now }
    ensures { result ≡ nat_lt 320 (run_lengths starts.now (set_at set.now 0)) }
{
    let mut words: u64 = 0;
    let mut q = sets::next_member(set, 0);
    while q < 256 {
        words += run_length(starts, q) as u64;
        if 320 < words {
            return true;
        }
        q = sets::next_member(set, q + 1);
    }
    false
}

// Whether the set is long, asked once its fourth span is visited: most sets have no more.
fn is_found_long(starts: &[u32], set: &[u64], spans: usize) -> bool
    requires { 4 ≤ length set.now }
    ensures { result ≡ (spans == 4 && nat_lt 320 (run_lengths starts.now (set_at set.now 0))) }
{
    if spans != 4 {
        return false;
    }
    is_long(starts, set)
}

// Visits the spans of a set like `visit_spans`, but gives up where the set is long: the first row of the table is then what it was.
fn try_spans(
    s: &[u32],
    starts: &[u32],
    closures: &[u64],
    symbols: Ends,
    set: &[u64],
    from: u32,
    table: &mut [u64],
    places: &mut [u32],
    notes: &mut [u32],
    counts: SetCounts,
    compared: &mut u64,
) -> Result<Option<SetCounts>, Unfinished>
    requires tables { Tables s.now starts.now closures.now × StateSet s.now set.now }
    requires table_and_notes { TableAndNotes s.now table.old notes.old counts.sets counts.notes × (0 < counts.sets) × Placed places.old (entries table.old counts.sets) }
    ensures visited { SpansExploration symbols.lower symbols.upper (read s.now) (set_at set.now 0) (entries table.old counts.sets)
        from notes.old counts.notes table.old table.new notes.new result }
    ensures places { ExplorationPlaced places.new table.new result }
{
    let upper = symbols.upper;
    let top = upper as u64 + 1;
    let noted = counts.notes;
    let mut a = symbols.lower as u64;
    let mut n = counts.sets;
    let mut count = noted;
    while a < top {
        let first = a as u32;
        let visited = visit(
            s, starts, closures, set, first, top, table, n, places, compared,
        );
        let last = (visited.cut - 1) as u32;
        note(notes, count, from, first, last, visited.number);
        n = visited.sets;
        if n == MOST_STATES {
            return Ok(None);
        }
        count += 1;
        a = visited.cut;
        if is_found_long(starts, set, count - noted) {
            return Err(Unfinished);
        }
    }
    Ok(Some(SetCounts {
        sets: n,
        notes: count,
    }))
}

// Visits the spans of entry i of the table, or gives up.
fn visit_set(
    s: &[u32],
    starts: &[u32],
    closures: &[u64],
    symbols: Ends,
    i: usize,
    table: &mut [u64],
    places: &mut [u32],
    notes: &mut [u32],
    counts: SetCounts,
    compared: &mut u64,
) -> Result<Option<SetCounts>, Unfinished>
    requires tables { Tables s.now starts.now closures.now × TableAndNotes s.now table.old notes.old counts.sets counts.notes × (i < counts.sets) }
    requires placed { Placed places.old (entries table.old counts.sets) }
    ensures visited { SpansExploration symbols.lower symbols.upper (read s.now) (slice_index_or (entries table.old counts.sets) i [])
        (entries table.old counts.sets) i notes.old counts.notes table.old table.new notes.new result }
    ensures places { ExplorationPlaced places.new table.new result }
{
    let mut set = [0u64; 4];
    sets::copy_row(&mut set, table, i);
    try_spans(
        s, starts, closures, symbols, &set, i as u32, table, places, notes, counts, compared,
    )
}

// Whether the memory has less room than notes could need, and less than for `count`.
fn is_full(notes: &[u32], count: usize) -> bool
    requires { count ≤ 2199023255552 }
    ensures { result ≡ (nat_lt (length notes.now) 10240 && nat_lt (length notes.now) (5 * count)) }
{
    if 10240 <= notes.len() {
        return false;
    }
    notes.len() < 5 * count
}

// The whole table, from the start's closure in its first row on, and the notes of all states, the sink's last. Gives up where a set is long, and where
// the memory is short and the notes have no room in it: the first row of the table is then what it was.
pub fn explore(
    s: &[u32],
    starts: &[u32],
    closures: &[u64],
    symbols: Ends,
    table: &mut [u64],
    notes: &mut [u32],
    compared: &mut u64,
) -> Result<Option<SetCounts>, Unfinished>
    requires { StartTable s.now starts.now closures.now table.old × (length notes.old % 5 ≡ 0) }
    ensures { TableExploration symbols.lower symbols.upper (read s.now) table.new notes.new result }
{
    let mut places = [0u32; 509];
    sets::place_first(&mut places, table);
    let mut n: usize = 1;
    let mut count: usize = 0;
    let mut i: usize = 0;
    while i < n {
        if is_full(notes, count) {
            return Err(Unfinished);
        }
        let counts = SetCounts {
            sets: n,
            notes: count,
        };
        let progress = visit_set(
            s,
            starts,
            closures,
            symbols,
            i,
            table,
            &mut places,
            notes,
            counts,
            compared,
        )?;
        let Some(reached) = progress else {
            return Ok(None);
        };
        n = reached.sets;
        count = reached.notes;
        i += 1;
    }
    let all = note_sink(notes, count, n as u32, symbols);
    if is_full(notes, all) {
        return Err(Unfinished);
    }
    Ok(Some(SetCounts {
        sets: n,
        notes: all,
    }))
}
