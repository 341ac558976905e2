// The first pass where a set is long: its spans are visited by one pass over the events of the sheet. A span that leads where the last one that led somewhere leads needs no look-up.
ghost use Rattle.std.specs.Prelude.{◌≡◌, ◌+◌, ◌-◌, ◌*◌, ◌%◌, ◌<◌, ◌≤◌, ◌&&◌, [], length, if◌then◌else◌, nat_eq, nat_lt, slice_index_or};
ghost use Rattle.lists.specs.Index.{same};
ghost use Rattle.sets.specs.inner.BitSet.{set_at, entries};
ghost use Rattle.sets.specs.inner.Places.{Placed};
ghost use Rattle.sheets.specs.Sheet.{read};
ghost use Rattle.words.specs.inner.Gather.{Tables};
ghost use Rattle.sweep.specs.inner.Events.{Lined};
ghost use Rattle.sweep.specs.inner.Passing.{Closed};
ghost use Rattle.determinize.specs.inner.Notes.{SetPlaced, SpanVisited, SpansResult, TableResult};
ghost use Rattle.determinize.specs.inner.Memory.{TableAndNotes, StartTable, ProgressPlaced};
ghost use Rattle.determinize.specs.inner.Attempts.{TableResultWithRoom, SetNumbered};

use crate::MOST_STATES;
use crate::exploring::{SetCounts, SetEntry};
use ranges::Ends;
use sweep::Turn;

// Whether row j is one of the first n of the table and is the set.
fn is_row(table: &[u64], n: usize, set: &[u64], j: usize, compared: &mut u64) -> bool
    requires { (4 * n ≤ length table.now) × (4 ≤ length set.now) }
    ensures { result ≡ (nat_lt j n && same (set_at set.now 0) (set_at table.now (4 * j))) }
{
    if n <= j {
        return false;
    }
    *compared = std::num::wrapping_add_u64(*compared, 1);
    sets::same(table, j, set)
}

// The number of a set in the table of n sets, like `place`. Row `near` is compared first.
fn place_near(
    table: &mut [u64],
    n: usize,
    places: &mut [u32],
    set: &[u64],
    near: u32,
    compared: &mut u64,
) -> SetEntry
    requires { (n < 256) × (length table.old ≡ 1024) × (4 ≤ length set.now) × SetNumbered (entries table.old n) near × Placed places.old (entries table.old n) }
    ensures number { SetPlaced (set_at set.now 0) (entries table.old n) table.new result.sets result.number }
    ensures places { Placed places.new (entries table.new result.sets) }
{
    if is_row(table, n, set, near as usize, compared) {
        return SetEntry {
            number: near,
            sets: n,
        };
    }
    crate::exploring::place(table, n, places, set, compared)
}

// The row to compare first with the next set: that of the set with this number, or row `near` as before where it is the empty set, which has the number 256.
fn next_near(near: u32, number: u32) -> u32
    ensures { result ≡ (if nat_eq number 256 then near else number) }
{
    if number == 256 {
        return near;
    }
    number
}

// The span of state `from` from first up to the cut, which leads to the set in row 1 of the tree, like `visit`. Row `near` is compared first; the number
// answered is that of the row to compare first with the next set.
fn visit_swept(
    tree: &[u64],
    from: u32,
    first: u32,
    cut: u64,
    near: u32,
    table: &mut [u64],
    places: &mut [u32],
    notes: &mut [u32],
    counts: SetCounts,
    compared: &mut u64,
) -> SetEntry
    requires { (8 ≤ length tree.now) × (1 ≤ cut) × (cut ≤ 4294967296) × (counts.sets < 256) × (length table.old ≡ 1024) × (length notes.old % 5 ≡ 0)
        × SetNumbered (entries table.old counts.sets) near × Placed places.old (entries table.old counts.sets) }
    ensures visited { SpanVisited (set_at tree.now 4) (entries table.old counts.sets) from first (cut - 1)
        notes.old counts.notes table.new notes.new result.sets }
    ensures numbered { SetNumbered (entries table.new result.sets) result.number }
    ensures places { Placed places.new (entries table.new result.sets) }
{
    let mut next = [0u64; 4];
    sets::copy_row(&mut next, tree, 1);
    let placed = place_near(table, counts.sets, places, &next, near, compared);
    let last = (cut - 1) as u32;
    crate::exploring::note(notes, counts.notes, from, first, last, placed.number);
    SetEntry {
        number: next_near(near, placed.number),
        sets: placed.sets,
    }
}

// Visits the spans of a set like `visit_spans`, by one pass over the openings and the endings of the sheet.
fn sweep_spans(
    s: &[u32],
    closures: &[u64],
    opens: &[u32],
    ends: &[u32],
    symbols: Ends,
    set: &[u64],
    from: u32,
    table: &mut [u64],
    places: &mut [u32],
    notes: &mut [u32],
    counts: SetCounts,
    compared: &mut u64,
) -> Option<SetCounts>
    requires closed { Closed s.now closures.now × Lined 0 s.now opens.now × Lined 1 s.now ends.now × (4 ≤ length set.now) }
    requires table_and_notes { TableAndNotes s.now table.old notes.old counts.sets counts.notes × Placed places.old (entries table.old counts.sets) }
    ensures visited { SpansResult symbols.lower symbols.upper (read s.now) (set_at set.now 0) (entries table.old counts.sets)
        from notes.old counts.notes table.new notes.new result }
    ensures places { ProgressPlaced places.new table.new result }
{
    let mut reach = [0u64; 256];
    let mut tree = [0u64; 2048];
    let upper = symbols.upper;
    let top = upper as u64 + 1;
    let mut turn = Turn {
        opens: 0,
        ends: 0,
        cut: symbols.lower as u64,
    };
    let mut n = counts.sets;
    let mut near: u32 = 256;
    let mut count = counts.notes;
    while turn.cut < top {
        let first = turn.cut as u32;
        turn = sweep::step(
            s, closures, opens, ends, set, first, turn, &mut reach, &mut tree, top,
        );
        let placed = visit_swept(
            &tree,
            from,
            first,
            turn.cut,
            near,
            table,
            places,
            notes,
            SetCounts {
                sets: n,
                notes: count,
            },
            compared,
        );
        n = placed.sets;
        if n == MOST_STATES {
            return None;
        }
        near = placed.number;
        count += 1;
    }
    Some(SetCounts {
        sets: n,
        notes: count,
    })
}

// Visits the spans of entry i of the table.
fn visit_entry(
    s: &[u32],
    starts: &[u32],
    closures: &[u64],
    opens: &[u32],
    ends: &[u32],
    symbols: Ends,
    i: usize,
    table: &mut [u64],
    places: &mut [u32],
    notes: &mut [u32],
    counts: SetCounts,
    compared: &mut u64,
) -> Option<SetCounts>
    requires tables { Tables s.now starts.now closures.now × Lined 0 s.now opens.now × Lined 1 s.now ends.now }
    requires table_and_notes { TableAndNotes s.now table.old notes.old counts.sets counts.notes × (i < counts.sets) × Placed places.old (entries table.old counts.sets) }
    ensures visited { SpansResult symbols.lower symbols.upper (read s.now) (slice_index_or (entries table.old counts.sets) i [])
        (entries table.old counts.sets) i notes.old counts.notes table.new notes.new result }
    ensures places { ProgressPlaced places.new table.new result }
{
    let mut set = [0u64; 4];
    sets::copy_row(&mut set, table, i);
    if crate::exploring::is_long(starts, &set) {
        return sweep_spans(
            s, closures, opens, ends, symbols, &set, i as u32, table, places, notes, counts,
            compared,
        );
    }
    crate::exploring::visit_spans(
        s, starts, closures, symbols, &set, i as u32, table, places, notes, counts, compared,
    )
}

// The whole table like `explore`, with the openings and the endings of the sheet in order.
fn explore_swept(
    s: &[u32],
    starts: &[u32],
    closures: &[u64],
    opens: &[u32],
    ends: &[u32],
    symbols: Ends,
    table: &mut [u64],
    notes: &mut [u32],
    compared: &mut u64,
) -> Option<SetCounts>
    requires { StartTable s.now starts.now closures.now table.old × Lined 0 s.now opens.now × Lined 1 s.now ends.now × (length notes.old % 5 ≡ 0) }
    ensures { TableResult symbols.lower symbols.upper (read s.now) notes.old table.new notes.new result }
{
    let mut places = [0u32; 509];
    sets::place_first(&mut places, table);
    let mut n: usize = 1;
    let mut count: usize = 0;
    let mut i: usize = 0;
    while i < n {
        let counts = SetCounts {
            sets: n,
            notes: count,
        };
        let progress = visit_entry(
            s,
            starts,
            closures,
            opens,
            ends,
            symbols,
            i,
            table,
            &mut places,
            notes,
            counts,
            compared,
        );
        let Some(reached) = progress else {
            return None;
        };
        n = reached.sets;
        count = reached.notes;
        i += 1;
    }
    Some(SetCounts {
        sets: n,
        notes: crate::exploring::note_sink(notes, count, n as u32, symbols),
    })
}

// The whole table like `explore`: the events of the sheet are put in order, with the memory of the notes lent for it.
pub fn explore_by_events(
    s: &[u32],
    starts: &[u32],
    closures: &[u64],
    symbols: Ends,
    table: &mut [u64],
    notes: &mut [u32],
    compared: &mut u64,
) -> Option<SetCounts>
    requires { StartTable s.now starts.now closures.now table.old × (length notes.old ≡ 10240) }
    ensures { TableResultWithRoom symbols.lower symbols.upper (read s.now) table.new notes.new result }
{
    let mut opens = [0u32; 2048];
    let mut ends = [0u32; 2048];
    let opened = sweep::order_events(0, s, &mut opens, notes);
    let ended = sweep::order_events(1, s, &mut ends, notes);
    explore_swept(
        s,
        starts,
        closures,
        &opens[0..opened],
        &ends[0..ended],
        symbols,
        table,
        notes,
        compared,
    )
}
