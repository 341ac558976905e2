// Epsilon elimination: each state gets the ranges and the acceptance of its closure. Closures and runs are found once. The ranges of a closure are
// gathered and put in order by themselves, once for states in a row that have the same closure, and then those of all states one behind the other, in
// local memory; nothing is written to an output before it is known that they are few enough.
#![tactic(auto)]

ghost use mathlib.Core.List.{[], ◌∷◌, ◌++◌, flat_map};
ghost use Rattle.std.specs.Prelude.{◌≡◌, ◌+◌, ◌*◌, ◌≤◌, ◌<◌, length};
ghost use Rattle.stores.specs.Written.{Written};
ghost use Rattle.automata.specs.Automaton.{states};
ghost use Rattle.automata.specs.Records.{read_records};
ghost use Rattle.automata.specs.inner.Records.{record_at};
ghost use Rattle.labels.specs.Labels.{labels_fault, read_labels};
ghost use Rattle.output.specs.inner.Gathering.{Memory, Open, Gathered, Collected};
ghost use Rattle.output.specs.Made.{output_of};
ghost use Rattle.output.specs.inner.Ordered.{records_in};
ghost use Rattle.output.specs.Output.{outputs, labels_first, sheet_size};
ghost use Rattle.sets.specs.inner.BitSet.{set_at};
ghost use Rattle.sets.specs.inner.Members.{Canon};
ghost use Rattle.sheets.specs.inner.Accepted.{Accepted};
ghost use Rattle.sheets.specs.inner.Runs.{Indexed};
ghost use Rattle.sheets.specs.Sheet.{state_count, read, write};
ghost use Rattle.words.specs.inner.Gather.{Tables};
ghost use Rattle.words.specs.Simulation.{closure, kind_of};
ghost use Rattle.epsilon.specs.Eliminate.{moved_to, ranges_from, closure_ranges, closure_kinds, eliminated, eliminated_with, eliminate_answer};
ghost use Rattle.epsilon.specs.inner.Tables.{ClosuresOf, TransitionsOf, EliminationInputs};

use output::{Filled, Made};
use refusal::{Refusal, StateRefusal};

// The record r as one of state p behind the others, if it is a range.
#[tactic(auto, using(crate::proofs::Gathering::range_other))]
fn add_range(r: &[u32; 5], p: u32, buf: &mut [u32], f: Filled) -> Filled
    requires { Open buf.old f.sorted f.end }
    ensures { Gathered buf.new result.sorted result.end (records_in buf.old 0 f.end ++ moved_to p (record_at r.now 0 ∷ [])) }
{
    if r[1] != 1 {
        return f;
    }
    output::gather_record(buf, f, p, r[1], r[2], r[3], r[4])
}

// The ranges of the run as those of state p, until there are too many.
fn add_run(run: &[u32], p: u32, buf: &mut [u32], start: Filled) -> Filled
    requires { Open buf.old start.sorted start.end }
    ensures { Gathered buf.new result.sorted result.end (records_in buf.old 0 start.end ++ moved_to p (read_records run.now)) }
{
    let (records, _) = run.as_chunks::<5>();
    let mut f = start;
    for r in records {
        f = add_range(r, p, buf, f);
        if buf.len() <= f.end {
            return f;
        }
    }
    f
}

// The ranges of the states of a set, as those of state 0.
fn add_set(s: &[u32], starts: &[u32], set: &[u64], part: &mut [u32]) -> Filled
    requires { Accepted s.now × Indexed s.now starts.now × Canon (state_count s.now) (set_at set.now 0) × (4 ≤ length set.now) × Memory part.old }
    ensures { Gathered part.new result.sorted result.end (ranges_from (read s.now) 0 (set_at set.now 0)) }
{
    let mut f = Filled { sorted: 0, end: 0 };
    let mut q = sets::next_member(set, 0);
    while q < 256 {
        f = add_run(sheets::run(s, starts, q as u32), 0, part, f);
        if part.len() <= f.end {
            return f;
        }
        q = sets::next_member(set, q + 1);
    }
    f
}

// The ranges of the closure of p as those of state 0, in order, equal ones once. In set is the closure whose ranges the part has already: states of
// a cycle of epsilons have the same.
fn closure_part(
    s: &[u32],
    starts: &[u32],
    closures: &[u64],
    p: u32,
    set: &mut [u64],
    part: &mut [u32],
    end: usize,
) -> usize
    requires { Tables s.now starts.now closures.now × (p < state_count s.now) × (4 ≤ length set.old) × Collected part.old end (ranges_from (read s.now) 0 (set_at set.old 0)) }
    ensures { (set_at set.new 0 ≡ closure (read s.now) p) × Collected part.new result (ranges_from (read s.now) 0 (closure (read s.now) p)) }
{
    if sets::same(closures, p as usize, set) {
        return end;
    }
    sets::copy_row(set, closures, p as usize);
    let f = add_set(s, starts, set, part);
    output::collect_records(part, f)
}

// The ranges of the closures of all states. Those of each closure are gathered for themselves, so that equal ones are met among few.
fn add_closures(
    s: &[u32],
    starts: &[u32],
    closures: &[u64],
    part: &mut [u32],
    buf: &mut [u32],
) -> Filled
    requires { Tables s.now starts.now closures.now × Memory buf.old × (length part.old ≡ length buf.old) }
    ensures { Gathered buf.new result.sorted result.end (flat_map (closure_ranges (read s.now)) (states (state_count s.now))) }
{
    let mut set = [0u64; 4];
    let mut end: usize = 0;
    let mut f = Filled { sorted: 0, end: 0 };
    for p in 0..s[2] {
        end = closure_part(s, starts, closures, p, &mut set, part, end);
        if part.len() / 9 * 8 < end {
            return Filled {
                sorted: 0,
                end: buf.len(),
            };
        }
        f = add_run(&part[0..end], p, buf, f);
        if buf.len() <= f.end {
            return f;
        }
    }
    f
}

// The ranges of the closures of all states in order, equal ones once, unless there are too many.
fn gather(s: &[u32], starts: &[u32], closures: &[u64], part: &mut [u32], buf: &mut [u32]) -> usize
    requires { Tables s.now starts.now closures.now × Memory buf.old × (length part.old ≡ length buf.old) }
    ensures { Collected buf.new result (flat_map (closure_ranges (read s.now)) (states (state_count s.now))) }
{
    let f = add_closures(s, starts, closures, part, buf);
    output::collect_records(buf, f)
}

// The accept word of the closure of p.
fn closure_kind(s: &[u32], closures: &[u64], p: u32) -> u32
    requires { ClosuresOf s.now closures.now × (p < state_count s.now) }
    ensures { result ≡ kind_of (read s.now) (closure (read s.now) p) }
{
    let mut set = [0u64; 4];
    sets::copy_row(&mut set, closures, p as usize);
    words::kind_of(s, &set)
}

// The accept words of all states at a place; the place behind them.
fn put_accepts(s: &[u32], closures: &[u64], out: &mut [u32], at: usize) -> usize
    requires { ClosuresOf s.now closures.now × (at + state_count s.now ≤ length out.old) }
    ensures { Written out.old at (closure_kinds (read s.now) (state_count s.now)) out.new result }
{
    let mut end = at;
    for p in 0..s[2] {
        let kind = closure_kind(s, closures, p);
        end = stores::put(out, end, kind);
    }
    end
}

// The sheet whose records are these words; its length.
fn put_sheet(s: &[u32], closures: &[u64], records: &[u32], out: &mut [u32]) -> usize
    requires { ClosuresOf s.now closures.now × TransitionsOf s.now records.now × (sheet_size ≤ length out.old) }
    ensures { Written out.old 0 (write (eliminated (read s.now))) out.new result }
{
    let first = output::put_start(out, s[1], s[2]);
    let count = put_accepts(s, closures, out, first);
    let behind = stores::put(out, count, (records.len() / 5) as u32);
    stores::put_all(out, behind, records)
}

// The sheet whose records are these words, with its labels.
fn put_result(
    s: &[u32],
    closures: &[u64],
    records: &[u32],
    labels: &[u8],
    out: &mut [u32],
    names: &mut [u8],
) -> Result<Made, Refusal>
    requires { ClosuresOf s.now closures.now × TransitionsOf s.now records.now × EliminationInputs s.now out.old names.old × (labels_fault (state_count s.now) labels.now ≡ 0) }
    ensures { output_of result out.new names.new ≡ outputs out.old names.old (eliminated_with (read s.now) (read_labels labels.now)) }
{
    let words = put_sheet(s, closures, records, out);
    let bytes = labels::copy_all(names, labels);
    Ok(Made { words, bytes })
}

// Eliminates the epsilons of an accepted sheet with an accepted list of labels, in memory for as many transitions as a sheet may have.
fn eliminate_large(
    s: &[u32],
    starts: &[u32],
    closures: &[u64],
    labels: &[u8],
    out: &mut [u32],
    names: &mut [u8],
) -> Result<Made, Refusal>
    requires { Tables s.now starts.now closures.now × EliminationInputs s.now out.old names.old × (labels_fault (state_count s.now) labels.now ≡ 0) }
    ensures { output_of result out.new names.new ≡ outputs out.old names.old (eliminated_with (read s.now) (read_labels labels.now)) }
{
    let mut part = [0u32; 11520];
    let mut buf = [0u32; 11520];
    let end = gather(s, starts, closures, &mut part, &mut buf);
    if 10240 < end {
        return Err(Refusal::State(StateRefusal::Transitions));
    }
    put_result(s, closures, &buf[0..end], labels, out, names)
}

// The same; memory for 128 transitions is tried first, and where it is too small the call is made again. Met is how many words of transitions were met
// there, or at first those that the sheet has, so that a long sheet takes the large memory at once. The compiler does not take a function with a large array into one that calls itself, so few transitions do not pay for the large memory.
fn eliminate_tables(
    s: &[u32],
    starts: &[u32],
    closures: &[u64],
    labels: &[u8],
    out: &mut [u32],
    names: &mut [u8],
    met: usize,
) -> Result<Made, Refusal>
    requires { Tables s.now starts.now closures.now × EliminationInputs s.now out.old names.old × (labels_fault (state_count s.now) labels.now ≡ 0) }
    ensures { output_of result out.new names.new ≡ outputs out.old names.old (eliminated_with (read s.now) (read_labels labels.now)) }
{
    if 640 < met {
        return eliminate_large(s, starts, closures, labels, out, names);
    }
    let mut part = [0u32; 720];
    let mut buf = [0u32; 720];
    let end = gather(s, starts, closures, &mut part, &mut buf);
    if 640 < end {
        return eliminate_tables(s, starts, closures, labels, out, names, end);
    }
    put_result(s, closures, &buf[0..end], labels, out, names)
}

// Eliminates the epsilons of an accepted sheet with an accepted list of labels. Where the runs begin and the closures are put into tables of S and of
// C words, with an entry and a row for each state. It stays a function of its own, so that small tables do not pay for large ones.
#[inline(never)]
fn eliminate_within<const S: usize, const C: usize>(
    s: &[u32],
    labels: &[u8],
    out: &mut [u32],
    names: &mut [u8],
) -> Result<Made, Refusal>
    requires { (state_count s.now < S) × (S ≤ 257) × (4 * state_count s.now ≤ C) × (C ≤ 1024) × EliminationInputs s.now out.old names.old × (labels_fault (state_count s.now) labels.now ≡ 0) }
    ensures { output_of result out.new names.new ≡ outputs out.old names.old (eliminated_with (read s.now) (read_labels labels.now)) }
{
    let mut starts = [0u32; S];
    let mut closures = [0u64; C];
    sheets::run_starts(s, &mut starts);
    words::state_closures(s, &mut closures);
    let given = s.len() - s[2] as usize;
    eliminate_tables(s, &starts, &closures, labels, out, names, given)
}

// The same with tables for 32 states where they are enough, and else for as many as a sheet may have.
fn eliminate_accepted(
    s: &[u32],
    labels: &[u8],
    out: &mut [u32],
    names: &mut [u8],
) -> Result<Made, Refusal>
    requires { EliminationInputs s.now out.old names.old × (labels_fault (state_count s.now) labels.now ≡ 0) }
    ensures { output_of result out.new names.new ≡ outputs out.old names.old (eliminated_with (read s.now) (read_labels labels.now)) }
{
    if 32 < s[2] {
        return eliminate_within::<257, 1024>(s, labels, out, names);
    }
    eliminate_within::<33, 128>(s, labels, out, names)
}

// Eliminates the epsilons of an accepted sheet.
#[tactic(auto, using(crate::proofs::Answers::checked_laws))]
fn eliminate_checked(
    s: &[u32],
    labels: &[u8],
    out: &mut [u32],
    names: &mut [u8],
) -> Result<Made, Refusal>
    requires { EliminationInputs s.now out.old names.old }
    ensures { output_of result out.new names.new ≡ outputs out.old names.old (labels_first (state_count s.now) labels.now (eliminated_with (read s.now) (read_labels labels.now))) }
{
    labels::check(s[2] as usize, labels)?;
    eliminate_accepted(s, labels, out, names)
}

// The same states and start, each with the ranges and the acceptance of its closure; the labels are kept.
#[tactic(auto, using(crate::proofs::Answers::eliminate_laws))]
pub fn epsilon_eliminate(
    s: &[u32],
    labels: &[u8],
    out: &mut [u32],
    names: &mut [u8],
) -> Result<Made, Refusal>
    ensures { output_of result out.new names.new ≡ outputs out.old names.old (eliminate_answer s.now labels.now out.old names.old) }
{
    if output::lacks_room(out, names) {
        return Err(Refusal::State(StateRefusal::OutputLength));
    }
    sheets::check(s)?;
    eliminate_checked(s, labels, out, names)
}
