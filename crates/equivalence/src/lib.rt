// `is_equivalent` (document 01, "Equality"): the starts of two automata are joined, and pairs of states are walked over their equal
// triggers. Each pair joins two classes of states, so that there are fewer pairs than states. Two runs are in the order of their
// triggers: one pass over both finds equal triggers, the first record of each, and a trigger that one of them lacks.
#![tactic(auto)]

ghost use Rattle.std.specs.Prelude.{◌≡◌, ◌<◌, length};
ghost use Rattle.automata.specs.Records.{read_records};
ghost use Rattle.automata.specs.inner.Records.{record_at};
ghost use Rattle.refusal.specs.Decision.{decision_of};
ghost use Rattle.sheets.specs.inner.Accepted.{Accepted};
ghost use Rattle.sheets.specs.Sheet.{read};
ghost use Rattle.equivalence.specs.Triggers.{same_trigger};
ghost use Rattle.equivalence.specs.Equivalent.{equivalent, equivalent_answer};
ghost use Rattle.equivalence.specs.inner.Rows.{RowEnd};
ghost use Rattle.pairs.specs.inner.Pairs.{pairs_of};
ghost use Rattle.equivalence.specs.inner.Walking.{ComparableRuns, RunsAnswered, IndexedSheets};

use dsu::DSU;
use refusal::InputRefusal;

// Whether two records have the same trigger.
#[tactic(auto, unfolding(crate::specs::Triggers::same_trigger))]
fn same_trigger(d: &[u32; 5], e: &[u32; 5]) -> bool
    ensures { result ≡ same_trigger (record_at d.now 0) (record_at e.now 0) }
{
    d[1] == e[1] && d[2] == e[2] && d[3] == e[3]
}

// The place behind the records that have the trigger of the record at `at`.
#[tactic(auto, using(crate::proofs::Reading::row_stop, crate::proofs::Reading::row_next, crate::proofs::Reading::row_end))]
fn next_trigger(records: &[[u32; 5]], at: usize) -> usize
    requires { at < length records.now }
    ensures { RowEnd records.now at result }
{
    for i in at + 1..records.len() {
        if !same_trigger(&records[at], &records[i]) {
            return i;
        }
    }
    records.len()
}

// The records ra and rb of two states, in one pass: the targets of the first records of equal triggers are joined, up to a trigger
// that one of the states lacks. How many pairs there are then, or None at such a trigger.
fn compare_runs(
    ra: &[u32],
    rb: &[u32],
    repr: &mut [u32; 512],
    size: &mut [u32; 512],
    queue: &mut [u32; 1024],
    n: usize,
    mut made: usize,
    n1: usize,
) -> Option<usize>
    requires { ComparableRuns n1 (read_records ra.now) (read_records rb.now) (pairs_of repr.old size.old queue.old n made) }
    ensures { RunsAnswered n1 (read_records ra.now) (read_records rb.now) (pairs_of repr.old size.old queue.old n made) (pairs_of repr.new size.new queue.new n) result }
{
    let (records_a, _) = ra.as_chunks::<5>();
    let (records_b, _) = rb.as_chunks::<5>();
    let mut j: usize = 0;
    let mut k: usize = 0;
    while j < records_a.len() {
        if records_b.len() <= k {
            return None;
        }
        let d = &records_a[j];
        let e = &records_b[k];
        if !same_trigger(d, e) {
            return None;
        }
        made = pairs::join_pair(repr, size, queue, n, made, n1, d[4], e[4]);
        j = next_trigger(records_a, j);
        k = next_trigger(records_b, k);
    }
    (records_b.len() <= k).then_some(made)
}

// The starts are joined, and the runs of each pair in the queue are compared. starts_a and starts_b say where the records of each state
// begin.
fn walk_pairs(a: &[u32], b: &[u32], starts_a: &[u32], starts_b: &[u32]) -> bool
    requires { IndexedSheets a.now b.now starts_a.now starts_b.now }
    ensures { result ≡ equivalent (read a.now) (read b.now) }
{
    let n1 = a[2] as usize;
    let n2 = b[2] as usize;
    let fresh = DSU::new(n1 + n2);
    let sets = fresh.sets;
    let n = sets.n;
    let mut repr = sets.repr;
    let mut size = sets.size;
    let mut queue = [0u32; 1024];
    let mut made = pairs::join_pair(&mut repr, &mut size, &mut queue, n, 0, n1, a[1], b[1]);
    let mut head: usize = 0;
    while head < made {
        let p = queue[2 * head];
        let q = queue[2 * head + 1];
        if sheets::accept_word(a, p) != sheets::accept_word(b, q) {
            return false;
        }
        let ra = sheets::run(a, starts_a, p);
        let rb = sheets::run(b, starts_b, q);
        let Some(more) = compare_runs(ra, rb, &mut repr, &mut size, &mut queue, n, made, n1) else {
            return false;
        };
        made = more;
        head += 1;
    }
    true
}

// Whether two accepted sheets are equivalent.
#[tactic(auto, using(crate::proofs::WalkLaws::walk_indexed))]
fn walk(a: &[u32], b: &[u32]) -> bool
    requires { Accepted a.now × Accepted b.now }
    ensures { result ≡ equivalent (read a.now) (read b.now) }
{
    let mut starts_a = [0u32; 257];
    let mut starts_b = [0u32; 257];
    sheets::run_starts(a, &mut starts_a);
    sheets::run_starts(b, &mut starts_b);
    walk_pairs(a, b, &starts_a, &starts_b)
}

// Whether no pair of states that equal triggers reach differs in acceptance or in its triggers.
#[tactic(auto, using(crate::proofs::Answers::answer_laws))]
pub fn is_equivalent(a: &[u32], b: &[u32]) -> Result<bool, InputRefusal>
    ensures { decision_of result ≡ equivalent_answer a.now b.now }
{
    sheets::check(a)?;
    sheets::check(b)?;
    Ok(walk(a, b))
}
