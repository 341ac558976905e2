// The transitions of the pairs: gathered as they come in lent memory, then put in order, equal ones once.
ghost use Rattle.std.specs.Prelude.{[], ◌∷◌, ◌++◌, map, ◌≡◌, ◌*◌, ◌/◌, ◌≤◌, ◌<◌, length, get_or};
ghost use Rattle.automata.specs.Records.{read_records};
ghost use Rattle.automata.specs.inner.Records.{record_at};
ghost use Rattle.sheets.specs.Sheet.{state_count, read};
ghost use Rattle.output.specs.inner.Gathering.{Memory, Open, Gathered, Collected};
ghost use Rattle.output.specs.inner.Ordered.{records_in};
ghost use Rattle.product.specs.Product.{joints_from, transition_of_joint, transitions_from, place_in};
ghost use Rattle.sheets.specs.inner.Runs.{IndexedSheet};
ghost use Rattle.product.specs.inner.Tables.{pair_of, table_of, Queued, RunTo, PairsBelow, links};

use output::Filled;

// The number of the pair of p and q among the first n of the queue, or n.
#[tactic(auto, using(crate::proofs::Numbering::number_laws))]
fn number_of(queue: &[u32], t: &[u8], n: usize, p: u32, q: u32) -> u32
    requires { Queued queue.now t.now n × (n ≤ 256) × (p < length t.now / 256) × (q < 256) }
    ensures { result ≡ place_in (table_of queue.now n) (record { left = p; right = q }) }
{
    crate::numbers::find_pair(queue, t, n, p * 256 + q).unwrap_or(n) as u32
}

// The transition of pair i by the records d and e behind the others, if they are ranges that meet. Like the functions below it answers how far
// the memory is filled.
#[tactic(auto, using(crate::proofs::Adding::joint_laws))]
fn add_joint(
    d: &[u32],
    e: &[u32],
    i: u32,
    queue: &[u32],
    t: &[u8],
    n: usize,
    buf: &mut [u32],
    f: Filled,
) -> Filled
    requires { (length d.now ≡ 5) × (length e.now ≡ 5) × ((record_at d.now 0).to < length t.now / 256) × ((record_at e.now 0).to < 256) × Queued queue.now t.now n × (n ≤ 256) × Open buf.old f.sorted f.end }
    ensures { Gathered buf.new result.sorted result.end (records_in buf.old 0 f.end ++ links (table_of queue.now n) i (record_at d.now 0 ∷ []) (record_at e.now 0 ∷ [])) }
{
    if d[1] != 1 {
        return f;
    }
    if e[1] != 1 {
        return f;
    }
    match ranges::intersect_ranges(d[2], d[3], e[2], e[3]) {
        Some((first, last)) => {
            let to = number_of(queue, t, n, d[4], e[4]);
            output::gather_record(buf, f, i, 1, first, last, to)
        }
        None => f,
    }
}

// The transitions of pair i by the record d and those of the run, until there are too many. No record of the run meets d from the first on that
// starts behind it.
fn add_run(
    d: &[u32],
    run: &[u32],
    i: u32,
    queue: &[u32],
    t: &[u8],
    n: usize,
    buf: &mut [u32],
    f: Filled,
) -> Filled
    requires { (length d.now ≡ 5) × ((record_at d.now 0).to < length t.now / 256) × RunTo 256 (read_records run.now) × Queued queue.now t.now n × (n ≤ 256) × Open buf.old f.sorted f.end }
    ensures { Gathered buf.new result.sorted result.end (records_in buf.old 0 f.end ++ links (table_of queue.now n) i (record_at d.now 0 ∷ []) (read_records run.now)) }
{
    let (records, _) = run.as_chunks::<5>();
    let mut k = f;
    for e in records {
        if d[3] < e[2] {
            return k;
        }
        k = add_joint(d, e, i, queue, t, n, buf, k);
        if buf.len() <= k.end {
            return k;
        }
    }
    k
}

// The transitions of pair i by the records of two runs, until there are too many. Records of the second run that end before a record of the first
// starts are passed over for good, since later ones start no earlier; where none is left, nothing more is met.
fn add_runs(
    first: &[u32],
    second: &[u32],
    i: u32,
    queue: &[u32],
    t: &[u8],
    n: usize,
    buf: &mut [u32],
    f: Filled,
) -> Filled
    requires { RunTo (length t.now / 256) (read_records first.now) × RunTo 256 (read_records second.now) × Queued queue.now t.now n × (n ≤ 256) × Open buf.old f.sorted f.end }
    ensures { Gathered buf.new result.sorted result.end (records_in buf.old 0 f.end ++ links (table_of queue.now n) i (read_records first.now) (read_records second.now)) }
{
    let (records, _) = first.as_chunks::<5>();
    let mut k = f;
    let mut from: usize = 0;
    for d in records {
        from = crate::passing::pass_ended(second, from, d[2]);
        if second.len() <= from {
            return k;
        }
        k = add_run(d, &second[from..], i, queue, t, n, buf, k);
        if buf.len() <= k.end {
            return k;
        }
    }
    k
}

// The transitions of the i-th pair of the queue, until there are too many.
fn add_pair(
    a: &[u32],
    aruns: &[u32],
    b: &[u32],
    bruns: &[u32],
    queue: &[u32],
    t: &[u8],
    n: usize,
    i: usize,
    buf: &mut [u32],
    f: Filled,
) -> Filled
    requires { IndexedSheet a.now aruns.now × IndexedSheet b.now bruns.now × (256 * state_count a.now ≤ length t.now) × Queued queue.now t.now n × (n ≤ 256) × (i < n) × ((pair_of (get_or queue.now i 0)).left < state_count a.now) × ((pair_of (get_or queue.now i 0)).right < state_count b.now) × Open buf.old f.sorted f.end }
    ensures { Gathered buf.new result.sorted result.end (records_in buf.old 0 f.end ++ map (transition_of_joint (place_in (table_of queue.now n)) i) (joints_from (read a.now) (read b.now) (pair_of (get_or queue.now i 0)))) }
{
    let c = queue[i];
    add_runs(
        sheets::run(a, aruns, c / 256),
        sheets::run(b, bruns, c % 256),
        i as u32,
        queue,
        t,
        n,
        buf,
        f,
    )
}

// The transitions of the first n pairs of the queue, until there are too many.
fn add_pairs(
    a: &[u32],
    aruns: &[u32],
    b: &[u32],
    bruns: &[u32],
    queue: &[u32],
    t: &[u8],
    n: usize,
    buf: &mut [u32],
) -> Filled
    requires { IndexedSheet a.now aruns.now × IndexedSheet b.now bruns.now × (256 * state_count a.now ≤ length t.now) × Queued queue.now t.now n × (n ≤ 256) × PairsBelow (state_count a.now) (state_count b.now) (table_of queue.now n) × Memory buf.old }
    ensures { Gathered buf.new result.sorted result.end (transitions_from (place_in (table_of queue.now n)) (read a.now) (read b.now) 0 (table_of queue.now n)) }
{
    let mut f = Filled { sorted: 0, end: 0 };
    for i in 0..n {
        f = add_pair(a, aruns, b, bruns, queue, t, n, i, buf, f);
        if buf.len() <= f.end {
            return f;
        }
    }
    f
}

// The transitions of the first n pairs of the queue in order, equal ones once, unless there are too many.
#[tactic(auto, using(output::proofs::Collecting::collect_laws))]
pub fn collect_pairs(
    a: &[u32],
    aruns: &[u32],
    b: &[u32],
    bruns: &[u32],
    queue: &[u32],
    t: &[u8],
    n: usize,
    buf: &mut [u32],
) -> usize
    requires { IndexedSheet a.now aruns.now × IndexedSheet b.now bruns.now × (256 * state_count a.now ≤ length t.now) × Queued queue.now t.now n × (n ≤ 256) × PairsBelow (state_count a.now) (state_count b.now) (table_of queue.now n) × Memory buf.old }
    ensures { Collected buf.new result (transitions_from (place_in (table_of queue.now n)) (read a.now) (read b.now) 0 (table_of queue.now n)) }
{
    let f = add_pairs(a, aruns, b, bruns, queue, t, n, buf);
    output::collect_records(buf, f)
}
