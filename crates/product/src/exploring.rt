// Finding the pairs of states that ranges reach: a queue in which a pair is one word, and a table of the numbers of these words.
ghost use Rattle.std.specs.Prelude.{[], ◌∷◌, ◌≡◌, ◌*◌, ◌/◌, ◌≤◌, ◌<◌, length, get_or};
ghost use Rattle.automata.specs.Records.{read_records};
ghost use Rattle.automata.specs.inner.Records.{record_at};
ghost use Rattle.automata.specs.WellFormed.{most_states};
ghost use Rattle.search.specs.Search.{table};
ghost use Rattle.sheets.specs.Sheet.{state_count, read};
ghost use Rattle.product.specs.Product.{meeting_pairs};
ghost use Rattle.sheets.specs.inner.Runs.{IndexedSheet};
ghost use Rattle.product.specs.inner.Tables.{pair_of, table_of, Queued, PairsMet, RunTo, joint_targets, PairsBelow, found_in};

// The pair of p and q gets the next number, if it has none and there is room. The number of pairs afterwards.
#[tactic(auto, using(crate::proofs::Queueing::pair_laws))]
fn meet_pair(queue: &mut [u32], t: &mut [u8], n: usize, p: u32, q: u32) -> usize
    requires { Queued queue.old t.old n × (p < length t.old / 256) × (q < 256) }
    ensures { PairsMet (table_of queue.old n) (record { left = p; right = q } ∷ []) queue.new t.new result }
{
    if 256 < n {
        return n;
    }
    let code = p * 256 + q;
    if crate::numbers::find_pair(queue, t, n, code).is_some() {
        return n;
    }
    queue[n] = code;
    if 256 <= n {
        return n + 1;
    }
    let at = code as usize;
    t[at] = n as u8;
    n + 1
}

// The pair to which the records d and e lead is met, if they are ranges that meet.
#[tactic(auto, using(crate::proofs::Meeting::record_laws))]
fn meet_record(d: &[u32], e: &[u32], queue: &mut [u32], t: &mut [u8], n: usize) -> usize
    requires { Queued queue.old t.old n × (length d.now ≡ 5) × (length e.now ≡ 5) × ((record_at d.now 0).to < length t.old / 256) × ((record_at e.now 0).to < 256) }
    ensures { PairsMet (table_of queue.old n) (joint_targets (record_at d.now 0 ∷ []) (record_at e.now 0 ∷ [])) queue.new t.new result }
{
    if d[1] != 1 {
        return n;
    }
    if e[1] != 1 {
        return n;
    }
    match ranges::intersect_ranges(d[2], d[3], e[2], e[3]) {
        Some(_) => meet_pair(queue, t, n, d[4], e[4]),
        None => n,
    }
}

// The pairs to which the record d and those of the run lead are met. No record of the run meets d from the first on that starts behind it.
fn meet_run(d: &[u32], run: &[u32], queue: &mut [u32], t: &mut [u8], n: usize) -> usize
    requires { Queued queue.old t.old n × (length d.now ≡ 5) × ((record_at d.now 0).to < length t.old / 256) × RunTo 256 (read_records run.now) }
    ensures { PairsMet (table_of queue.old n) (joint_targets (record_at d.now 0 ∷ []) (read_records run.now)) queue.new t.new result }
{
    let (records, _) = run.as_chunks::<5>();
    let mut m = n;
    for e in records {
        if d[3] < e[2] {
            return m;
        }
        m = meet_record(d, e, queue, t, m);
    }
    m
}

// The pairs to which the records of two runs lead are met, the first's outermost. Records of the second run that end before a record of the first
// starts are passed over for good, since later ones start no earlier.
fn meet_runs(first: &[u32], second: &[u32], queue: &mut [u32], t: &mut [u8], n: usize) -> usize
    requires { Queued queue.old t.old n × RunTo (length t.old / 256) (read_records first.now) × RunTo 256 (read_records second.now) }
    ensures { PairsMet (table_of queue.old n) (joint_targets (read_records first.now) (read_records second.now)) queue.new t.new result }
{
    let (records, _) = first.as_chunks::<5>();
    let mut m = n;
    let mut from: usize = 0;
    for d in records {
        if 256 < m {
            return m;
        }
        from = crate::passing::pass_ended(second, from, d[2]);
        if second.len() <= from {
            return m;
        }
        m = meet_run(d, &second[from..], queue, t, m);
    }
    m
}

// The pairs to which the i-th pair of the queue leads are met.
fn visit_pair(
    a: &[u32],
    aruns: &[u32],
    b: &[u32],
    bruns: &[u32],
    queue: &mut [u32],
    t: &mut [u8],
    n: usize,
    i: usize,
) -> usize
    requires { IndexedSheet a.now aruns.now × IndexedSheet b.now bruns.now × (256 * state_count a.now ≤ length t.old) × Queued queue.old t.old n × (i < n) × PairsBelow (state_count a.now) (state_count b.now) (table_of queue.old n) }
    ensures { PairsMet (table_of queue.old n) ((meeting_pairs (read a.now) (read b.now)).next (pair_of (get_or queue.old i 0))) queue.new t.new result }
{
    let c = queue[i];
    meet_runs(
        sheets::run(a, aruns, c / 256),
        sheets::run(b, bruns, c % 256),
        queue,
        t,
        n,
    )
}

// The pairs of states that ranges reach, as a queue meets them; how many they are, or 257 where they are more than 256.
pub fn find_pairs(
    a: &[u32],
    aruns: &[u32],
    b: &[u32],
    bruns: &[u32],
    queue: &mut [u32],
    t: &mut [u8],
) -> usize
    requires { IndexedSheet a.now aruns.now × IndexedSheet b.now bruns.now × (256 * state_count a.now ≤ length t.old) × Queued queue.old t.old 0 }
    ensures { Queued queue.new t.new result × PairsBelow (state_count a.now) (state_count b.now) (table_of queue.new result) × (found_in queue.new result ≡ table (meeting_pairs (read a.now) (read b.now)) most_states) }
{
    let mut n = meet_pair(queue, t, 0, a[1], b[1]);
    let mut i: usize = 0;
    while i < n {
        if 256 < n {
            return n;
        }
        n = visit_pair(a, aruns, b, bruns, queue, t, n, i);
        i += 1;
    }
    n
}
