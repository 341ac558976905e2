// Whether an automaton is a subautomaton of another, by the labels of their states. The different labels of the second automaton are put in order;
// each state has the number of its label among them, found by binary search, and a transition is sought only in the runs of states of its number.
#![tactic(auto)]

ghost use Rattle.std.specs.Prelude.{◌≡◌, ◌≤◌, ◌<◌, length};
ghost use Rattle.output.specs.Output.{read_pattern};
ghost use Rattle.lists.specs.Lists.{any, all};
ghost use Rattle.automata.specs.Automaton.{states};
ghost use Rattle.automata.specs.Records.{read_records};
ghost use Rattle.automata.specs.inner.Records.{record_at};
ghost use Rattle.labels.specs.Labels.{labels_fault, read_labels};
ghost use Rattle.name_table.specs.inner.Names.{names_in, Table};
ghost use Rattle.refusal.specs.Decision.{decision_of};
ghost use Rattle.sheets.specs.inner.Accepted.{Accepted};
ghost use Rattle.sheets.specs.Sheet.{state_count, read};
ghost use Rattle.subautomaton.specs.Inclusion.{is_subautomaton};
ghost use Rattle.sheets.specs.inner.Runs.{Named, IndexedSheet};
ghost use Rattle.subautomaton.specs.inner.Tables.{LabelTable, Numbered, is_held, is_held_in, fits, Ordered, fits_from, fits_in, LabelledSheets, Tabled};
ghost use Rattle.subautomaton.specs.Answer.{subautomaton_answer};

use refusal::InputRefusal;

// The different labels among the m labels of b into the table t; how many there are.
#[tactic(auto, using(crate::proofs::Entering::enter_laws))]
fn enter_labels(b: &[u8], m: usize, t: &mut [usize]) -> usize
    requires { (labels_fault m b.now ≡ 0) × (m ≤ 256) × (length t.old ≡ 1024) }
    ensures { LabelTable b.now t.new result }
{
    let mut at: usize = 2;
    let mut n: usize = 0;
    for _ in 0..m {
        let next = labels::next_label(b, at);
        let Some(k) = name_table::add(b, t, n, at + 1, next) else {
            return n;
        };
        n = k;
        at = next;
    }
    n
}

// The numbers of the m labels of x among the n names of a table.
fn number_labels(x: &[u8], m: usize, b: &[u8], t: &[usize], n: usize, out: &mut [u32])
    requires { (labels_fault m x.now ≡ 0) × (m ≤ 256) × Table b.now t.now n × (length out.old ≡ 256) }
    ensures { Numbered m (read_labels x.now) (names_in b.now t.now n) out.new }
{
    let mut at: usize = 2;
    for i in 0..m {
        out[i] = name_table::find(b, t, n, labels::label_from(x, at)) as u32;
        at = labels::next_label(x, at);
    }
}

// Whether the state q has the number k, and accepts unless accept is 0.
fn is_held(b: &[u32], cb: &[u32], k: u32, accept: u32, q: u32) -> bool
    requires { Accepted b.now × (length cb.now ≡ 256) × (q < state_count b.now) }
    ensures { result ≡ is_held (read b.now) cb.now k accept q }
{
    if cb[q as usize] != k {
        return false;
    }
    if accept == 0 {
        return true;
    }
    0 < sheets::accept_word(b, q)
}

// Whether some state is held so.
fn has_state(b: &[u32], cb: &[u32], k: u32, accept: u32) -> bool
    requires { Accepted b.now × (length cb.now ≡ 256) }
    ensures { result ≡ any (is_held (read b.now) cb.now k accept) (states (state_count b.now)) }
{
    (0..b[2]).any(|q| is_held(b, cb, k, accept, q))
}

// Whether each state of a is one of b.
fn has_states(a: &[u32], b: &[u32], ca: &[u32], cb: &[u32]) -> bool
    requires { Accepted a.now × Accepted b.now × (length ca.now ≡ 256) × (length cb.now ≡ 256) }
    ensures { result ≡ all (is_held_in (read a.now) (read b.now) ca.now cb.now) (states (state_count a.now)) }
{
    (0..a[2]).all(|p| has_state(b, cb, ca[p as usize], sheets::accept_word(a, p)))
}

// Whether the record e leads to a state with the number to, and its kind and range cover those of d.
fn covers(d: &[u32], e: &[u32], cb: &[u32], to: u32) -> bool
    requires { (length d.now ≡ 5) × (length e.now ≡ 5) × (length cb.now ≡ 256) × ((record_at e.now 0).to < 256) }
    ensures { result ≡ fits cb.now to (record_at d.now 0) (record_at e.now 0) }
{
    if cb[e[4] as usize] != to {
        return false;
    }
    if e[1] != d[1] {
        return false;
    }
    if d[2] < e[2] {
        return false;
    }
    d[3] <= e[3]
}

// Whether some record of the run covers d. Records that end too early are passed, and behind one that starts too late there is none.
fn run_covers(d: &[u32], run: &[u32], cb: &[u32], to: u32) -> bool
    requires { (length d.now ≡ 5) × (length cb.now ≡ 256) × Ordered (read_records run.now) }
    ensures { result ≡ any (fits cb.now to (record_at d.now 0)) (read_records run.now) }
{
    let first = d[2];
    let last = d[3];
    let (records, _) = run.as_chunks::<5>();
    for e in records {
        if e[3] < last {
            continue;
        }
        if first < e[2] {
            return false;
        }
        if covers(d, e, cb, to) {
            return true;
        }
    }
    false
}

// Whether the state q has the number from and a record that covers d.
fn state_covers(
    d: &[u32],
    b: &[u32],
    starts: &[u32],
    cb: &[u32],
    from: u32,
    to: u32,
    q: u32,
) -> bool
    requires { (length d.now ≡ 5) × IndexedSheet b.now starts.now × (length cb.now ≡ 256) × (q < state_count b.now) }
    ensures { result ≡ fits_from (read b.now) cb.now from to (record_at d.now 0) q }
{
    if cb[q as usize] != from {
        return false;
    }
    run_covers(d, sheets::run(b, starts, q), cb, to)
}

// Whether some state does so for the record d of a.
fn is_covered(d: &[u32], b: &[u32], starts: &[u32], ca: &[u32], cb: &[u32]) -> bool
    requires { (length d.now ≡ 5) × IndexedSheet b.now starts.now × (length ca.now ≡ 256) × (length cb.now ≡ 256) × ((record_at d.now 0).from < 256) × ((record_at d.now 0).to < 256) }
    ensures { result ≡ fits_in (read b.now) ca.now cb.now (record_at d.now 0) }
{
    let from = ca[d[0] as usize];
    let to = ca[d[4] as usize];
    (0..b[2]).any(|q| state_covers(d, b, starts, cb, from, to, q))
}

// Whether each of the records is covered.
fn are_covered(records: &[u32], b: &[u32], starts: &[u32], ca: &[u32], cb: &[u32]) -> bool
    requires { Named 256 (read_records records.now) × IndexedSheet b.now starts.now × (length ca.now ≡ 256) × (length cb.now ≡ 256) }
    ensures { result ≡ all (fits_in (read b.now) ca.now cb.now) (read_records records.now) }
{
    let (records, _) = records.as_chunks::<5>();
    for d in records {
        if !is_covered(d, b, starts, ca, cb) {
            return false;
        }
    }
    true
}

// The answer for two accepted sheets whose tables are made.
fn decide(
    a: &[u32],
    b: &[u32],
    starts: &[u32],
    ca: &[u32],
    cb: &[u32],
    al: &[u8],
    bl: &[u8],
) -> bool
    requires { Tabled a.now al.now b.now bl.now starts.now ca.now cb.now }
    ensures { result ≡ is_subautomaton (read_pattern a.now al.now) (read_pattern b.now bl.now) }
{
    if !has_states(a, b, ca, cb) {
        return false;
    }
    if ca[a[1] as usize] != cb[b[1] as usize] {
        return false;
    }
    let base = a[2] as usize + 4;
    are_covered(&a[base..], b, starts, ca, cb)
}

// The answer for two accepted sheets with their labels.
fn compare(a: &[u32], al: &[u8], b: &[u32], bl: &[u8]) -> bool
    requires { LabelledSheets a.now al.now b.now bl.now }
    ensures { result ≡ is_subautomaton (read_pattern a.now al.now) (read_pattern b.now bl.now) }
{
    let n = a[2] as usize;
    let m = b[2] as usize;
    let mut t = [0usize; 1024];
    let mut starts = [0u32; 257];
    let mut ca = [0u32; 256];
    let mut cb = [0u32; 256];
    sheets::run_starts(b, &mut starts);
    let k = enter_labels(bl, m, &mut t);
    number_labels(al, n, bl, &t, k, &mut ca);
    number_labels(bl, m, bl, &t, k, &mut cb);
    decide(a, b, &starts, &ca, &cb, al, bl)
}

// Whether the automaton of a and a_labels is a subautomaton of that of b and b_labels.
#[tactic(auto, using(crate::proofs::Answers::answer_laws))]
pub fn is_subautomaton(
    a: &[u32],
    a_labels: &[u8],
    b: &[u32],
    b_labels: &[u8],
) -> Result<bool, InputRefusal>
    ensures { decision_of result ≡ subautomaton_answer a.now a_labels.now b.now b_labels.now }
{
    sheets::check(a)?;
    sheets::check(b)?;
    labels::check(a[2] as usize, a_labels)?;
    labels::check(b[2] as usize, b_labels)?;
    Ok(compare(a, a_labels, b, b_labels))
}
