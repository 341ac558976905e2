// Reads an accepted sheet: the accept word of a state, the records that leave it, which are a run in the sheet's middle, and whether a record is an epsilon.
// The table of runs is made once in one pass over the records and one over the states, and a run is then found without a search.
ghost use Rattle.std.specs.Prelude.{cond, ◌≡◌, ◌*◌, ◌≤◌, ◌<◌, ltb, length, get_or};
ghost use Rattle.std.proofs.lemmas.List.Edits.{sets};
ghost use Rattle.automata.specs.Automaton.{leaving, has_epsilon};
ghost use Rattle.automata.specs.Records.{read_records, write_records};
ghost use Rattle.sheets.specs.inner.Accepted.{Accepted};
ghost use Rattle.sheets.specs.inner.Runs.{starts_of, Rising, Named, RunEnds, RunAt};
ghost use Rattle.sheets.specs.Sheet.{state_count, read};

// For each state that the records of t leave, the number behind its last record, in the entry behind the state's.
fn mark_ends(t: &[u32], ends: &mut [u32])
    requires { Rising (read_records t.now) × Named 256 (read_records t.now) × (length t.now ≤ 10240) × RunEnds t.now ends.old 0 }
    ensures { RunEnds t.now ends.new (length (read_records t.now)) }
{
    let (records, _) = t.as_chunks::<5>();
    for (k, r) in records.iter().enumerate() {
        ends[r[0] as usize + 1] = k as u32 + 1;
    }
}

fn greater(x: u32, y: u32) -> u32
    ensures { result ≡ cond (ltb x y) y x }
{
    if x < y {
        return y;
    }
    x
}

// The place of the first record of each state, and of the end, at the front of starts: it stands behind the last record of the states below. Two states a turn,
// so that one comparison waits for the turn before and not two.
pub fn run_starts(s: &[u32], starts: &mut [u32])
    requires { Accepted s.now × (state_count s.now < length starts.old) }
    ensures { starts.new ≡ sets starts.old 0 (starts_of s.now) }
{
    let n = s[2];
    let base = n + 4;
    let first = base as usize;
    let mut ends = [0u32; 257];
    mark_ends(&s[first..], &mut ends);
    let mut q: u32 = 0;
    let mut k: u32 = 0;
    while q < n {
        let p = q as usize;
        let end = ends[p];
        let next = ends[p + 1];
        starts[p] = base + 5 * greater(k, end);
        k = greater(k, greater(end, next));
        starts[p + 1] = base + 5 * k;
        q += 2;
    }
    if q == n {
        let p = q as usize;
        starts[p] = base + 5 * greater(k, ends[p]);
    }
}

// The records that leave q.
pub fn run<'a>(s: &'a [u32], starts: &[u32], q: u32) -> &'a [u32]
    requires { RunAt s.now starts.now q }
    ensures { result.now ≡ write_records (leaving (read s.now) q) }
{
    let p = q as usize;
    let a = starts[p] as usize;
    let e = starts[p + 1] as usize;
    &s[a..e]
}

// Whether one of the records is an epsilon.
#[tactic(auto, using(automata::proofs::Chunks::records_chunks, crate::proofs::Epsilons::epsilon_next, crate::proofs::Epsilons::epsilon_done))]
pub fn has_epsilon(records: &[u32]) -> bool
    ensures { result ≡ has_epsilon (read_records records.now) }
{
    let (records, _) = records.as_chunks::<5>();
    for r in records {
        if r[1] == 0 {
            return true;
        }
    }
    false
}

// The accept word of the state p.
pub fn accept_word(s: &[u32], p: u32) -> u32
    requires { Accepted s.now × (p < state_count s.now) }
    ensures { result ≡ get_or (read s.now).accept p 0 }
{
    s[p as usize + 3]
}
