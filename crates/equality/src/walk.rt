// The walk over pairs of states of two deterministic automata: the starts are joined, and pairs are met over the common ranges of their
// records. Each pair joins two classes of states, so that there are fewer pairs than states. Since the records of a state ascend, the two
// runs of a pair are gone through side by side, and each step moves on in one of them.
// The pairs stand in a queue (crate pairs). Beside it stands the trail, three words for each pair: the pair that it was met from, the
// symbol, and how many symbols lead to it. The first pair was met from none.
ghost use Rattle.std.specs.Prelude.{◌+◌, ◌*◌, ◌<◌, length, get_or};
ghost use Rattle.automata.specs.inner.Records.{record_at};
ghost use Rattle.pairs.specs.inner.Pairs.{pairs_of};
ghost use Rattle.equality.specs.inner.Walking.{trail_of, StepFits, StepPut, Chained, Spelled};
ghost use Rattle.determinizations.specs.inner.Sheets.{two_of};
ghost use Rattle.equality.specs.inner.Code.{FirstOf, ComparableRecords, SuccessorsCompared, WalkInput, StartsAgree};
ghost use Rattle.equality.specs.Verdict.{Decided};

use crate::Verdict;
use dsu::DSU;
use ranges::Ends;

// How many pairs there are after two runs were compared, and the symbol that leads to a difference, if there is one.
#[derive(Drop)]
pub struct Compared {
    pub made: usize,
    pub difference: Option<u32>,
}

// How many states both automata have, and the first; how many pairs stand in the queue, and how many of them are compared.
#[derive(Drop)]
pub struct WalkCounts {
    pub n: usize,
    pub n1: usize,
    pub made: usize,
    pub compared: usize,
}

// The first symbol from lower to upper that the records d and e share, or None.
fn first_common(d: &[u32; 5], e: &[u32; 5], lower: u32, upper: u32) -> Option<u32>
    ensures { FirstOf (record_at d.now 0) (record_at e.now 0) lower upper result }
{
    let (first, last) = ranges::intersect_ranges(d[2], d[3], e[2], e[3])?;
    let (x, _) = ranges::intersect_ranges(first, last, lower, upper)?;
    Some(x)
}

// The pair behind `made` others, where there are `more` than these: it was met from pair i by x.
#[tactic(auto, using(crate::proofs::Steps::step_laws))]
fn put_step(trail: &mut [u32; 1536], made: usize, more: usize, i: usize, x: u32)
    requires { StepFits trail.old made i }
    ensures { StepPut trail.old trail.new made more i x }
{
    if made < more {
        let deep = trail[3 * i + 2] + 1;
        let at = 3 * made;
        trail[at] = i as u32;
        trail[at + 1] = x;
        trail[at + 2] = deep;
    }
}

// The word that leads to the successors of pair i under x, at the front of out; how many symbols it has.
fn spell(trail: &[u32; 1536], i: usize, x: u32, out: &mut [u32]) -> usize
    requires { Chained (trail_of trail.now) i × (i < 512) × (get_or trail.now (3 * i + 2) 0 < length out.old) }
    ensures { Spelled (trail_of trail.now) i x result out.old out.new }
{
    let n = trail[3 * i + 2] as usize;
    out[n] = x;
    let mut c = i;
    for at in (0..n).rev() {
        out[at] = trail[3 * c + 1];
        c = trail[3 * c] as usize;
    }
    n + 1
}

// The runs ra and rb of a pair: successors under a common symbol are joined, up to the first two that differ in acceptance. Record j of
// ra is compared with the records of rb from k on, up to the first that reaches beyond it; that one is compared with the next record of
// ra too. repr and size are the join sets of the states of both automata.
fn compare_runs(
    a: &[u32],
    b: &[u32],
    ra: &[u32],
    rb: &[u32],
    ends: Ends,
    repr: &mut [u32; 512],
    size: &mut [u32; 512],
    queue: &mut [u32; 1024],
    trail: &mut [u32; 1536],
    counts: WalkCounts,
) -> Compared
    requires { ComparableRecords a.now b.now ends.lower ends.upper ra.now rb.now counts.n1 counts.compared (pairs_of repr.old size.old queue.old counts.n counts.made) trail.old }
    ensures { SuccessorsCompared (two_of a.now b.now ends.lower ends.upper) counts.compared (pairs_of repr.new size.new queue.new counts.n result.made) trail.new result.difference }
{
    let (records_a, _) = ra.as_chunks::<5>();
    let (records_b, _) = rb.as_chunks::<5>();
    let mut made = counts.made;
    let mut j: usize = 0;
    let mut k: usize = 0;
    let difference = 'runs: loop {
        if records_a.len() <= j {
            break 'runs None;
        }
        let d = &records_a[j];
        loop {
            if records_b.len() <= k {
                break 'runs None;
            }
            let e = &records_b[k];
            if let Some(x) = first_common(d, e, ends.lower, ends.upper) {
                let p = d[4];
                let q = e[4];
                if sheets::accept_word(a, p) != sheets::accept_word(b, q) {
                    break 'runs Some(x);
                }
                let more = pairs::join_pair(repr, size, queue, counts.n, made, counts.n1, p, q);
                put_step(trail, made, more, counts.compared, x);
                made = more;
            }
            if d[3] < e[3] {
                break;
            }
            k += 1;
        }
        j += 1;
    };
    Compared { made, difference }
}

// The starts, which agree in acceptance, are joined, and the runs of each pair in the queue are compared. starts_a and starts_b say where
// the records of each state begin.
fn walk_pairs(
    a: &[u32],
    b: &[u32],
    starts_a: &[u32],
    starts_b: &[u32],
    ends: Ends,
    word: &mut [u32],
) -> Verdict
    requires { StartsAgree a.now b.now starts_a.now starts_b.now ends.lower ends.upper word.old }
    ensures { Decided (two_of a.now b.now ends.lower ends.upper) word.old word.new result }
{
    let n1 = a[2] as usize;
    let n2 = b[2] as usize;
    let fresh = DSU::new(n1 + n2);
    let sets = fresh.sets;
    let n = sets.n;
    let mut repr = sets.repr;
    let mut size = sets.size;
    let mut queue = [0u32; 1024];
    let mut trail = [0u32; 1536];
    let mut made = pairs::join_pair(&mut repr, &mut size, &mut queue, n, 0, n1, a[1], b[1]);
    let mut head: usize = 0;
    while head < made {
        let p = queue[2 * head];
        let q = queue[2 * head + 1];
        let ra = sheets::run(a, starts_a, p);
        let rb = sheets::run(b, starts_b, q);
        let counts = WalkCounts {
            n,
            n1,
            made,
            compared: head,
        };
        let t = compare_runs(
            a, b, ra, rb, ends, &mut repr, &mut size, &mut queue, &mut trail, counts,
        );
        made = t.made;
        if let Some(x) = t.difference {
            return Verdict::Different(spell(&trail, head, x, word));
        }
        head += 1;
    }
    Verdict::Same(made)
}

// The walk over two sheets in which every symbol from lower to upper has one transition in every state.
#[tactic(auto, using(crate::proofs::WalkLaws::walk_first))]
pub fn walk(a: &[u32], b: &[u32], lower: u32, upper: u32, word: &mut [u32]) -> Verdict
    requires { WalkInput a.now b.now lower upper word.old }
    ensures { Decided (two_of a.now b.now lower upper) word.old word.new result }
{
    let first = a[1];
    let second = b[1];
    if sheets::accept_word(a, first) != sheets::accept_word(b, second) {
        return Verdict::Different(0);
    }
    let mut starts_a = [0u32; 257];
    let mut starts_b = [0u32; 257];
    sheets::run_starts(a, &mut starts_a);
    sheets::run_starts(b, &mut starts_b);
    walk_pairs(a, b, &starts_a, &starts_b, Ends { lower, upper }, word)
}
