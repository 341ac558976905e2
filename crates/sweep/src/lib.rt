// One ascending pass over the ranges that leave a set of states. Each range is an event where it opens and one where it ends; the events of a sheet
// are put in order once, in two lists of the numbers of its ranges. For each target the pass keeps its reach, the end of the longest range to it that
// has opened: the target is live while its reach is above the symbol. The closures of the live targets are the leaves of a tree of unions, so that a
// target that begins or ceases to be live costs one way from its leaf to the root, and the root is what the symbol leads to.
#![tactic(auto)]

ghost use Rattle.std.specs.Prelude.{◌≡◌, ◌+◌, ◌*◌, ◌≤◌, ◌<◌, length};
ghost use Rattle.sets.specs.Sets.{has};
ghost use Rattle.sets.specs.inner.BitSet.{set_at};
ghost use Rattle.ranges.specs.Cuts.{next_cut};
ghost use Rattle.sheets.specs.Sheet.{read};
ghost use Rattle.sheets.specs.inner.Accepted.{record_count, Accepted};
ghost use Rattle.words.specs.Simulation.{outgoing, step};
ghost use Rattle.sweep.specs.inner.Events.{RecordNumbers, event_at, event_number};
ghost use Rattle.sweep.specs.inner.Tree.{Tree, LeafSet};
ghost use Rattle.sweep.specs.inner.Passing.{Passing, Stopped, RangeNoted, Closes, cut_at};

mod ordering;
mod uniting;

pub use ordering::order_events;

// Whether an event is where its range opens or where it ends.
#[derive(Clone, Copy, PartialEq, Eq)]
pub enum EventKind {
    Opening,
    Ending,
}

// Where the pass stands among the openings and among the endings, and the cut before which it must go on.
#[derive(Drop)]
pub struct Turn {
    pub opens: usize,
    pub ends: usize,
    pub cut: u64,
}

// The leaf of the target becomes its closure.
fn fill(tree: &mut [u64], closures: &[u64], target: usize)
    requires { Tree tree.old × (target < 256) × (4 * target + 4 ≤ length closures.now) }
    ensures { LeafSet tree.old tree.new target (set_at closures.now (4 * target)) }
{
    let mut row = [0u64; 4];
    sets::copy_row(&mut row, closures, target);
    uniting::set_leaf(tree, target, &row);
}

// Notes that a range to the target has opened, whose last symbol is last.
fn open(closures: &[u64], to: u32, last: u32, symbol: u32, reach: &mut [u64], tree: &mut [u64])
    requires { (to < 256) × (4 * to + 4 ≤ length closures.now) × (length reach.old ≡ 256) × Tree tree.old }
    ensures { RangeNoted closures.now symbol last to reach.old tree.old reach.new tree.new }
{
    if last < symbol {
        return;
    }
    let target = to as usize;
    let end = reach[target];
    if (last as u64) < end {
        return;
    }
    reach[target] = last as u64 + 1;
    if end <= symbol as u64 {
        fill(tree, closures, target);
    }
}

// Notes that a range to the target has ended.
fn close(to: u32, symbol: u32, reach: &[u64], tree: &mut [u64])
    requires { (to < 256) × (length reach.now ≡ 256) × Tree tree.old }
    ensures { Closes symbol to reach.now tree.old tree.new }
{
    let target = to as usize;
    if (symbol as u64) < reach[target] {
        return;
    }
    let none = [0u64; 4];
    uniting::set_leaf(tree, target, &none);
}

// Whether the state is in the set.
fn is_in(set: &[u64], state: u32) -> bool
    requires { (4 ≤ length set.now) × (state < 256) }
    ensures { result ≡ has state (set_at set.now 0) }
{
    sets::has(set, 0, state as usize)
}

// Passes the openings of the set up to the symbol; answers the place of the first one behind it.
fn pass_openings(
    s: &[u32],
    closures: &[u64],
    opens: &[u32],
    ends: &[u32],
    set: &[u64],
    symbol: u32,
    start: usize,
    ended: usize,
    reach: &mut [u64],
    tree: &mut [u64],
) -> usize
    requires { Passing s.now closures.now opens.now ends.now (set_at set.now 0) start ended symbol reach.old tree.old × (4 ≤ length set.now) }
    ensures passing { Passing s.now closures.now opens.now ends.now (set_at set.now 0) result ended symbol reach.new tree.new }
    ensures stopped { Stopped 0 s.now opens.now (set_at set.now 0) result symbol }
{
    for at in start..opens.len() {
        let range = ordering::range_of(s, opens[at]);
        if is_in(set, range.state) {
            if symbol < range.first {
                return at;
            }
            open(closures, range.to, range.last, symbol, reach, tree);
        }
    }
    opens.len()
}

// Passes the endings of the set before the symbol; answers the place of the first other one.
fn pass_endings(
    s: &[u32],
    closures: &[u64],
    opens: &[u32],
    ends: &[u32],
    set: &[u64],
    symbol: u32,
    opened: usize,
    start: usize,
    reach: &[u64],
    tree: &mut [u64],
) -> usize
    requires { Passing s.now closures.now opens.now ends.now (set_at set.now 0) opened start symbol reach.now tree.old × (4 ≤ length set.now) }
    ensures passing { Passing s.now closures.now opens.now ends.now (set_at set.now 0) opened result symbol reach.now tree.new }
    ensures stopped { Stopped 1 s.now ends.now (set_at set.now 0) result symbol }
{
    for at in start..ends.len() {
        let range = ordering::range_of(s, ends[at]);
        if is_in(set, range.state) {
            if symbol <= range.last {
                return at;
            }
            close(range.to, symbol, reach, tree);
        }
    }
    ends.len()
}

// The symbol of the event of a number.
#[tactic(auto, using(crate::proofs::Passing::symbol_laws))]
fn symbol_of(kind: EventKind, s: &[u32], number: u32) -> u32
    requires { Accepted s.now × (number < record_count s.now) }
    ensures { result ≡ (event_at (event_number kind) s.now number).from }
{
    let range = ordering::range_of(s, number);
    match kind {
        EventKind::Opening => range.first,
        EventKind::Ending => range.last,
    }
}

// The symbol from which on an event counts: its own where a range opens, the one behind it where a range ends.
fn place(symbol: u32, kind: EventKind) -> u64
    ensures { result ≡ symbol + event_number kind }
{
    match kind {
        EventKind::Opening => symbol as u64,
        EventKind::Ending => symbol as u64 + 1,
    }
}

// The place of the event at `at`, or top if that is less or there is none.
fn cut_at(kind: EventKind, s: &[u32], ev: &[u32], at: usize, top: u64) -> u64
    requires { Accepted s.now × RecordNumbers s.now ev.now }
    ensures { result ≡ cut_at (event_number kind) s.now ev.now at top }
{
    if ev.len() <= at {
        return top;
    }
    let cut = place(symbol_of(kind, s, ev[at]), kind);
    if cut < top {
        return cut;
    }
    top
}

// The states that the symbol leads to from those of the set, in row 1 of the tree, and the least of top and the cuts above the symbol.
pub fn step(
    s: &[u32],
    closures: &[u64],
    opens: &[u32],
    ends: &[u32],
    set: &[u64],
    symbol: u32,
    from: Turn,
    reach: &mut [u64],
    tree: &mut [u64],
    top: u64,
) -> Turn
    requires { Passing s.now closures.now opens.now ends.now (set_at set.now 0) from.opens from.ends symbol reach.old tree.old × (4 ≤ length set.now) × (symbol < top) }
    ensures cut { result.cut ≡ next_cut symbol top (outgoing (read s.now) (set_at set.now 0)) }
    ensures reached { set_at tree.new 4 ≡ step (read s.now) (set_at set.now 0) symbol }
    ensures passing { Passing s.now closures.now opens.now ends.now (set_at set.now 0) result.opens result.ends symbol reach.new tree.new }
{
    let opened = from.opens;
    let ended = from.ends;
    let i = pass_openings(
        s, closures, opens, ends, set, symbol, opened, ended, reach, tree,
    );
    let j = pass_endings(s, closures, opens, ends, set, symbol, i, ended, reach, tree);
    let opening = cut_at(EventKind::Opening, s, opens, i, top);
    let cut = cut_at(EventKind::Ending, s, ends, j, opening);
    Turn {
        opens: i,
        ends: j,
        cut,
    }
}
