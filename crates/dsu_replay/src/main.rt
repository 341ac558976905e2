// Runs the join sets on the deepest chain and on broken values, and replays runs of the original Rust.
//
// The list on standard input was made by `compare`, binary `dsu_runs`, from the original dsu.rs: random runs, in which
// a line of ten bytes is a letter and two numbers of three digits. n a: fresh sets of a. f a b: `find` of a answered b.
// u a b: `union` of a and b. After a run, r a b: the parent of a is b; s a b: the size at a is b.
#![tactic(auto)]

ghost use Rattle.std.specs.Prelude.{◌≡◌, ◌≤◌};
ghost use Rattle.dsu_replay.specs.Values.{chain_to, with_one};
ghost use Rattle.dsu_replay.specs.Replay.{digit_of, three_digits, line_read, Readable, tallied_run, after_find, after_change, has_at, after_line};

use dsu::{DSU, FindAnswer, SetsAnswer};
use refusal::StateRefusal;

// Each element's parent is the next and its size one larger, as deep as sizes that grow allow; the last has the parent given.
fn chain(last: u32) -> DSU
    ensures { result ≡ chain_to last }
{
    let mut repr = [0u32; 512];
    let mut size = [0u32; 512];
    for i in 0..512 {
        repr[i as usize] = i + 1;
        size[i as usize] = i + 1;
    }
    repr[511] = last;
    DSU { repr, size, n: 512 }
}

// Sets of n, each element alone, but for the parent and the size of element 1.
fn with_one(n: usize, parent: u32, own: u32) -> DSU
    ensures { result ≡ with_one n parent own }
{
    let fresh = DSU::new(8);
    let mut d = fresh.sets;
    d.repr[1] = parent;
    d.size[1] = own;
    d.n = n;
    d
}

// A refusal's number.
fn say_refused(r: StateRefusal) {
    io::write_all(1, b"refused ");
    io::print_decimal(1, refusal::state_number(r) as u64);
}

// The end of a line: the parents of the first two elements.
fn say_parents(d: DSU) {
    io::write_all(1, b", parents of 0 and 1: ");
    io::print_decimal(1, d.repr[0] as u64);
    io::write_all(1, b" ");
    io::print_decimal(1, d.repr[1] as u64);
    io::write_all(1, b"\n");
}

fn say_found(f: FindAnswer) {
    match f.found {
        Ok(r) => {
            io::write_all(1, b"root ");
            io::print_decimal(1, r as u64);
        }
        Err(r) => say_refused(r),
    }
    say_parents(f.sets);
}

fn say_outcome(a: SetsAnswer) {
    match a.outcome {
        Ok(()) => {
            io::write_all(1, b"done");
        }
        Err(r) => say_refused(r),
    }
    say_parents(a.sets);
}

fn deepest() {
    io::write_all(1, b"deepest chain\n");
    say_found(chain(511).find(0));
    say_outcome(chain(511).union(0, 1));
    io::write_all(1, b"the same, broken at its end\n");
    say_found(chain(512).find(0));
    say_outcome(chain(512).union(0, 1));
}

fn broken() {
    io::write_all(1, b"over 512 elements\n");
    say_outcome(DSU::new(513));
    say_found(with_one(513, 1, 1).find(0));
    io::write_all(1, b"an element outside\n");
    say_found(with_one(513, 1, 1).find(513));
    say_outcome(with_one(8, 1, 0).union(1, 8));
    io::write_all(1, b"a parent outside\n");
    say_found(with_one(8, 8, 1).find(1));
    io::write_all(1, b"a parent's size not larger\n");
    say_found(with_one(8, 0, 1).find(1));
    io::write_all(1, b"a size that is 0 or over n\n");
    say_found(with_one(8, 1, 0).find(1));
    say_found(with_one(8, 1, 9).find(1));
    io::write_all(1, b"a joined size over n\n");
    say_outcome(with_one(8, 1, 8).union(0, 1));
    io::write_all(1, b"a fault off the paths\n");
    say_outcome(with_one(8, 9, 9).union(0, 2));
}

// A line of the list.
#[derive(Drop)]
struct Line {
    kind: u8,
    a: usize,
    b: usize,
}

// The value of a digit's byte, 0 of any other.
fn digit(b: u8) -> usize
    ensures small { result ≤ 9 }
    ensures is { result ≡ digit_of b }
{
    if !decimal::is_digit(b) {
        return 0;
    }
    decimal::with_digit(0, b) as usize
}

// The number of the three digits from a place on.
fn number(line: &[u8; 10], at: usize) -> usize
    requires { at ≤ 7 }
    ensures { result ≡ three_digits line.now at }
{
    100 * digit(line[at]) + 10 * digit(line[at + 1]) + digit(line[at + 2])
}

// The line that ten bytes are.
#[tactic(auto, using(crate::proofs::Runs::line_laws))]
fn line_of(line: &[u8; 10]) -> Line
    ensures { result ≡ line_read line.now }
{
    let a = number(line, 2);
    let b = number(line, 6);
    Line {
        kind: line[0],
        a,
        b,
    }
}

// The next line of standard input, or None at its end. Nothing can be said of which bytes are read.
fn read_line() -> Option<Line>
    ensures { Readable result }
{
    let mut line = [0u8; 10];
    let got = io::read_full(0, &mut line);
    if got < 10 {
        return None;
    }
    Some(line_of(&line))
}

// The sets so far, and how many answers were as in the list, or not.
#[derive(Drop)]
struct ReplayRun {
    sets: DSU,
    agreed: u64,
    differed: u64,
}

fn counted(mut s: ReplayRun, same: bool) -> ReplayRun
    ensures { result ≡ tallied_run s same }
{
    if same {
        s.agreed = std::num::wrapping_add_u64(s.agreed, 1);
    } else {
        s.differed = std::num::wrapping_add_u64(s.differed, 1);
    }
    s
}

#[tactic(auto, unfolding(crate::specs::Replay::after_find))]
fn after_find(mut s: ReplayRun, f: FindAnswer, b: usize) -> ReplayRun
    ensures { result ≡ after_find s f b }
{
    let sets = f.sets;
    s.sets = sets;
    counted(s, f.found.is_ok_and(|r| r as usize == b))
}

#[tactic(auto, unfolding(crate::specs::Replay::after_change))]
fn after_change(mut s: ReplayRun, a: SetsAnswer) -> ReplayRun
    ensures { result ≡ after_change s a }
{
    let sets = a.sets;
    s.sets = sets;
    counted(s, a.outcome.is_ok())
}

#[tactic(auto, using(crate::proofs::Runs::word_laws))]
fn has(s: ReplayRun, x: [u32; 512], a: usize, b: usize) -> ReplayRun
    ensures { result ≡ tallied_run s (has_at x a b) }
{
    if a < 512 {
        let v = x[a];
        return counted(s, v as usize == b);
    }
    counted(s, false)
}

// The run after a line: what its letter asks for.
#[tactic(auto, using(crate::proofs::Runs::turn_laws))]
fn turn(s: ReplayRun, kind: u8, a: usize, b: usize) -> ReplayRun
    ensures { result ≡ after_line s kind a b }
{
    let d = s.sets;
    match kind {
        b'n' => after_change(s, DSU::new(a)),
        b'u' => after_change(s, d.union(a, b)),
        b'f' => after_find(s, d.find(a), b),
        b'r' => has(s, d.repr, a, b),
        b's' => has(s, d.size, a, b),
        _ => counted(s, false),
    }
}

// The list is read to its end; the turns are counted, since nothing says that it ends.
fn replay_list() {
    let fresh = DSU::new(0);
    let d = fresh.sets;
    let mut s = ReplayRun {
        sets: d,
        agreed: 0,
        differed: 0,
    };
    for _ in 0..100000 {
        let Some(line) = read_line() else {
            break;
        };
        s = turn(s, line.kind, line.a, line.b);
    }
    io::write_all(1, b"replayed: agreed ");
    io::print_decimal(1, s.agreed);
    io::write_all(1, b", differed ");
    io::print_decimal(1, s.differed);
    io::write_all(1, b"\n");
}

fn main() {
    deepest();
    broken();
    replay_list();
}
