// Emptiness: whether a state that accepts is reached from the start. The records ascend by the states that they leave, so one pass over them follows all
// transitions that lead upward, and one from the last back to the first all that lead downward. Where neither pass decides, a search does: it marks each
// state that it meets, follows its transitions once, and ends at the first state that accepts.
#![tactic(auto)]

ghost use Rattle.std.specs.Prelude.{◌≤◌, ◌<◌, [], ◌≡◌, length, drop};
ghost use Rattle.automata.specs.Records.{read_records};
ghost use Rattle.refusal.specs.Decision.{decision_of};
ghost use Rattle.sheets.specs.inner.Accepted.{Accepted};
ghost use Rattle.sheets.specs.Sheet.{state_count, read};
ghost use Rattle.sheets.specs.inner.Runs.{Named, Indexed, RunAt};
ghost use Rattle.emptiness.specs.inner.Passes.{MetStates, PassTells};
ghost use Rattle.emptiness.specs.inner.Marks.{Unmarked, StackRoom, PushedState, Pushed, first_target, targets_below, UnmarkedSearch};
ghost use Rattle.emptiness.specs.Reachable.{has_reachable_accepting, reachable_answer};

use refusal::InputRefusal;

// What a pass over the records tells: that a reachable state accepts, that none does, or nothing.
#[derive(Drop)]
pub enum Pass {
    Accepts,
    Rejects,
    Undecided,
}

// How many records between states that were not met a pass reads.
const MOST_IDLE: usize = 8;

// Follows the transitions that lead upward from the states that were met, in one pass over the records of an accepted sheet. It ends undecided at a
// transition that leads down to a state that was not met, and where it has read too many records in vain.
#[tactic(auto, using(crate::proofs::Passes::met_undecided))]
fn pass_up(s: &[u32], marks: &mut [u8]) -> Pass
    requires { Accepted s.now × MetStates (read s.now) marks.old }
    ensures { PassTells (read s.now) marks.new result }
{
    let base = s[2] as usize + 4;
    let (records, _) = s[base..].as_chunks::<5>();
    let mut idle: usize = 0;
    for r in records {
        let to = r[4];
        if marks[to as usize] == 0 {
            let from = r[0];
            if marks[from as usize] == 0 {
                if idle == MOST_IDLE {
                    return Pass::Undecided;
                }
                idle += 1;
            } else {
                if to <= from {
                    return Pass::Undecided;
                }
                if 0 < sheets::accept_word(s, to) {
                    return Pass::Accepts;
                }
                marks[to as usize] = 1;
            }
        }
    }
    Pass::Rejects
}

// The same downward, from the last record back to the first.
#[tactic(auto, using(crate::proofs::Passes::met_undecided))]
fn pass_down(s: &[u32], marks: &mut [u8]) -> Pass
    requires { Accepted s.now × MetStates (read s.now) marks.old }
    ensures { PassTells (read s.now) marks.new result }
{
    let n = s[2] as usize;
    let mut idle: usize = 0;
    for left in (0..s[n + 3] as usize).rev() {
        let record = n + 4 + 5 * left;
        let to = s[record + 4];
        if marks[to as usize] == 0 {
            let from = s[record];
            if marks[from as usize] == 0 {
                if idle == MOST_IDLE {
                    return Pass::Undecided;
                }
                idle += 1;
            } else {
                if from <= to {
                    return Pass::Undecided;
                }
                if 0 < sheets::accept_word(s, to) {
                    return Pass::Accepts;
                }
                marks[to as usize] = 1;
            }
        }
    }
    Pass::Rejects
}

// What a pass upward tells, or else one downward.
fn decide_by_passes(s: &[u32], marks: &mut [u8]) -> Pass
    requires { Accepted s.now × Unmarked marks.old }
    ensures { PassTells (read s.now) marks.new result }
{
    let start = s[1];
    if 0 < sheets::accept_word(s, start) {
        return Pass::Accepts;
    }
    marks[start as usize] = 1;
    let up = pass_up(s, marks);
    let Pass::Undecided = up else {
        return up;
    };
    pass_down(s, marks)
}

// The state t is marked and put on the stack if it was not met. The answer is the stack's end.
fn push_state(t: u32, marks: &mut [u8], stack: &mut [u32], top: usize) -> usize
    requires { (t < 256) × StackRoom marks.old stack.old top }
    ensures { PushedState marks.old stack.old top t marks.new stack.new result }
{
    let k = t as usize;
    if marks[k] != 0 {
        return top;
    }
    marks[k] = 1;
    stack[top] = t;
    top + 1
}

// The targets of the records from the place `from` on that were not met are marked and put on the stack. The answer is the stack's end. Two records are asked
// at a time, since most targets were met.
fn push_unmet(t: &[u32], from: usize, marks: &mut [u8], stack: &mut [u32], top: usize) -> usize
    requires { (from ≤ length t.now) × Named 256 (read_records (drop from t.now)) × StackRoom marks.old stack.old top }
    ensures { Pushed marks.old stack.old top (read_records (drop from t.now)) [] marks.new stack.new result }
{
    let mut e = top;
    let mut at = from;
    while 10 <= t.len() - at {
        let p = t[at + 4];
        let q = t[at + 9];
        at += 10;
        if marks[p as usize] & marks[q as usize] == 0 {
            e = push_state(p, marks, stack, e);
            e = push_state(q, marks, stack, e);
        }
    }
    if 5 <= t.len() - at {
        return push_state(t[at + 4], marks, stack, e);
    }
    e
}

// The target of the first record that leaves q; q itself, if none does.
fn first_target(s: &[u32], starts: &[u32], q: u32) -> u32
    requires { RunAt s.now starts.now q }
    ensures { result ≡ first_target (read s.now) q }
{
    let p = q as usize;
    let at = starts[p] as usize;
    let end = starts[p + 1] as usize;
    if 5 <= end - at {
        return s[at + 4];
    }
    q
}

// The first target of each state, at the front of targets.
fn first_targets(s: &[u32], starts: &[u32], targets: &mut [u32])
    requires { Accepted s.now × Indexed s.now starts.now × (length targets.old ≡ 256) }
    ensures { targets.new ≡ targets_below (read s.now) targets.old (state_count s.now) }
{
    for q in 0..s[2] {
        targets[q as usize] = first_target(s, starts, q);
    }
}

// Whether a state that accepts is met, from the start on. The first target of a state is followed next if it was not met, without the stack: it is looked up in
// a table, so that the next turn need not wait for a record. A state's records are the last of the sheet up to where they end.
fn explore(s: &[u32], starts: &[u32], targets: &[u32], marks: &mut [u8], stack: &mut [u32]) -> bool
    requires { UnmarkedSearch s.now starts.now targets.now marks.old stack.old }
    ensures { result ≡ has_reachable_accepting (read s.now) }
{
    let mut q = s[1];
    let mut top: usize = 0;
    marks[q as usize] = 1;
    loop {
        if 0 < sheets::accept_word(s, q) {
            return true;
        }
        let p = q as usize;
        let end = starts[p + 1] as usize;
        let t = &s[0..end];
        let from = starts[p] as usize;
        let first = targets[p];
        if marks[first as usize] == 0 {
            q = first;
            marks[q as usize] = 1;
            top = push_unmet(t, from + 5, marks, stack, top);
        } else {
            top = push_unmet(t, from, marks, stack, top);
            if top == 0 {
                return false;
            }
            top -= 1;
            q = stack[top];
        }
    }
}

// Whether a reachable state of an accepted sheet accepts, by a search.
fn search_accepting(s: &[u32]) -> bool
    requires { Accepted s.now }
    ensures { result ≡ has_reachable_accepting (read s.now) }
{
    let mut starts = [0u32; 257];
    let mut targets = [0u32; 256];
    let mut marks = [0u8; 256];
    let mut stack = [0u32; 256];
    sheets::run_starts(s, &mut starts);
    first_targets(s, &starts, &mut targets);
    explore(s, &starts, &targets, &mut marks, &mut stack)
}

// Whether a reachable state of an accepted sheet accepts.
fn reaches_accepting(s: &[u32]) -> bool
    requires { Accepted s.now }
    ensures { result ≡ has_reachable_accepting (read s.now) }
{
    let mut marks = [0u8; 256];
    match decide_by_passes(s, &mut marks) {
        Pass::Accepts => true,
        Pass::Rejects => false,
        Pass::Undecided => search_accepting(s),
    }
}

// Whether a state that accepts is reached from the start, by any number of transitions. A sheet is empty when none is.
#[tactic(auto, using(crate::proofs::Answers::answer_laws))]
pub fn has_reachable_accepting_state(s: &[u32]) -> Result<bool, InputRefusal>
    ensures { decision_of result ≡ reachable_answer s.now }
{
    sheets::check(s)?;
    Ok(reaches_accepting(s))
}
