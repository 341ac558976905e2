// `is_nfa`: epsilons, overlaps and holes of the states of a sheet. Each record is read once: the holes of a state are found in one pass over its run.
#![tactic(auto)]

ghost use Rattle.std.specs.Prelude.{◌≡◌, ◌+◌, ◌*◌, ◌≤◌, ◌<◌, length};
ghost use Rattle.automata.specs.Automaton.{states, ranges_of};
ghost use Rattle.automata.specs.Records.{read_records};
ghost use Rattle.ranges.specs.Missing.{SortedRanges};
ghost use Rattle.refusal.specs.Decision.{decision_of};
ghost use Rattle.sheets.specs.inner.Accepted.{Accepted};
ghost use Rattle.sheets.specs.Sheet.{state_count, read};
ghost use Rattle.nondeterminism.specs.Nondeterminism.{is_nfa_at, is_nfa, is_nfa_answer, holes_in};
ghost use Rattle.nondeterminism.specs.inner.Holes.{HolesInputs};
ghost use Rattle.automata.specs.WellFormed.{last_symbol};

use refusal::InputRefusal;

// Whether the records of one state have an epsilon, an overlap or a hole from lower to upper.
fn is_nfa_run(run: &[u32], lower: u32, upper: u32, holes: &mut [u32]) -> bool
    requires { SortedRanges (ranges_of (read_records run.now)) × (2 * length run.now + 10 ≤ 5 * length holes.old) }
    ensures { result ≡ is_nfa_at lower upper (read_records run.now) }
{
    if sheets::has_epsilon(run) {
        return true;
    }
    if ranges::has_overlapping_ranges(run) {
        return true;
    }
    0 < ranges::missing_ranges(run, lower, upper, holes)
}

// Whether some state has an epsilon, an overlap or a hole from lower to upper.
#[tactic(auto, using(crate::proofs::States::sheet_laws))]
fn is_nfa_sheet(s: &[u32], starts: &[u32], lower: u32, upper: u32, holes: &mut [u32]) -> bool
    requires { HolesInputs s.now starts.now holes.old }
    ensures { result ≡ is_nfa lower upper (read s.now) }
{
    for q in 0..s[2] {
        if is_nfa_run(sheets::run(s, starts, q), lower, upper, holes) {
            return true;
        }
    }
    false
}

// The number of holes of all states.
pub fn count_holes(s: &[u32], starts: &[u32], lower: u32, upper: u32, holes: &mut [u32]) -> usize
    requires { HolesInputs s.now starts.now holes.old }
    ensures { result ≡ length (holes_in lower upper (read s.now) (states (state_count s.now))) }
{
    let mut count: usize = 0;
    for q in 0..s[2] {
        count += ranges::missing_ranges(sheets::run(s, starts, q), lower, upper, holes);
    }
    count
}

// Whether some state of an accepted sheet has an epsilon, an overlap or a hole from lower to upper.
pub fn is_nfa_between(s: &[u32], lower: u32, upper: u32) -> bool
    requires { Accepted s.now }
    ensures { result ≡ is_nfa lower upper (read s.now) }
{
    let mut starts = [0u32; 257];
    let mut holes = [0u32; 4098];
    sheets::run_starts(s, &mut starts);
    is_nfa_sheet(s, &starts, lower, upper, &mut holes)
}

// Whether a sheet has an epsilon, an overlap or a hole.
#[tactic(auto, using(crate::proofs::Answers::is_nfa_laws))]
pub fn is_nfa(s: &[u32]) -> Result<bool, InputRefusal>
    ensures { decision_of result ≡ is_nfa_answer 0 last_symbol s.now }
{
    sheets::check(s)?;
    Ok(is_nfa_between(s, 0, 4294967295))
}
