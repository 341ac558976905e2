// Cases of questions: one sheet or two, with labels or without, and 1 for yes, 0 for no.
ghost use Rattle.std.specs.Prelude.{◌≡◌};
ghost use Rattle.refusal.specs.Decision.{decision_of};
ghost use Rattle.replay_all.specs.Decided.{decided, nfa_case, nonempty_case, equivalent_case, subautomaton_case};

use refusal::InputRefusal;

// Whether the answer stands last in a case, at the place at. Refusals have no cases.
fn answered(case: &[u32], at: usize, answer: Result<bool, InputRefusal>) -> bool
    ensures { result ≡ decided case.now at (decision_of answer) }
{
    match answer {
        Ok(b) => {
            if b {
                return replay::is_last(case, at, 1);
            }
            replay::is_last(case, at, 0)
        }
        Err(_) => false,
    }
}

// The sheet, then whether it has an epsilon, an overlap or a hole.
pub fn nfa(case: &[u32]) -> bool
    ensures { result ≡ nfa_case case.now }
{
    let sheet = replay::list(case, 0);
    answered(case, 1 + sheet.len(), nondeterminism::is_nfa(sheet))
}

// The sheet, then whether a state that accepts is reached.
pub fn nonempty(case: &[u32]) -> bool
    ensures { result ≡ nonempty_case case.now }
{
    let sheet = replay::list(case, 0);
    answered(
        case,
        1 + sheet.len(),
        emptiness::has_reachable_accepting_state(sheet),
    )
}

// Two sheets, then whether they are equivalent.
pub fn equivalent(case: &[u32]) -> bool
    ensures { result ≡ equivalent_case case.now }
{
    let a = replay::list(case, 0);
    let second = 1 + a.len();
    let b = replay::list(case, second);
    answered(case, second + 1 + b.len(), equivalence::is_equivalent(a, b))
}

// The first sheet and its labels, the second and its labels, then whether the first is a subautomaton of the second.
pub fn subautomaton(case: &[u32]) -> bool
    ensures { result ≡ subautomaton_case case.now }
{
    let a = replay::list(case, 0);
    let second = 1 + a.len();
    let al = replay::list(case, second);
    let third = second + 1 + al.len();
    let b = replay::list(case, third);
    let fourth = third + 1 + b.len();
    let bl = replay::list(case, fourth);
    let mut a_labels = [0u8; 1024];
    let mut b_labels = [0u8; 1024];
    let k = replay::bytes(al, &mut a_labels);
    if k != al.len() {
        return false;
    }
    let l = replay::bytes(bl, &mut b_labels);
    if l != bl.len() {
        return false;
    }
    answered(
        case,
        fourth + 1 + bl.len(),
        subautomaton::is_subautomaton(a, &a_labels[..k], b, &b_labels[..l]),
    )
}
