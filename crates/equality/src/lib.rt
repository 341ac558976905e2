// Exact equality (document 01, "Equality"): both sheets are determinized, and the pairs of states of the two determinizations are walked.
#![tactic(auto)]

ghost use Rattle.std.specs.Prelude.{◌≤◌, length};
ghost use Rattle.sheets.specs.inner.Accepted.{Accepted};
ghost use Rattle.sheets.specs.Sheet.{read};
ghost use Rattle.automata.specs.WellFormed.{last_symbol};
ghost use Rattle.determinizations.specs.Determinizations.{determinized};
ghost use Rattle.equality.specs.Equality.{equality_answer, Judged, word_size};

use refusal::{Refusal, StateRefusal};

mod walk;

// The verdict of exact equality: same with the joins made, different with the length of the word written, or refused.
#[derive(Drop)]
pub enum Verdict {
    Same(usize),
    Different(usize),
    Refused(Refusal),
}

// The walk over the determinizations of two accepted sheets over the symbols from lower to upper.
#[tactic(auto, using(crate::proofs::Comparing::determinized_laws))]
fn compare(a: &[u32], b: &[u32], lower: u32, upper: u32, word: &mut [u32]) -> Verdict
    requires { Accepted a.now × Accepted b.now × (word_size ≤ length word.old) }
    ensures { Judged (determinized lower upper (read a.now) (read b.now)) word.old word.new result }
{
    let mut out_a = [0u32; 10500];
    let mut out_b = [0u32; 10500];
    match determinizations::determinize_both(a, b, lower, upper, &mut out_a, &mut out_b) {
        Ok((m, n)) => walk::walk(&out_a[..m], &out_b[..n], lower, upper, word),
        Err(r) => Verdict::Refused(Refusal::State(r)),
    }
}

// Whether two sheets accept the same words: same with the joins made, or different with the length of a word that exactly one
// accepts, which stands at the front of word.
#[tactic(auto, using(crate::proofs::Comparing::comparing))]
pub fn equality(a: &[u32], b: &[u32], word: &mut [u32]) -> Verdict
    ensures { Judged (equality_answer 0 last_symbol a.now b.now word.old) word.old word.new result }
{
    if word.len() < 510 {
        return Verdict::Refused(Refusal::State(StateRefusal::OutputLength));
    }
    match sheets::check(a) {
        Ok(()) => {}
        Err(r) => return Verdict::Refused(Refusal::Input(r)),
    }
    match sheets::check(b) {
        Ok(()) => {}
        Err(r) => return Verdict::Refused(Refusal::Input(r)),
    }
    compare(a, b, 0, 4294967295, word)
}
