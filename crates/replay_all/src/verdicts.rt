// Cases of exact equality: two sheets, then the refusal's number, or 0 and: 1 and the joins, or 0 and the most symbols that a difference word may
// have.
ghost use Rattle.std.specs.Prelude.{◌≡◌};
ghost use Rattle.words.specs.Acceptance.{accepts_words_answer};
ghost use Rattle.replay_all.specs.Verdicts.{is_one, tells_apart, is_told, last_of, is_verdict, EqualityCase};

use equality::Verdict;

// Whether the sheet accepts the word.
fn accepts(sheet: &[u32], word: &[u32]) -> bool
    ensures { result ≡ is_one (accepts_words_answer sheet.now word.now) }
{
    match words::accepts_words(sheet, word) {
        Ok(k) => k == 1,
        Err(_) => false,
    }
}

// Whether one of the sheets accepts the word, and the other does not.
fn tells_apart(a: &[u32], b: &[u32], word: &[u32]) -> bool
    ensures { result ≡ tells_apart a.now b.now word.now }
{
    if accepts(a, word) {
        return !accepts(b, word);
    }
    accepts(b, word)
}

// Whether the case ends, from at on, with 0, then same and a number.
fn is_told(case: &[u32], at: usize, same: u32) -> bool
    ensures { result ≡ is_told case.now at same }
{
    if case.len() < 3 {
        return false;
    }
    if case.len() - 3 != at {
        return false;
    }
    if case[at] != 0 {
        return false;
    }
    case[at + 1] == same
}

// The last number of a case, or 0 where it has none.
fn last(case: &[u32]) -> usize
    ensures { result ≡ last_of case.now }
{
    if case.len() == 0 {
        return 0;
    }
    case[case.len() - 1] as usize
}

// Whether the verdict on two sheets, with its word at the front of the buffer, stands in the case from at on.
fn is_verdict(case: &[u32], at: usize, a: &[u32], b: &[u32], verdict: Verdict, word: &[u32]) -> bool
    ensures { result ≡ is_verdict case.now at a.now b.now word.now verdict }
{
    match verdict {
        Verdict::Same(joins) => {
            if last(case) != joins {
                return false;
            }
            is_told(case, at, 1)
        }
        Verdict::Different(n) => {
            if word.len() < n {
                return false;
            }
            if last(case) < n {
                return false;
            }
            if tells_apart(a, b, &word[0..n]) {
                return is_told(case, at, 0);
            }
            false
        }
        Verdict::Refused(r) => replay::is_last(case, at, refusal::number(r)),
    }
}

// Two sheets, then the verdict.
pub fn compared(case: &[u32]) -> bool
    ensures { EqualityCase case.now result }
{
    let a = replay::list(case, 0);
    let second = 1 + a.len();
    let b = replay::list(case, second);
    let at = second + 1 + b.len();
    let mut word = [0u32; 510];
    let verdict = equality::equality(a, b, &mut word);
    is_verdict(case, at, a, b, verdict, &word)
}
