// Cases of acceptance: a sheet, a word or a text, and 1 if it is accepted, else 0, or 9 where the text is malformed.
ghost use Rattle.std.specs.Prelude.{◌≡◌};
ghost use Rattle.words.specs.Acceptance.{acceptance_of};
ghost use Rattle.replay_all.specs.Decided.{accepted, word_case, text_case};

use refusal::InputRefusal;

// Whether the answer stands last in a case, at the place at.
fn answered(case: &[u32], at: usize, answer: Result<u32, InputRefusal>) -> bool
    ensures { result ≡ accepted case.now at (acceptance_of answer) }
{
    match answer {
        Ok(k) => replay::is_last(case, at, k),
        Err(r) => {
            let number = refusal::input_number(r);
            if number == 9 {
                return replay::is_last(case, at, 9);
            }
            false
        }
    }
}

// The sheet, the word as a list, then the answer.
pub fn word(case: &[u32]) -> bool
    ensures { result ≡ word_case case.now }
{
    let sheet = replay::list(case, 0);
    let second = 1 + sheet.len();
    let word = replay::list(case, second);
    let last = second + 1 + word.len();
    answered(case, last, words::accepts_words(sheet, word))
}

// The sheet, the text as a list of bytes, then the answer.
pub fn text(case: &[u32]) -> bool
    ensures { result ≡ text_case case.now }
{
    let sheet = replay::list(case, 0);
    let second = 1 + sheet.len();
    let list = replay::list(case, second);
    let last = second + 1 + list.len();
    let mut bytes = [0u8; 1024];
    let k = replay::bytes(list, &mut bytes);
    if k != list.len() {
        return false;
    }
    answered(case, last, words::accepts_text(sheet, &bytes[..k]))
}
