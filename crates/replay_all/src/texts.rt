// Cases of writing: a sheet, its labels, then the refusal's number, or 0 and the text as a list of bytes.
ghost use Rattle.std.specs.Prelude.{◌≡◌};
ghost use Rattle.writer.specs.Wrote.{wrote_of};
ghost use Rattle.replay_all.specs.Spelling.{is_spelled, is_text, write_case};

use refusal::Refusal;

// Whether the case has at its end, from at on, a 0 and these bytes as a list.
fn is_spelled(case: &[u32], at: usize, text: &[u8]) -> bool
    ensures { result ≡ is_spelled case.now at text.now }
{
    if case.len() <= at {
        return false;
    }
    if case[at] != 0 {
        return false;
    }
    let first = at + 1;
    let list = replay::list(case, first);
    if first + 1 + list.len() != case.len() {
        return false;
    }
    let mut bytes = [0u8; 4096];
    let k = replay::bytes(list, &mut bytes);
    if k != list.len() {
        return false;
    }
    check::same(&bytes[..k], text)
}

// Whether the outcome of writing stands in the case from at on.
#[tactic(auto, using(crate::proofs::Spelling::written_text_laws))]
fn is_text(case: &[u32], at: usize, answer: Result<usize, Refusal>, out: &[u8]) -> bool
    ensures { result ≡ is_text case.now at (wrote_of answer out.now) }
{
    match answer {
        Ok(n) => {
            if out.len() < n {
                return false;
            }
            is_spelled(case, at, &out[0..n])
        }
        Err(r) => replay::is_last(case, at, refusal::number(r)),
    }
}

// The sheet, the labels as a list of bytes, then the outcome of writing them.
pub fn written(case: &[u32]) -> bool
    ensures { result ≡ write_case case.now }
{
    let sheet = replay::list(case, 0);
    let second = 1 + sheet.len();
    let list = replay::list(case, second);
    let mut labels = [0u8; 16642];
    let k = replay::bytes(list, &mut labels);
    if k != list.len() {
        return false;
    }
    let mut text = [0u8; 65536];
    let answer = writer::write_automaton(sheet, &labels[..k], &mut text);
    is_text(case, second + 1 + list.len(), answer, &text)
}
