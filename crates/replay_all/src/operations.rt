// Cases of operations: a sheet with or without labels, or two sheets, then the refusal's number, or 0 and the sheet and the labels of the
// result as lists.
ghost use Rattle.std.specs.Prelude.{◌≡◌};
ghost use Rattle.output.specs.Made.{output_of};
ghost use Rattle.parser.specs.Parsed.{parsed_of};
ghost use Rattle.replay_all.specs.Outcomes.{is_listed, is_built, is_outcome, determinize_case, product_case, Operation, Totalize, Complement, EpsilonEliminate, Performs, operation_case, is_reading, parse_case};

use output::Made;
use parser::Parsed;
use refusal::Refusal;

// Whether the case has at its end, from at on, these words and these bytes as lists.
fn is_listed(case: &[u32], at: usize, words: &[u32], labels: &[u8]) -> bool
    ensures { result ≡ is_listed case.now at words.now labels.now }
{
    if case.len() <= at {
        return false;
    }
    let sheet = replay::list(case, at);
    let next = at + 1 + sheet.len();
    let list = replay::list(case, next);
    if next + 1 + list.len() != case.len() {
        return false;
    }
    let mut bytes = [0u8; 16642];
    let k = replay::bytes(list, &mut bytes);
    if k != list.len() {
        return false;
    }
    if replay::same(sheet, words) {
        return check::same(&bytes[..k], labels);
    }
    false
}

// The same behind a 0.
fn is_built(case: &[u32], at: usize, words: &[u32], labels: &[u8]) -> bool
    ensures { result ≡ is_built case.now at words.now labels.now }
{
    if case.len() <= at {
        return false;
    }
    if case[at] != 0 {
        return false;
    }
    is_listed(case, at + 1, words, labels)
}

// Whether the outcome of an operation stands in the case from at on.
#[tactic(auto, using(crate::proofs::Outcomes::outcome_laws))]
fn outcome(case: &[u32], at: usize, made: Result<Made, Refusal>, out: &[u32], names: &[u8]) -> bool
    ensures { result ≡ is_outcome case.now at (output_of made out.now names.now) }
{
    match made {
        Ok(m) => {
            if out.len() < m.words {
                return false;
            }
            if names.len() < m.bytes {
                return false;
            }
            is_built(case, at, &out[0..m.words], &names[0..m.bytes])
        }
        Err(r) => replay::is_last(case, at, refusal::number(r)),
    }
}

// The sheet, then the outcome of determinizing it.
pub fn determinized(case: &[u32]) -> bool
    ensures { result ≡ determinize_case case.now }
{
    let sheet = replay::list(case, 0);
    let mut out = [0u32; 10500];
    let mut names = [0u8; 16642];
    let made = determinize::determinize(sheet, &mut out, &mut names);
    outcome(case, 1 + sheet.len(), made, &out, &names)
}

// Two sheets, then the outcome of their product.
pub fn intersected(case: &[u32]) -> bool
    ensures { result ≡ product_case case.now }
{
    let a = replay::list(case, 0);
    let second = 1 + a.len();
    let b = replay::list(case, second);
    let mut out = [0u32; 10500];
    let mut names = [0u8; 16642];
    let made = product::intersection(a, b, &mut out, &mut names);
    outcome(case, second + 1 + b.len(), made, &out, &names)
}

// The sheet, the labels as a list of bytes, then the outcome of an operation that keeps labels.
fn operated<F: FnOnce(&[u32], &[u8], &mut [u32], &mut [u8]) -> Result<Made, Refusal>>(
    make: F,
    case: &[u32],
) -> bool
    requires { F.IsAlwaysCallable make }
    ensures { (o : Operation) → Performs (F.post make) o → result ≡ operation_case o case.now }
{
    let sheet = replay::list(case, 0);
    let second = 1 + sheet.len();
    let list = replay::list(case, second);
    let mut labels = [0u8; 16642];
    let k = replay::bytes(list, &mut labels);
    if k != list.len() {
        return false;
    }
    let mut out = [0u32; 10500];
    let mut names = [0u8; 16642];
    let made = make(sheet, &labels[..k], &mut out, &mut names);
    outcome(case, second + 1 + list.len(), made, &out, &names)
}

pub fn totalized(case: &[u32]) -> bool
    ensures { result ≡ operation_case Totalize case.now }
{
    operated(totality::totalize, case)
}

pub fn complemented(case: &[u32]) -> bool
    ensures { result ≡ operation_case Complement case.now }
{
    operated(totality::complement, case)
}

pub fn epsilon_eliminated(case: &[u32]) -> bool
    ensures { result ≡ operation_case EpsilonEliminate case.now }
{
    operated(epsilon::epsilon_eliminate, case)
}

// Whether the outcome of reading a text stands in the case from at on: the refusal's number, or 0, the number of bytes read, the sheet and
// the labels.
#[tactic(auto, unfolding(crate::specs::Outcomes::is_read))]
fn reading(
    case: &[u32],
    at: usize,
    answer: Result<Parsed, Refusal>,
    out: &[u32],
    names: &[u8],
) -> bool
    ensures { result ≡ is_reading case.now at (parsed_of answer out.now names.now) }
{
    match answer {
        Ok(p) => {
            if case.len() <= at {
                return false;
            }
            if case.len() <= at + 1 {
                return false;
            }
            if case[at] != 0 {
                return false;
            }
            if case[at + 1] as usize != p.read {
                return false;
            }
            if out.len() < p.words {
                return false;
            }
            if names.len() < p.bytes {
                return false;
            }
            is_listed(case, at + 2, &out[0..p.words], &names[0..p.bytes])
        }
        Err(r) => replay::is_last(case, at, refusal::number(r)),
    }
}

// The text as a list of bytes, then the outcome of reading it.
pub fn parsed(case: &[u32]) -> bool
    ensures { result ≡ parse_case case.now }
{
    let list = replay::list(case, 0);
    let mut text = [0u8; 4096];
    let k = replay::bytes(list, &mut text);
    if k != list.len() {
        return false;
    }
    let mut out = [0u32; 10500];
    let mut names = [0u8; 16642];
    let answer = parser::parse_automaton(&text[..k], &mut out, &mut names);
    reading(case, 1 + list.len(), answer, &out, &names)
}
