// The line that the program `verdict` prints: whether the patterns of two texts accept the same words.
#![tactic(auto)]

ghost use Rattle.std.specs.Prelude.{◌≡◌, ◌≤◌, length};
ghost use Rattle.automata.specs.WellFormed.{last_symbol};
ghost use Rattle.sheets.specs.Fault.{fault};
ghost use Rattle.sheets.specs.Sheet.{read};
ghost use Rattle.parser.specs.Pattern.{reading_answer};
ghost use Rattle.equality.specs.Equality.{Judged, word_size};
ghost use Rattle.verdict_line.specs.Texts.{two_texts, with_second_text, with_first_text, verdict_answer};
ghost use Rattle.verdict_line.specs.Line.{Printed};
ghost use Rattle.verdict_line.specs.inner.Code.{second_of, SheetRead};
ghost use Rattle.output.specs.Output.{sheet_size};

use equality::Verdict;
use grammar::Cursor;
use parser::Parsed;
use refusal::{InputRefusal, Refusal};

mod lines;

// Where the second of two texts begins, or nothing where the input is not two texts with nothing but space between and after.
#[tactic(auto, using(std::proofs::lemmas::List::take_rest, crate::proofs::Reading::second_inside, crate::proofs::Reading::both_fits), unfolding(crate::specs::Texts::two_texts, grammar::specs::Grammar::follow))]
fn second_text(input: &[u8]) -> Option<usize>
    ensures { second_of result ≡ two_texts input.now }
{
    let Some((_, c)) = grammar::whole_text(input) else {
        return None;
    };
    let from = grammar::space(input, c);
    let at = from.at;
    let Some((_, d)) = grammar::whole_text(&input[at..]) else {
        return None;
    };
    let end = grammar::space(input, Cursor { at: at + d.at });
    if end.at < input.len() {
        return None;
    }
    Some(at)
}

// The sheet of a text at the front of out.
fn read_sheet(text: &[u8], out: &mut [u32]) -> Result<Parsed, Refusal>
    requires { length out.old ≡ sheet_size }
    ensures { SheetRead (reading_answer text.now) out.new result }
{
    let mut names = [0u8; 16642];
    parser::parse_automaton(text, out, &mut names)
}

// The sheet a against the second text.
fn compare_second(a: &[u32], second: &[u8], word: &mut [u32]) -> Verdict
    requires { (fault a.now ≡ 0) × (word_size ≤ length word.old) }
    ensures { Judged (with_second_text 0 last_symbol (read a.now) (reading_answer second.now)) word.old word.new result }
{
    let mut b = [0u32; 10500];
    match read_sheet(second, &mut b) {
        Ok(p) => equality::equality(a, &b[0..p.words], word),
        Err(r) => Verdict::Refused(r),
    }
}

// The first text against the second.
fn compare_texts(first: &[u8], second: &[u8], word: &mut [u32]) -> Verdict
    requires { word_size ≤ length word.old }
    ensures { Judged (with_first_text 0 last_symbol (reading_answer first.now) (reading_answer second.now)) word.old word.new result }
{
    let mut a = [0u32; 10500];
    match read_sheet(first, &mut a) {
        Ok(p) => compare_second(&a[0..p.words], second, word),
        Err(r) => Verdict::Refused(r),
    }
}

// The verdict on the two texts of an input.
#[tactic(auto, using(crate::proofs::Judging::input_long))]
fn compare(input: &[u8], word: &mut [u32]) -> Verdict
    requires { word_size ≤ length word.old }
    ensures { Judged (verdict_answer 0 last_symbol input.now) word.old word.new result }
{
    if 65536 < input.len() {
        return Verdict::Refused(Refusal::Input(InputRefusal::Grammar));
    }
    match second_text(input) {
        Some(at) => compare_texts(input, &input[at..], word),
        None => Verdict::Refused(Refusal::Input(InputRefusal::Grammar)),
    }
}

// The line for an input at the front of out, and its length; 0 where out has under 5,617 bytes.
pub fn line(input: &[u8], out: &mut [u8]) -> usize
    ensures { Printed (verdict_answer 0 last_symbol input.now) out.old out.new result }
{
    if out.len() < 5617 {
        return 0;
    }
    let mut word = [0u32; 510];
    let v = compare(input, &mut word);
    lines::put_verdict(out, v, &word)
}
