// Writing: the text of a sheet and its labels, in the grammar. Nothing is written before it is known that nothing is refused.
#![tactic(auto)]

ghost use Rattle.std.specs.Prelude.{◌≡◌, ◌≤◌, length};
ghost use Rattle.labels.specs.Labels.{labels_fault};
ghost use Rattle.output.specs.Output.{read_pattern, labels_first};
ghost use Rattle.refusal.specs.Answer.{given};
ghost use Rattle.sheets.specs.inner.Accepted.{Accepted};
ghost use Rattle.sheets.specs.Sheet.{state_count, read};
ghost use Rattle.writer.specs.Text.{written_states, pattern_text, text_size, accepting_first, names_first, pattern_answer, write_answer, write_outcome};
ghost use Rattle.writer.specs.Wrote.{wrote_of};
ghost use Rattle.writer.specs.inner.Tables.{written_marks, TextTables};

use label_list::LabelList;
use refusal::{InputRefusal, Refusal, StateRefusal};

mod label_list;
mod lengths;
mod names;
mod tables;
mod writing;

// The text where some written state accepts, or 32. Each function that writes the text answers how many bytes it takes.
#[tactic(auto, using(crate::proofs::Answers::ready_write_laws))]
fn write_ready(
    s: &[u32],
    labels: LabelList,
    written: &[u32],
    accepting: &[u32],
    out: &mut [u8],
) -> Result<usize, Refusal>
    requires { TextTables s.now labels.bytes.now accepting.now × (written.now ≡ written_states (read s.now)) × (text_size ≤ length out.old) }
    ensures { wrote_of result out.new ≡ write_outcome out.old (names_first (read_pattern s.now labels.entry.bytes.now) (given (pattern_text (read_pattern s.now labels.entry.bytes.now)))) }
{
    if !names::are_names(labels, written) {
        return Err(Refusal::Input(InputRefusal::Names));
    }
    if 65536 < lengths::text_length(s, labels, accepting) {
        return Err(Refusal::Input(InputRefusal::Names));
    }
    let n = writing::put_text(out, s, labels, accepting);
    Ok(n)
}

// The text of a pattern without epsilons whose tables are made, or 31 or 32.
fn write_marked(
    s: &[u32],
    labels: LabelList,
    marks: &[u8],
    out: &mut [u8],
) -> Result<usize, Refusal>
    requires { Accepted s.now × (labels_fault (state_count s.now) labels.bytes.now ≡ 0) × (marks.now ≡ written_marks (read s.now)) × (text_size ≤ length out.old) }
    ensures { wrote_of result out.new ≡ write_outcome out.old (accepting_first (read s.now) (names_first (read_pattern s.now labels.entry.bytes.now) (given (pattern_text (read_pattern s.now labels.entry.bytes.now))))) }
{
    let mut written = [0u32; 256];
    let mut accepting = [0u32; 256];
    let n = tables::gather_written(s, marks, &mut written);
    let k = tables::gather_accepting(s, &written[0..n], &mut accepting);
    if k == 0 {
        return Err(Refusal::Input(InputRefusal::NoAcceptingState));
    }
    write_ready(s, labels, &written[0..n], &accepting[0..k], out)
}

// The text of an accepted sheet and accepted labels, or 30, 31 or 32.
fn write_pattern(s: &[u32], labels: &[u8], out: &mut [u8]) -> Result<usize, Refusal>
    requires { Accepted s.now × (labels_fault (state_count s.now) labels.now ≡ 0) × (text_size ≤ length out.old) }
    ensures { wrote_of result out.new ≡ write_outcome out.old (pattern_answer (read_pattern s.now labels.now)) }
{
    let n = s[2] as usize;
    let base = n + 4;
    if sheets::has_epsilon(&s[base..]) {
        return Err(Refusal::Input(InputRefusal::EpsilonRecord));
    }
    let mut marks = [0u8; 256];
    let mut places = [0usize; 256];
    tables::mark_states(s, &mut marks);
    tables::label_places(labels, n, &mut places);
    let list = LabelList {
        bytes: labels,
        places: &places,
    };
    write_marked(s, list, &marks, out)
}

// The text of an accepted sheet and its labels, or 10, 30, 31 or 32.
#[tactic(auto, using(crate::proofs::Answers::labels_write_laws))]
fn write_sheet(s: &[u32], labels: &[u8], out: &mut [u8]) -> Result<usize, Refusal>
    requires { Accepted s.now × (text_size ≤ length out.old) }
    ensures { wrote_of result out.new ≡ write_outcome out.old (labels_first (state_count s.now) labels.now (pattern_answer (read_pattern s.now labels.now))) }
{
    labels::check(s[2] as usize, labels)?;
    write_pattern(s, labels, out)
}

// The text of a sheet and its labels at the front of the lent buffer, or a refusal that leaves the buffer as it was.
#[tactic(auto, using(crate::proofs::Answers::sheet_write_laws))]
pub fn write_automaton(s: &[u32], labels: &[u8], out: &mut [u8]) -> Result<usize, Refusal>
    ensures { wrote_of result out.new ≡ write_outcome out.old (write_answer s.now labels.now out.old) }
{
    if out.len() < 65536 {
        return Err(Refusal::State(StateRefusal::OutputLength));
    }
    sheets::check(s)?;
    write_sheet(s, labels, out)
}
