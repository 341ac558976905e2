// Writes the text into lent memory, part by part. Each function answers the place behind what it wrote.
ghost use Rattle.std.specs.Prelude.{[], ◌≡◌, ◌+◌, ◌≤◌, ◌<◌, length, get_or};
ghost use Rattle.automata.specs.Records.{read_records};
ghost use Rattle.automata.specs.inner.Records.{record_at};
ghost use Rattle.labels.specs.Labels.{label_count, read_labels};
ghost use Rattle.output.specs.Output.{read_pattern};
ghost use Rattle.stores.specs.Written.{Written};
ghost use Rattle.sheets.specs.inner.Runs.{Named};
ghost use Rattle.writer.specs.Text.{names_text, more_names_text, pattern_text};
ghost use Rattle.writer.specs.inner.Parts.{arrow_text, range_text, spaced_transition, spaced_transitions, heading_text, closing_text};
ghost use Rattle.writer.specs.inner.Tables.{StatesBelow, TextTables, state_labels};

use crate::label_list::LabelList;

// The label of the state q.
fn put_label(out: &mut [u8], at: usize, labels: LabelList, q: u32) -> usize
    requires { (q < label_count labels.bytes.now) × (at + length (get_or (read_labels labels.bytes.now) q []) ≤ length out.old) }
    ensures { Written out.old at (get_or (read_labels labels.entry.bytes.now) q []) out.new result }
{
    stores::put_all(out, at, labels.label(q))
}

// ` p -> q` for the states p and q.
fn put_arrow(out: &mut [u8], at: usize, labels: LabelList, p: u32, q: u32) -> usize
    requires { (p < label_count labels.bytes.now) × (q < label_count labels.bytes.now) × (at + length (arrow_text (read_labels labels.bytes.now) p q) ≤ length out.old) }
    ensures { Written out.old at (arrow_text (read_labels labels.entry.bytes.now) p q) out.new result }
{
    let from = stores::put(out, at, b' ');
    let arrow = put_label(out, from, labels, p);
    let to = stores::put_all(out, arrow, b" -> ");
    put_label(out, to, labels, q)
}

// ` [x, y];` for the symbols x and y.
fn put_range(out: &mut [u8], at: usize, x: u32, y: u32) -> usize
    requires { at + length (range_text x y) + 10 ≤ length out.old }
    ensures { Written out.old at (range_text x y) out.new result }
{
    let first = stores::put_all(out, at, b" [");
    let comma = decimal::put_decimal(out, first, x);
    let last = stores::put_all(out, comma, b", ");
    let end = decimal::put_decimal(out, last, y);
    stores::put_all(out, end, b"];")
}

// The transition whose record is words.
fn put_transition(out: &mut [u8], at: usize, labels: LabelList, words: &[u32; 5]) -> usize
    requires { ((record_at words.now 0).from < label_count labels.bytes.now) × ((record_at words.now 0).to < label_count labels.bytes.now) × (at + length (spaced_transition (read_labels labels.bytes.now) (record_at words.now 0)) + 10 ≤ length out.old) }
    ensures { Written out.old at (spaced_transition (read_labels labels.entry.bytes.now) (record_at words.now 0)) out.new result }
{
    let range = put_arrow(out, at, labels, words[0], words[4]);
    put_range(out, range, words[2], words[3])
}

// Some transitions. There is room for ten bytes more, as a number needs it.
fn put_transitions(out: &mut [u8], at: usize, labels: LabelList, records: &[u32]) -> usize
    requires { Named (label_count labels.bytes.now) (read_records records.now) × (at + length (spaced_transitions (read_labels labels.bytes.now) (read_records records.now)) + 10 ≤ length out.old) }
    ensures { Written out.old at (spaced_transitions (read_labels labels.entry.bytes.now) (read_records records.now)) out.new result }
{
    let (chunks, _) = records.as_chunks::<5>();
    let mut end = at;
    for words in chunks {
        end = put_transition(out, end, labels, words);
    }
    end
}

// The labels of some states, each with a comma and a blank before it.
fn put_more_names(out: &mut [u8], at: usize, labels: LabelList, states: &[u32]) -> usize
    requires { StatesBelow (label_count labels.bytes.now) states.now × (at + length (more_names_text (state_labels labels.bytes.now states.now)) ≤ length out.old) }
    ensures { Written out.old at (more_names_text (state_labels labels.entry.bytes.now states.now)) out.new result }
{
    let mut end = at;
    for q in states {
        let name = stores::put_all(out, end, b", ");
        end = put_label(out, name, labels, *q);
    }
    end
}

// The labels of some states, with a comma and a blank between them.
fn put_names(out: &mut [u8], at: usize, labels: LabelList, states: &[u32]) -> usize
    requires { StatesBelow (label_count labels.bytes.now) states.now × (0 < length states.now) × (at + length (names_text (state_labels labels.bytes.now states.now)) ≤ length out.old) }
    ensures { Written out.old at (names_text (state_labels labels.entry.bytes.now states.now)) out.new result }
{
    let more = put_label(out, at, labels, states[0]);
    put_more_names(out, more, labels, &states[1..])
}

// `automaton P { init p;` for the state p.
fn put_heading(out: &mut [u8], labels: LabelList, p: u32) -> usize
    requires { (p < label_count labels.bytes.now) × (length (heading_text (get_or (read_labels labels.bytes.now) p [])) ≤ length out.old) }
    ensures { Written out.old 0 (heading_text (get_or (read_labels labels.entry.bytes.now) p [])) out.new result }
{
    let name = stores::put_all(out, 0, b"automaton P { init ");
    let end = put_label(out, name, labels, p);
    stores::put(out, end, b';')
}

// ` accepting p, q; };` for some states.
fn put_closing(out: &mut [u8], at: usize, labels: LabelList, states: &[u32]) -> usize
    requires { StatesBelow (label_count labels.bytes.now) states.now × (0 < length states.now) × (at + length (closing_text (names_text (state_labels labels.bytes.now states.now))) ≤ length out.old) }
    ensures { Written out.old at (closing_text (names_text (state_labels labels.entry.bytes.now states.now))) out.new result }
{
    let names = stores::put_all(out, at, b" accepting ");
    let end = put_names(out, names, labels, states);
    stores::put_all(out, end, b"; };")
}

// The whole text.
pub fn put_text(out: &mut [u8], s: &[u32], labels: LabelList, accepting: &[u32]) -> usize
    requires { TextTables s.now labels.bytes.now accepting.now × (length (pattern_text (read_pattern s.now labels.bytes.now)) ≤ length out.old) }
    ensures { Written out.old 0 (pattern_text (read_pattern s.now labels.entry.bytes.now)) out.new result }
{
    let base = s[2] as usize + 4;
    let transitions = put_heading(out, labels, s[1]);
    let closing = put_transitions(out, transitions, labels, &s[base..]);
    put_closing(out, closing, labels, accepting)
}
