// How long the parts of the text are.
ghost use Rattle.std.specs.Prelude.{[], ◌≡◌, ◌+◌, ◌≤◌, ◌<◌, length, get_or};
ghost use Rattle.automata.specs.Records.{read_records};
ghost use Rattle.automata.specs.inner.Records.{record_at};
ghost use Rattle.decimal.specs.Decimal.{digits};
ghost use Rattle.labels.specs.Labels.{label_count, read_labels};
ghost use Rattle.output.specs.Output.{read_pattern};
ghost use Rattle.sheets.specs.inner.Runs.{Named};
ghost use Rattle.writer.specs.Text.{more_names_text, pattern_text};
ghost use Rattle.writer.specs.inner.Parts.{spaced_transition, spaced_transitions};
ghost use Rattle.writer.specs.inner.Tables.{StatesBelow, TextTables, state_labels};

use crate::label_list::LabelList;

// How many decimal digits x has.
fn digit_count(x: u32) -> usize
    ensures { (result ≡ length (digits x)) × (result ≤ 10) }
{
    let mut n: usize = 1;
    let mut v = x;
    while 10 <= v {
        v = v / 10;
        n += 1;
    }
    n
}

// The length of the transition whose record is words.
fn transition_length(labels: LabelList, words: &[u32; 5]) -> usize
    requires { ((record_at words.now 0).from < label_count labels.bytes.now) × ((record_at words.now 0).to < label_count labels.bytes.now) }
    ensures { (result ≡ length (spaced_transition (read_labels labels.entry.bytes.now) (record_at words.now 0))) × (result ≤ 160) }
{
    let from = labels.label_length(words[0]);
    let to = labels.label_length(words[4]);
    let first = digit_count(words[2]);
    let last = digit_count(words[3]);
    11 + from + to + first + last
}

// The length of some transitions.
fn transitions_length(labels: LabelList, records: &[u32]) -> usize
    requires { Named (label_count labels.bytes.now) (read_records records.now) × (length records.now ≤ 10240) }
    ensures { (result ≡ length (spaced_transitions (read_labels labels.entry.bytes.now) (read_records records.now))) × (result ≤ 327680) }
{
    let (chunks, _) = records.as_chunks::<5>();
    let mut n: usize = 0;
    for words in chunks {
        n += transition_length(labels, words);
    }
    n
}

// The length of the labels of some states, each with a comma and a blank before it.
fn names_length(labels: LabelList, states: &[u32]) -> usize
    requires { StatesBelow (label_count labels.bytes.now) states.now × (length states.now ≤ 256) }
    ensures { (result ≡ length (more_names_text (state_labels labels.entry.bytes.now states.now))) × (result ≤ 16896) }
{
    let mut n: usize = 0;
    for q in states {
        n += 2 + labels.label_length(*q);
    }
    n
}

// The length of the text.
pub fn text_length(s: &[u32], labels: LabelList, accepting: &[u32]) -> usize
    requires { TextTables s.now labels.bytes.now accepting.now }
    ensures { result ≡ length (pattern_text (read_pattern s.now labels.entry.bytes.now)) }
{
    let base = s[2] as usize + 4;
    let start = labels.label_length(s[1]);
    let transitions = transitions_length(labels, &s[base..]);
    let names = names_length(labels, accepting);
    33 + start + transitions + names
}
