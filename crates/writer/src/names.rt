// Whether labels can stand in the text: each is a name of the grammar, and no two are equal.
ghost use Rattle.std.specs.Prelude.{true, ◌≡◌, ◌≤◌, ◌<◌, length};
ghost use Rattle.labels.specs.Labels.{label_count};
ghost use Rattle.writer.specs.Text.{is_name};
ghost use Rattle.writer.specs.inner.Parts.{are_names};
ghost use Rattle.writer.specs.inner.Tables.{StatesBelow, state_labels};

use crate::label_list::LabelList;

// A letter, then letters, digits and `_`; at most 64 bytes.
fn is_name(label: &[u8]) -> bool
    ensures { result ≡ is_name label.now }
{
    if label.len() < 1 {
        return false;
    }
    if 64 < label.len() {
        return false;
    }
    if !grammar::is_letter(label[0]) {
        return false;
    }
    label[1..].iter().all(|b| grammar::is_name_byte(*b))
}

// Whether the labels of some states are names, and no two are equal: each is added to a table, which grows by one unless it has the label already.
pub fn are_names(labels: LabelList, states: &[u32]) -> bool
    requires { StatesBelow (label_count labels.bytes.now) states.now × (length states.now ≤ 256) }
    ensures { result ≡ are_names (state_labels labels.entry.bytes.now states.now) }
{
    let mut t = [0usize; 1024];
    for (i, q) in states.iter().enumerate() {
        if !is_name(labels.label(*q)) {
            return false;
        }
        let at = labels.places[*q as usize];
        let next = labels::next_label(labels.bytes, at);
        let Some(k) = name_table::add(labels.bytes, &mut t, i, at + 1, next) else {
            return false;
        };
        if k == i {
            return false;
        }
    }
    true
}
