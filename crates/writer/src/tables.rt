// The tables of a sheet and its labels: which states are written, where each label stands, and the written and the accepting states in order.
ghost use Rattle.std.specs.Prelude.{cond, [], ◌∷◌, ◌≡◌, ◌+◌, ◌≤◌, ◌<◌, length, get_or};
ghost use Rattle.labels.specs.Labels.{label_count, labels_fault, read_labels};
ghost use Rattle.parser.specs.inner.Memory.{Zeros};
ghost use Rattle.sheets.specs.inner.Accepted.{Accepted};
ghost use Rattle.sheets.specs.Sheet.{state_count, read};
ghost use Rattle.stores.specs.Written.{Written};
ghost use Rattle.writer.specs.Text.{written_states};
ghost use Rattle.writer.specs.inner.Tables.{written_marks, places_below, LabelPlaces, StatesBelow, accepting_among};

// A mark for each state that is the start or that a record names.
pub fn mark_states(s: &[u32], marks: &mut [u8])
    requires { Accepted s.now × Zeros 256 marks.old }
    ensures { marks.new ≡ written_marks (read s.now) }
{
    let start = s[1] as usize;
    marks[start] = 1;
    let base = s[2] as usize + 4;
    let (records, _) = s[base..].as_chunks::<5>();
    for r in records {
        marks[r[0] as usize] = 1;
        marks[r[4] as usize] = 1;
    }
}

// Where the length of each of the n labels stands, at the front of places.
pub fn label_places(labels: &[u8], n: usize, places: &mut [usize])
    requires { (labels_fault n labels.now ≡ 0) × (n ≤ 256) × (length places.old ≡ 256) }
    ensures { places.new ≡ places_below labels.now places.old n }
{
    let mut at: usize = 2;
    for q in 0..n {
        places[q] = at;
        at = labels::next_label(labels, at);
    }
}

// The state q at a place of a list, if it is kept; the place behind.
fn put_state(list: &mut [u32], at: usize, q: u32, keep: bool) -> usize
    requires { at + length (cond keep (q ∷ []) []) ≤ length list.old }
    ensures { Written list.old at (cond keep (q ∷ []) []) list.new result }
{
    if keep {
        return stores::put(list, at, q);
    }
    at
}

// The written states in order; how many there are.
pub fn gather_written(s: &[u32], marks: &[u8], list: &mut [u32]) -> usize
    requires { Accepted s.now × (marks.now ≡ written_marks (read s.now)) × (length list.old ≡ 256) }
    ensures { Written list.old 0 (written_states (read s.now)) list.new result }
{
    let mut end: usize = 0;
    for q in 0..s[2] {
        end = put_state(list, end, q, marks[q as usize] == 1);
    }
    end
}

// Those of the states that accept; how many there are.
pub fn gather_accepting(s: &[u32], states: &[u32], list: &mut [u32]) -> usize
    requires { Accepted s.now × StatesBelow (state_count s.now) states.now × (length states.now ≤ length list.old) }
    ensures { Written list.old 0 (accepting_among (read s.now) states.now) list.new result }
{
    let mut end: usize = 0;
    for q in states {
        end = put_state(list, end, *q, 0 < sheets::accept_word(s, *q));
    }
    end
}
