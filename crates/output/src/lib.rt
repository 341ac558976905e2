// The outputs of operations: a sheet into a lent buffer of at least 10,500 words, its labels into one of at least 16,642 bytes.
#![tactic(auto)]

ghost use Rattle.std.specs.Prelude.{◌||◌, [], ◌∷◌, ◌≡◌, ◌+◌, ◌≤◌, ltb, length};
ghost use Rattle.stores.specs.Written.{Written};
ghost use Rattle.output.specs.Output.{labels_size, sheet_size};

mod finding;
mod gathering;
mod sorting;

pub use gathering::{Filled, collect_records, gather_record};
pub use sorting::sort_records;

// What an operation has put into its two outputs: how many words the sheet takes and how many bytes the labels.
#[derive(Clone, Copy)]
pub struct Made {
    pub words: usize,
    pub bytes: usize,
}

// Whether one of the outputs is shorter than its fixed size (20).
pub fn lacks_room(out: &[u32], labels: &[u8]) -> bool
    ensures { result ≡ (ltb (length out.now) sheet_size || ltb (length labels.now) labels_size) }
{
    if out.len() < 10500 {
        return true;
    }
    labels.len() < 16642
}

// The front of a sheet: one start, its index, and the number of states.
pub fn put_start(out: &mut [u32], start: u32, states: u32) -> usize
    requires { 3 ≤ length out.old }
    ensures { Written out.old 0 (1 ∷ start ∷ states ∷ []) out.new result }
{
    out[0] = 1;
    out[1] = start;
    out[2] = states;
    3
}

// A record at a place; the place behind it.
pub fn put_record(
    out: &mut [u32],
    at: usize,
    from: u32,
    kind: u32,
    first: u32,
    last: u32,
    to: u32,
) -> usize
    requires { at + 5 ≤ length out.old }
    ensures { Written out.old at (from ∷ kind ∷ first ∷ last ∷ to ∷ []) out.new result }
{
    out[at] = from;
    out[at + 1] = kind;
    out[at + 2] = first;
    out[at + 3] = last;
    out[at + 4] = to;
    at + 5
}
