// Label lists: the check, and reading labels one after the other. `writing` writes lists of labels.
#![tactic(auto)]

ghost use Rattle.std.specs.Prelude.{◌≡◌, ◌+◌, ◌≤◌, ◌<◌, length, get_or, take, drop};
ghost use Rattle.labels.specs.Labels.{entries_ok, labels_fault, same_label};
ghost use Rattle.labels.specs.Checked.{checked_number};

use refusal::InputRefusal;

mod writing;

pub use writing::{
    copy_all, copy_with_sink, put_copy, put_count, put_numbered, put_pair, put_sink, write_numbered,
};

// Whether n labels stand behind the count, each after its length of 1 to 64, and nothing behind them.
#[tactic(auto, using(crate::proofs::Checking::entries_next, crate::proofs::Checking::entries_missing, crate::proofs::Checking::entries_done))]
fn entries_ok(n: usize, b: &[u8]) -> bool
    ensures { result ≡ entries_ok n (drop 2 b.now) }
{
    let mut at: usize = 2;
    for _ in 0..n {
        if b.len() <= at {
            return false;
        }
        let l = usize::from(b[at]);
        if l < 1 {
            return false;
        }
        if 64 < l {
            return false;
        }
        if b.len() - (at + 1) < l {
            return false;
        }
        at = at + 1 + l;
    }
    b.len() <= at
}

// The fault of b as the labels of n states.
#[tactic(auto, using(crate::proofs::Checking::fault_laws))]
pub fn check(n: usize, b: &[u8]) -> Result<(), InputRefusal>
    ensures { checked_number result ≡ labels_fault n b.now }
{
    if b.len() < 2 {
        return Err(InputRefusal::Labels);
    }
    let low = usize::from(b[0]);
    if low != n % 256 {
        return Err(InputRefusal::Labels);
    }
    let high = usize::from(b[1]);
    if high != n / 256 {
        return Err(InputRefusal::Labels);
    }
    if entries_ok(n, b) {
        return Ok(());
    }
    Err(InputRefusal::Labels)
}

// The place behind the label whose length stands at at: where the length of the next one stands.
pub fn next_label(b: &[u8], at: usize) -> usize
    requires { at < length b.now }
    ensures { result ≡ at + 1 + get_or b.now at 0 }
{
    at + 1 + usize::from(b[at])
}

// The label whose length stands at at.
pub fn label_from(b: &[u8], at: usize) -> &[u8]
    requires { at + 1 + get_or b.now at 0 ≤ length b.now }
    ensures { result.now ≡ take (get_or b.now at 0) (drop (at + 1) b.now) }
{
    let first = at + 1;
    let end = first + usize::from(b[at]);
    &b[first..end]
}

// Whether two labels are the same.
#[tactic(auto, using(lists::proofs::Index::same_slices))]
pub fn same_label(a: &[u8], b: &[u8]) -> bool
    ensures { result ≡ same_label a.now b.now }
{
    a == b
}
