// The sheet: an automaton as a list of words. The check goes through the words once, and through the records twice where one of them leaves a state that the
// sheet does not have; `reading` reads accepted sheets.
#![tactic(auto)]

ghost use Rattle.std.specs.Prelude.{◌≡◌, ◌≢◌, false, [], ◌+◌, ◌*◌, ◌<◌, eqb, length, get_or};
ghost use Rattle.automata.specs.Ordered.{less};
ghost use Rattle.automata.specs.Records.{read_records};
ghost use Rattle.automata.specs.inner.Records.{record_at};
ghost use Rattle.sheets.specs.inner.Accepted.{Accepted};
ghost use Rattle.sheets.specs.inner.Passed.{Keyed, Passed, PassedBelow, range_key};
ghost use Rattle.sheets.specs.Fault.{fault, states_fault, transitions_fault, records_fault, record_fault, is_bad, accept_words};
ghost use Rattle.sheets.specs.Checked.{checked_number};

use refusal::InputRefusal;

mod reading;

pub use reading::{accept_word, has_epsilon, run, run_starts};

// Whether each accept word is 0 or 1: no other bit is set in one of them.
fn are_accept_words(s: &[u32]) -> bool
    ensures { result ≡ accept_words s.now }
{
    let all = s.iter().fold(0, |all, word| all | *word);
    all <= 1
}

// Whether a record of these words breaks a rule by itself, in a sheet of n states.
fn is_bad(n: u32, from: u32, kind: u32, first: u32, last: u32, to: u32) -> bool
    ensures { result ≡ is_bad n (record { from = from; kind = kind; first = first; last = last; to = to }) }
{
    if 1 < kind {
        return true;
    }
    if n <= from {
        return true;
    }
    if n <= to {
        return true;
    }
    if last < first {
        return true;
    }
    if kind != 0 {
        return false;
    }
    if first != 0 {
        return true;
    }
    if last != 0 {
        return true;
    }
    false
}

// The fault of the record r after the record before.
#[tactic(auto, using(crate::proofs::Checking::record_laws))]
fn check_record(n: u32, before: &[u32], r: &[u32; 5]) -> Result<(), InputRefusal>
    ensures { checked_number result ≡ record_fault n before.now (record_at r.now 0) }
{
    if is_bad(n, r[0], r[1], r[2], r[3], r[4]) {
        return Err(InputRefusal::Record);
    }
    if before < r.as_slice() {
        return Ok(());
    }
    Err(InputRefusal::RecordOrder)
}

// Whether a record of these words breaks a rule by itself. What most records are, ranges, is asked first.
fn breaks_rule(n: u32, from: u32, kind: u32, first: u32, last: u32, to: u32) -> bool
    ensures { result ≡ is_bad n (record { from = from; kind = kind; first = first; last = last; to = to }) }
{
    if kind == 1 {
        return is_bad(n, from, 1, first, last, to);
    }
    is_bad(n, from, kind, first, last, to)
}

// A number that orders records by the state that they leave and by their first symbol.
fn order_key(from: u32, first: u32) -> u64
    ensures { result ≡ from * 4294967296 + first }
{
    from as u64 * 4294967296 + first as u64
}

// Whether the record a comes before the record b, word by word.
fn is_less(a: &[u32; 5], b: &[u32; 5]) -> bool
    ensures { result ≡ less a.now b.now }
{
    for i in 0..5 {
        if a[i] != b[i] {
            return a[i] < b[i];
        }
    }
    false
}

// Whether the record b has no fault behind the record a, which breaks no rule and has the key `before`. A lesser key decides the order.
#[tactic(auto, using(crate::proofs::Passing::passes_laws))]
fn passes(n: u32, before: u64, a: &[u32; 5], b: &[u32; 5]) -> bool
    requires { Keyed n before a.now }
    ensures { result ≡ eqb (record_fault n a.now (record_at b.now 0)) 0 }
{
    if breaks_rule(n, b[0], b[1], b[2], b[3], b[4]) {
        return false;
    }
    if before < order_key(b[0], b[2]) {
        return true;
    }
    is_less(a, b)
}

// The key of the record r if it is a range that breaks no rule, except that it may leave no state of the sheet, and if its key is greater than `before`;
// or else 0.
#[tactic(auto, unfolding(crate::specs::inner::Passed::range_key))]
fn range_key(n: u32, before: u64, r: &[u32; 5]) -> u64
    ensures key { result ≡ range_key n before (record_at r.now 0) }
    ensures first { result ≢ 0 → get_or r.now 2 0 < 4294967296 }
{
    if r[1] != 1 {
        return 0;
    }
    if r[3] < r[2] {
        return 0;
    }
    if n <= r[4] {
        return 0;
    }
    let key = order_key(r[0], r[2]);
    if key <= before {
        return 0;
    }
    key
}

// The index of a record up to which all behind the one at `from` pass, if it leaves a state below n: states ascend with the keys of ranges, so that the state
// that the last record leaves tells of all before it.
fn pass_ascending(n: u32, records: &[[u32; 5]], from: usize) -> usize
    requires { (from < length records.now) × (is_bad n (record_at (get_or records.now from []) 0) ≡ false) }
    ensures { PassedBelow n records.now from result }
{
    let mut before = order_key(records[from][0], records[from][2]);
    let last = records.len() - 1;
    for at in from..last {
        let key = range_key(n, before, &records[at + 1]);
        if key == 0 {
            if n <= records[at][0] {
                return at;
            }
            if !passes(n, before, &records[at], &records[at + 1]) {
                return at;
            }
            before = order_key(records[at + 1][0], records[at + 1][2]);
        } else {
            before = key;
        }
    }
    last
}

// The index of the last record that passes, from the one at `from` on, which breaks no rule.
fn pass_each(n: u32, records: &[[u32; 5]], from: usize) -> usize
    requires { (from < length records.now) × (is_bad n (record_at (get_or records.now from []) 0) ≡ false) }
    ensures { Passed n records.now from result }
{
    let mut before = order_key(records[from][0], records[from][2]);
    let last = records.len() - 1;
    for at in from..last {
        if !passes(n, before, &records[at], &records[at + 1]) {
            return at;
        }
        before = order_key(records[at + 1][0], records[at + 1][2]);
    }
    last
}

// The index of the last record that passes, from the one at `from` on, which breaks no rule. Only where a record leaves no state of the sheet each is asked for
// its state.
fn pass_records(n: u32, records: &[[u32; 5]], from: usize) -> usize
    requires { (from < length records.now) × (is_bad n (record_at (get_or records.now from []) 0) ≡ false) }
    ensures { Passed n records.now from result }
{
    let far = pass_ascending(n, records, from);
    if records[far][0] < n {
        return pass_each(n, records, far);
    }
    pass_each(n, records, from)
}

// The first fault of the records.
#[tactic(auto, using(crate::proofs::Checking::records_laws))]
fn check_records(n: u32, t: &[u32]) -> Result<(), InputRefusal>
    ensures { checked_number result ≡ records_fault n [] (read_records t.now) }
{
    let (records, _) = t.as_chunks::<5>();
    let mut before = &t[0..0];
    let mut at: usize = 0;
    while at < records.len() {
        check_record(n, before, &records[at])?;
        let last = pass_records(n, records, at);
        before = &records[last];
        at = last + 1;
    }
    Ok(())
}

// The first fault from the transition count on.
#[tactic(auto, using(crate::proofs::Checking::sections))]
fn check_transitions(n: u32, t: &[u32]) -> Result<(), InputRefusal>
    ensures { checked_number result ≡ transitions_fault n t.now }
{
    if t.len() == 0 {
        return Err(InputRefusal::SheetLength);
    }
    let m = t[0];
    if 2048 < m {
        return Err(InputRefusal::Counts);
    }
    if t.len() - 1 != 5 * (m as usize) {
        return Err(InputRefusal::SheetLength);
    }
    check_records(n, &t[1..])
}

// The first fault from the state count on.
#[tactic(auto, using(crate::proofs::Checking::sections))]
fn check_states(start: u32, t: &[u32]) -> Result<(), InputRefusal>
    ensures { checked_number result ≡ states_fault start t.now }
{
    if t.len() == 0 {
        return Err(InputRefusal::SheetLength);
    }
    let n = t[0];
    if n == 0 {
        return Err(InputRefusal::Counts);
    }
    if 256 < n {
        return Err(InputRefusal::Counts);
    }
    let k = n as usize;
    if t.len() - 1 < k {
        return Err(InputRefusal::SheetLength);
    }
    if n <= start {
        return Err(InputRefusal::Start);
    }
    if are_accept_words(&t[1..k + 1]) {
        return check_transitions(n, &t[k + 1..]);
    }
    Err(InputRefusal::AcceptWord)
}

// The first fault of a sheet.
#[tactic(auto, using(crate::proofs::Checking::sections))]
pub fn check(s: &[u32]) -> Result<(), InputRefusal>
    ensures { checked_number result ≡ fault s.now }
{
    if s.len() < 2 {
        return Err(InputRefusal::SheetLength);
    }
    if s[0] != 1 {
        return Err(InputRefusal::Start);
    }
    check_states(s[1], &s[2..])
}
