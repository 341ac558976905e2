// The events of a sheet in order.
ghost use Rattle.std.specs.Prelude.{map, ◌≡◌, ◌+◌, ◌*◌, ◌≤◌, ◌<◌, eqb, length, get_or};
ghost use Rattle.stores.specs.Written.{Written};
ghost use Rattle.automata.specs.Records.{read_records, write_records};
ghost use Rattle.sheets.specs.Sheet.{records_at};
ghost use Rattle.sheets.specs.inner.Accepted.{record_count, Accepted};
ghost use Rattle.sweep.specs.inner.Events.{RangeAt, event_number, event_of, events, Timed};

use crate::EventKind;

// The place of the record of a number, where the records begin at base.
fn place_of(base: usize, number: u32) -> usize
    requires { base ≤ 4294967296 }
    ensures { result ≡ base + 5 * number }
{
    base + 5 * number as usize
}

// A record of a sheet but for its kind.
#[derive(Drop)]
pub struct Range {
    pub state: u32,
    pub first: u32,
    pub last: u32,
    pub to: u32,
}

// The record of a number.
pub fn range_of(s: &[u32], number: u32) -> Range
    requires { Accepted s.now × (number < record_count s.now) }
    ensures { RangeAt s.now number result.state result.first result.last result.to }
{
    let o = place_of(s[2] as usize + 4, number);
    let state = s[o];
    let first = s[o + 2];
    let last = s[o + 3];
    let to = s[o + 4];
    Range {
        state,
        first,
        last,
        to,
    }
}

// Whether the record of a number is a range.
fn is_range(s: &[u32], number: u32) -> bool
    requires { Accepted s.now × (number < record_count s.now) }
    ensures { result ≡ eqb (get_or s.now (records_at s.now + 5 * number + 1) 0) 1 }
{
    let o = place_of(s[2] as usize + 4, number);
    s[o + 1] == 1
}

// The opening or the ending of the record of a number, if it is a range, at a place; the place behind it.
fn put_event(kind: EventKind, s: &[u32], number: u32, out: &mut [u32], at: usize) -> usize
    requires { Accepted s.now × (number < record_count s.now) × (at + length (write_records (event_of (event_number kind) s.now number)) ≤ length out.old) }
    ensures { Written out.old at (write_records (event_of (event_number kind) s.now number)) out.new result }
{
    if !is_range(s, number) {
        return at;
    }
    let r = range_of(s, number);
    let symbol = match kind {
        EventKind::Opening => r.first,
        EventKind::Ending => r.last,
    };
    output::put_record(out, at, symbol, number, r.state, r.last, r.to)
}

// The openings or the endings of a sheet; the place behind them.
fn put_events(kind: EventKind, s: &[u32], out: &mut [u32]) -> usize
    requires { Accepted s.now × (length out.old ≡ 10240) }
    ensures { Written out.old 0 (write_records (events (event_number kind) s.now)) out.new result }
{
    let n = s[2] as usize;
    let count = s[n + 3];
    let mut end: usize = 0;
    for number in 0..count {
        end = put_event(kind, s, number, out, end);
    }
    end
}

// The numbers of events, at the front of out; how many they are.
fn put_numbers(records: &[u32], out: &mut [u32]) -> usize
    requires { length (read_records records.now) ≤ length out.old }
    ensures { Written out.old 0 (map (λ v. v.kind) (read_records records.now)) out.new result }
{
    let mut end: usize = 0;
    let (records, _) = records.as_chunks::<5>();
    for r in records {
        end = stores::put(out, end, r[1]);
    }
    end
}

// The numbers of the openings (kind 0) or of the endings (kind 1) of a sheet in order, at the front of ev; how many they are. The words of scratch are of no use
// afterwards.
#[tactic(auto, using(crate::proofs::Putting::opening_timed, crate::proofs::Putting::ending_timed))]
pub fn order_events(kind: u32, s: &[u32], ev: &mut [u32], scratch: &mut [u32]) -> usize
    requires { Accepted s.now × (length ev.old ≡ 2048) × (length scratch.old ≡ 10240) }
    ensures { Timed kind s.now ev.new result }
{
    let event = if kind == 0 {
        EventKind::Opening
    } else {
        EventKind::Ending
    };
    order_kind(event, s, ev, scratch)
}

// The same for the openings or for the endings, told by their kind.
fn order_kind(kind: EventKind, s: &[u32], ev: &mut [u32], scratch: &mut [u32]) -> usize
    requires { Accepted s.now × (length ev.old ≡ 2048) × (length scratch.old ≡ 10240) }
    ensures { Timed (event_number kind) s.now ev.new result }
{
    let mut records = [0u32; 10240];
    let end = put_events(kind, s, &mut records);
    let ordered = output::sort_records(&mut records, scratch, 0, end / 5);
    put_numbers(&records[0..ordered], ev)
}
