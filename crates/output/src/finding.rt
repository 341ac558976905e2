// Whether a record is one of those in order, found by halving them. No branch depends on the words until one record is left, since which way the
// search goes can't be foreseen.
ghost use Rattle.std.specs.Prelude.{cond, [], ◌∷◌, ◌≡◌, ◌+◌, ◌≤◌, ◌<◌, length};
ghost use Rattle.automata.specs.Ordered.{less};
ghost use Rattle.automata.specs.Records.{words_of};
ghost use Rattle.automata.specs.inner.Records.{record_at};
ghost use Rattle.output.specs.inner.Finding.{same_record, Placed, Tells};
ghost use Rattle.output.specs.inner.Ordered.{Listed, records_in};

// Whether the record comes before the one at i.
fn is_ahead(buf: &[u32], i: usize, from: u32, kind: u32, first: u32, last: u32, to: u32) -> bool
    requires { i + 5 ≤ length buf.now }
    ensures { result ≡ less (from ∷ kind ∷ first ∷ last ∷ to ∷ []) (words_of (record_at buf.now i)) }
{
    crate::sorting::is_before(
        from,
        kind,
        first,
        last,
        to,
        buf[i],
        buf[i + 1],
        buf[i + 2],
        buf[i + 3],
        buf[i + 4],
    )
}

// Whether the record is the one at i.
fn is_same(buf: &[u32], i: usize, from: u32, kind: u32, first: u32, last: u32, to: u32) -> bool
    requires { i + 5 ≤ length buf.now }
    ensures { result ≡ same_record (record_at buf.now i) (record { from = from; kind = kind; first = first; last = last; to = to }) }
{
    (buf[i] == from)
        & (buf[i + 1] == kind)
        & (buf[i + 2] == first)
        & (buf[i + 3] == last)
        & (buf[i + 4] == to)
}

// The place at where the record comes before the one at i, or else i.
fn pick_place(
    buf: &[u32],
    at: usize,
    i: usize,
    from: u32,
    kind: u32,
    first: u32,
    last: u32,
    to: u32,
) -> usize
    requires { i + 5 ≤ length buf.now }
    ensures { result ≡ cond (less (from ∷ kind ∷ first ∷ last ∷ to ∷ []) (words_of (record_at buf.now i))) at i }
{
    if is_ahead(buf, i, from, kind, first, last, to) {
        at
    } else {
        i
    }
}

// The place of the only one of the records before end that can be the record.
fn find_place(
    buf: &[u32],
    end: usize,
    from: u32,
    kind: u32,
    first: u32,
    last: u32,
    to: u32,
) -> usize
    requires { Listed buf.now 0 end (records_in buf.now 0 end) × (0 < end) }
    ensures { Placed buf.now end (record { from = from; kind = kind; first = first; last = last; to = to }) result }
{
    let mut at: usize = 0;
    let mut count = end / 5;
    while 1 < count {
        let half = count / 2;
        at = pick_place(buf, at, at + 5 * half, from, kind, first, last, to);
        count -= half;
    }
    at
}

// Whether the record is one of those before end, which are in order.
pub fn is_known(
    buf: &[u32],
    end: usize,
    from: u32,
    kind: u32,
    first: u32,
    last: u32,
    to: u32,
) -> bool
    requires { Listed buf.now 0 end (records_in buf.now 0 end) }
    ensures { Tells result (record { from = from; kind = kind; first = first; last = last; to = to }) (records_in buf.now 0 end) }
{
    if end == 0 {
        return false;
    }
    let at = find_place(buf, end, from, kind, first, last, to);
    is_same(buf, at, from, kind, first, last, to)
}
