// Writes lists of labels into lent memory.
ghost use Rattle.std.specs.Prelude.{◌≡◌, ◌+◌, ◌-◌, ◌≤◌, ◌<◌, [], ◌∷◌, ◌++◌, length, set};
ghost use Rattle.decimal.specs.Decimal.{digits};
ghost use Rattle.stores.specs.Written.{Written};
ghost use Rattle.labels.specs.Labels.{labels_fault, label_count, read_labels, write_labels, entry, count_bytes};
ghost use Rattle.labels.specs.inner.Places.{LabelList};
ghost use Rattle.labels.specs.Forms.{numbered_label, pair_label, sink_label, numbered_labels};

// Writes the count of a label list at its front. Like the functions below it answers the place behind what it wrote.
pub fn put_count(out: &mut [u8], n: usize) -> usize
    requires in_bounds { 2 ≤ length out.old }
    requires n_bound { n < 65536 }
    ensures { Written out.old 0 (count_bytes n) out.new result }
{
    let high = stores::put(out, 0, (n % 256) as u8);
    stores::put(out, high, (n / 256) as u8)
}

// Writes a given label after its length.
pub fn put_copy(out: &mut [u8], at: usize, label: &[u8]) -> usize
    requires label_len_bound { length label.now < 256 }
    requires label_in_bounds { at + 1 + length label.now ≤ length out.old }
    ensures { Written out.old at (entry label.now) out.new result }
{
    let first = stores::put(out, at, label.len() as u8);
    stores::put_all(out, first, label)
}

// Writes the label `sink` after its length.
pub fn put_sink(out: &mut [u8], at: usize) -> usize
    requires { at + 5 ≤ length out.old }
    ensures { Written out.old at (entry sink_label) out.new result }
{
    put_copy(out, at, b"sink")
}

// Writes the byte lead and the decimal digits of x.
fn put_number(out: &mut [u8], at: usize, lead: u8, x: u32) -> usize
    requires { at + 11 ≤ length out.old }
    ensures written { Written out.old at (lead ∷ digits x) out.new result }
    ensures upper_bound { result ≤ at + 11 }
{
    let first = stores::put(out, at, lead);
    decimal::put_decimal(out, first, x)
}

// Writes at at the length of the label that stands behind it up to end.
fn put_length(out: &mut [u8], at: usize, end: usize) -> usize
    requires at_lt_end { (at < end) × (end ≤ at + 256) }
    requires at_in_bounds { at < length out.old }
    ensures { (result ≡ end) × (out.new ≡ set out.old at (end - (at + 1))) }
{
    out[at] = (end - (at + 1)) as u8;
    end
}

// Writes the label D and k after its length.
pub fn put_numbered(out: &mut [u8], at: usize, k: u32) -> usize
    requires { at + 12 ≤ length out.old }
    ensures { Written out.old at (entry (numbered_label k)) out.new result }
{
    let end = put_number(out, at + 1, b'D', k);
    put_length(out, at, end)
}

// Writes the label (p, q) after its length.
pub fn put_pair(out: &mut [u8], at: usize, p: u32, q: u32) -> usize
    requires { at + 25 ≤ length out.old }
    ensures { Written out.old at (entry (pair_label p q)) out.new result }
{
    let first = put_number(out, at + 1, b'(', p);
    let comma = stores::put(out, first, b',');
    let second = put_number(out, comma, b' ', q);
    let end = stores::put(out, second, b')');
    put_length(out, at, end)
}

// Writes the list of the n labels D0, D1 and so on.
pub fn write_numbered(out: &mut [u8], n: usize) -> usize
    requires in_bounds { 16642 ≤ length out.old }
    requires n_bound { n ≤ 256 }
    ensures { Written out.old 0 (write_labels (numbered_labels n)) out.new result }
{
    let mut at = put_count(out, n);
    for k in 0..n {
        at = put_numbered(out, at, k as u32);
    }
    at
}

// Writes the labels of an accepted list of n, and then the label `sink`.
pub fn copy_with_sink(out: &mut [u8], b: &[u8], n: usize) -> usize
    requires in_bounds { 16642 ≤ length out.old }
    requires b_value { labels_fault n b.now ≡ 0 }
    requires n_bound { n < 256 }
    ensures { Written out.old 0 (write_labels (read_labels b.now ++ sink_label ∷ [])) out.new result }
{
    let first = put_count(out, n + 1);
    let behind = stores::put_all(out, first, &b[2..]);
    put_sink(out, behind)
}

// Writes an accepted list again.
pub fn copy_all(out: &mut [u8], b: &[u8]) -> usize
    requires in_bounds { 16642 ≤ length out.old }
    requires label_list { LabelList b.now }
    requires b_bound { label_count b.now ≤ 256 }
    ensures { Written out.old 0 (write_labels (read_labels b.now)) out.new result }
{
    stores::put_all(out, 0, b)
}
