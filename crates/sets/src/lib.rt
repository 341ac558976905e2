// Sets of states: rows of four 64-bit words in a flat table, state q being bit q % 64 of word q / 64.
// A set alone is a table of one row.
#![tactic(auto)]

ghost use Rattle.std.specs.Prelude.{◌≡◌, ◌+◌, ◌*◌, ◌≤◌, ◌<◌, length};
ghost use Rattle.std.specs.Int.Count.{count_trailing_zeros};
ghost use Rattle.lists.specs.Index.{same};
ghost use Rattle.sets.specs.Sets.{has, is_empty};
ghost use Rattle.sets.specs.inner.Members.{next_member};
ghost use Rattle.sets.specs.inner.BitSet.{set_at};
ghost use Rattle.sets.specs.inner.Words.{put_words, insert_at, union_at, put_at, clear_at};

mod closure;
mod lookup;

pub use closure::warshall;
pub use lookup::{Lookup, add, find, place_first};

// Whether row p has q.
pub fn has(t: &[u64], p: usize, q: usize) -> bool
    requires { (4 * p + 4 ≤ length t.now) × (q < 256) }
    ensures { result ≡ has q (set_at t.now (4 * p)) }
{
    let w = t[4 * p + q / 64];
    (w >> (q % 64)) % 2 == 1
}

// Row p gets the member q.
pub fn insert(t: &mut [u64], p: usize, q: usize)
    requires { (4 * p + 4 ≤ length t.old) × (q < 256) }
    ensures { t.new ≡ insert_at t.old (4 * p) q }
{
    let o = 4 * p + q / 64;
    t[o] = t[o] | (1u64 << (q % 64));
}

// The words from o on become a, b, c and d.
fn put_words(t: &mut [u64], o: usize, a: u64, b: u64, c: u64, d: u64)
    requires { o + 4 ≤ length t.old }
    ensures { t.new ≡ put_words t.old o a b c d }
{
    t[o] = a;
    t[o + 1] = b;
    t[o + 2] = c;
    t[o + 3] = d;
}

// Row p takes in row k.
pub fn union_row(t: &mut [u64], p: usize, k: usize)
    requires { (4 * p + 4 ≤ length t.old) × (4 * k + 4 ≤ length t.old) }
    ensures { t.new ≡ union_at t.old (4 * p) t.old (4 * k) }
{
    let o = 4 * p;
    let u = 4 * k;
    let a = t[o] | t[u];
    let b = t[o + 1] | t[u + 1];
    let c = t[o + 2] | t[u + 2];
    let d = t[o + 3] | t[u + 3];
    put_words(t, o, a, b, c, d);
}

// The set s takes in row k of t.
pub fn union_from(s: &mut [u64], t: &[u64], k: usize)
    requires { (4 ≤ length s.old) × (4 * k + 4 ≤ length t.now) }
    ensures { s.new ≡ union_at s.old 0 t.now (4 * k) }
{
    let u = 4 * k;
    let a = s[0] | t[u];
    let b = s[1] | t[u + 1];
    let c = s[2] | t[u + 2];
    let d = s[3] | t[u + 3];
    put_words(s, 0, a, b, c, d);
}

// The set s becomes empty.
pub fn clear(s: &mut [u64])
    requires { 4 ≤ length s.old }
    ensures { s.new ≡ clear_at s.old 0 }
{
    put_words(s, 0, 0, 0, 0, 0);
}

// Row j of t becomes the set s.
pub fn put_row(t: &mut [u64], j: usize, s: &[u64])
    requires { (4 * j + 4 ≤ length t.old) × (4 ≤ length s.now) }
    ensures { t.new ≡ put_at t.old (4 * j) s.now 0 }
{
    put_words(t, 4 * j, s[0], s[1], s[2], s[3]);
}

// The set s becomes row j of t.
pub fn copy_row(s: &mut [u64], t: &[u64], j: usize)
    requires { (4 ≤ length s.old) × (4 * j + 4 ≤ length t.now) }
    ensures { s.new ≡ put_at s.old 0 t.now (4 * j) }
{
    let u = 4 * j;
    put_words(s, 0, t[u], t[u + 1], t[u + 2], t[u + 3]);
}

// Whether the set s is empty.
pub fn is_empty(s: &[u64]) -> bool
    requires { 4 ≤ length s.now }
    ensures { result ≡ is_empty (set_at s.now 0) }
{
    (s[0] | s[1] | s[2] | s[3]) == 0
}

// Whether row j of t is the set s.
pub fn same(t: &[u64], j: usize, s: &[u64]) -> bool
    requires { (4 * j + 4 ≤ length t.now) × (4 ≤ length s.now) }
    ensures { result ≡ same (set_at s.now 0) (set_at t.now (4 * j)) }
{
    let o = 4 * j;
    if t[o] != s[0] {
        return false;
    }
    if t[o + 1] != s[1] {
        return false;
    }
    if t[o + 2] != s[2] {
        return false;
    }
    t[o + 3] == s[3]
}

// The place of the lowest one of a word that is not 0.
fn lowest(w: u64) -> usize
    ensures { (result ≡ count_trailing_zeros 64 w) × (result ≤ 64) }
{
    u64::trailing_zeros(w) as usize
}

// The least member in the words of the set s from word i on, or 256.
fn first_in(s: &[u64], i: usize) -> usize
    requires { (4 ≤ length s.now) × (i ≤ 4) }
    ensures { result ≡ next_member (set_at s.now 0) (64 * i) }
{
    for j in i..4 {
        let w = s[j];
        if w != 0 {
            return 64 * j + lowest(w);
        }
    }
    256
}

// The least member of the set s from q on, or 256.
pub fn next_member(s: &[u64], q: usize) -> usize
    requires { 4 ≤ length s.now }
    ensures { result ≡ next_member (set_at s.now 0) q }
{
    if 256 <= q {
        return 256;
    }
    let w = s[q / 64] >> (q % 64);
    if w != 0 {
        return q + lowest(w);
    }
    first_in(s, q / 64 + 1)
}
