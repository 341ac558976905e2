// Warshall's closure: row p of a table has the states that p leads to in one step, and afterwards all that it leads to.
ghost use Rattle.std.specs.Prelude.{◌≡◌, ◌+◌, ◌*◌, ◌≤◌, ◌<◌, length};
ghost use Rattle.sets.specs.inner.Words.{visit_row, visit_rows};
ghost use Rattle.sets.specs.inner.BitSet.{set_at};
ghost use Rattle.sets.specs.inner.Rows.{RowsBelow, ClosedTo, leads_on};

// Row p takes in row k where it has k.
fn visit(t: &mut [u64], p: usize, k: usize)
    requires { (4 * p + 4 ≤ length t.old) × (4 * k + 4 ≤ length t.old) × (k < 256) }
    ensures { t.new ≡ visit_row t.old k p }
{
    if crate::has(t, p, k) {
        crate::union_row(t, p, k);
    }
}

// One round: every row takes in row k where it has k.
fn round(t: &mut [u64], n: usize, k: usize)
    requires { (4 * n ≤ length t.old) × (k < n) × (n ≤ 256) }
    ensures { t.new ≡ visit_rows t.old k n }
{
    for p in 0..n {
        visit(t, p, k);
    }
}

// Whether the row of state k has a member other than k: a round through k then adds something.
fn leads_on(t: &[u64], k: usize) -> bool
    requires { (4 * k + 4 ≤ length t.now) × (k < 256) }
    ensures { result ≡ leads_on k (set_at t.now (4 * k)) }
{
    let o = 4 * k;
    let row = &t[o..o + 4];
    if crate::next_member(row, 0) < k {
        return true;
    }
    crate::next_member(row, k + 1) < 256
}

// All rounds over the first n rows. A state whose row has no other member is passed over, so the cost is that of the states that lead
// on times n.
pub fn warshall(t: &mut [u64], n: usize)
    requires { (4 * n ≤ length t.old) × (n ≤ 256) × RowsBelow t.old n }
    ensures { ClosedTo t.old t.new n n }
{
    for k in 0..n {
        if leads_on(t, k) {
            round(t, n, k);
        }
    }
}
