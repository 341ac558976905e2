// Pairs that have no product: records on both sides and an epsilon on at least one of them.
ghost use Rattle.std.specs.Prelude.{◌≡◌, ◌≤◌, ◌<◌, length};
ghost use Rattle.automata.specs.Records.{read_records};
ghost use Rattle.sheets.specs.Sheet.{state_count, read};
ghost use Rattle.lists.specs.Lists.{any};
ghost use Rattle.product.specs.Product.{blocked, blocked_at};
ghost use Rattle.sheets.specs.inner.Runs.{IndexedSheet};
ghost use Rattle.product.specs.inner.Tables.{pair_of, table_of, PairsBelow, EpsilonFirst};

// Whether there are records in both runs and an epsilon in at least one of them, in which it is then the first.
#[tactic(auto, using(crate::proofs::Blocking::blocked_laws))]
fn is_blocked(first: &[u32], second: &[u32]) -> bool
    requires { EpsilonFirst (read_records first.now) × EpsilonFirst (read_records second.now) }
    ensures { result ≡ blocked (read_records first.now) (read_records second.now) }
{
    if first.len() < 5 {
        return false;
    }
    if second.len() < 5 {
        return false;
    }
    if first[1] == 0 {
        return true;
    }
    if second[1] == 0 {
        return true;
    }
    false
}

// Whether the pair of the word c has records on both sides and an epsilon on at least one of them.
fn is_pair_blocked(a: &[u32], aruns: &[u32], b: &[u32], bruns: &[u32], c: u32) -> bool
    requires { IndexedSheet a.now aruns.now × IndexedSheet b.now bruns.now × ((pair_of c).left < state_count a.now) × ((pair_of c).right < state_count b.now) }
    ensures { result ≡ blocked_at (read a.now) (read b.now) (pair_of c) }
{
    is_blocked(
        sheets::run(a, aruns, c / 256),
        sheets::run(b, bruns, c % 256),
    )
}

// Whether some pair has records on both sides and an epsilon on at least one of them.
pub fn has_blocked_pair(
    a: &[u32],
    aruns: &[u32],
    b: &[u32],
    bruns: &[u32],
    queue: &[u32],
    n: usize,
) -> bool
    requires { IndexedSheet a.now aruns.now × IndexedSheet b.now bruns.now × (n ≤ length queue.now) × PairsBelow (state_count a.now) (state_count b.now) (table_of queue.now n) }
    ensures { result ≡ any (blocked_at (read a.now) (read b.now)) (table_of queue.now n) }
{
    queue[..n]
        .iter()
        .any(|c| is_pair_blocked(a, aruns, b, bruns, *c))
}
