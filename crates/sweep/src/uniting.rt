// The tree of unions.
ghost use Rattle.std.specs.Prelude.{◌≡◌, ◌≤◌, ◌<◌, length};
ghost use Rattle.sets.specs.inner.BitSet.{set_at};
ghost use Rattle.sweep.specs.inner.Tree.{Tree, Almost, NodeUpdated, Climbed, LeafSet};

// Row k becomes the union of the two rows below it.
fn join(tree: &mut [u64], k: usize)
    requires { (1 ≤ k) × (k < 256) × (length tree.old ≡ 2048) }
    ensures { NodeUpdated tree.old tree.new k }
{
    let mut union = [0u64; 4];
    sets::copy_row(&mut union, tree, 2 * k);
    sets::union_from(&mut union, tree, 2 * k + 1);
    sets::put_row(tree, k, &union);
}

// Makes the rows above row i anew, up to the root.
fn climb(tree: &mut [u64], i: usize)
    requires { Almost tree.old i × (1 ≤ i) × (i < 512) }
    ensures { Climbed tree.old tree.new }
{
    let mut k = i;
    while 1 < k {
        k = k / 2;
        join(tree, k);
    }
}

// The leaf of state q becomes the set s.
pub fn set_leaf(tree: &mut [u64], q: usize, s: &[u64])
    requires { Tree tree.old × (q < 256) × (4 ≤ length s.now) }
    ensures { LeafSet tree.old tree.new q (set_at s.now 0) }
{
    let i = 256 + q;
    sets::put_row(tree, i, s);
    climb(tree, i);
}
