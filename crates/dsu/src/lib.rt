// Join sets, by value and on lent arrays: each element's parent, the size of its class, and the number of elements.
#![tactic(auto)]

ghost use Rattle.std.specs.Prelude.{◌≡◌, List, ℕ, ◌<◌};
ghost use Rattle.dsu.specs.Sets.{way, After, join, union_in, new_of, find_of, union_of};
ghost use Rattle.dsu.specs.inner.Lent.{sets_of, JoinLaw};
ghost use Rattle.dsu.specs.inner.Steps.{SizedElement, Roots, Climbed, answered, climbed};
ghost use Rattle.dsu.specs.Laws.{Valid};

use refusal::StateRefusal;

#[derive(Clone, Copy)]
pub struct DSU {
    pub repr: [u32; 512],
    pub size: [u32; 512],
    pub n: usize,
}

// What `find` answers, and the sets afterwards.
#[derive(Drop)]
pub struct FindAnswer {
    pub found: Result<u32, StateRefusal>,
    pub sets: DSU,
}

// What `new` and `union` answer, and the sets afterwards.
#[derive(Drop)]
pub struct SetsAnswer {
    pub outcome: Result<(), StateRefusal>,
    pub sets: DSU,
}

// The representative of x, an element with a size as it should be; each element passed points at it afterwards. A broken
// value makes this 512 calls deep, so the arrays are lent and none is copied.
#[tactic(auto, using(crate::proofs::Finding::finding))]
fn find_in(
    repr: &mut [u32; 512],
    size: &[u32; 512],
    n: usize,
    x: usize,
) -> Result<u32, StateRefusal>
    requires { SizedElement size.now n x }
    ensures { ◌≡◌ {A = Climbed} (result, repr.new) (climbed repr.old (way repr.old size.now n x)) }
{
    let parent = repr[x];
    let p = parent as usize;
    if p == x {
        return Ok(parent);
    }
    if n <= p {
        return Err(StateRefusal::JoinSets);
    }
    let own = size[x];
    let above = size[p];
    if above <= own {
        return Err(StateRefusal::JoinSets);
    }
    if n < above as usize {
        return Err(StateRefusal::JoinSets);
    }
    let root = find_in(repr, size, n, p)?;
    repr[x] = root;
    Ok(root)
}

// The same of any x: 23 is sought first, then 24.
#[tactic(auto, using(crate::proofs::Finding::from))]
fn find_from(
    repr: &mut [u32; 512],
    size: &[u32; 512],
    n: usize,
    x: usize,
) -> Result<u32, StateRefusal>
    ensures { ◌≡◌ {A = Climbed} (result, repr.new) (answered repr.old size.now n x) }
{
    if n <= x {
        return Err(StateRefusal::Element);
    }
    if 512 < n {
        return Err(StateRefusal::JoinSets);
    }
    let own = size[x] as usize;
    if own == 0 {
        return Err(StateRefusal::JoinSets);
    }
    if n < own {
        return Err(StateRefusal::JoinSets);
    }
    find_in(repr, size, n, x)
}

// Two roots joined by size, and whether they were two; on equal sizes the second joins the first.
#[tactic(auto, using(crate::proofs::Joining::joining))]
fn join_roots(
    repr: &mut [u32; 512],
    size: &mut [u32; 512],
    n: usize,
    a: u32,
    b: u32,
) -> Result<bool, StateRefusal>
    requires { Roots size.old n a b }
    ensures { ◌≡◌ {A = After} (result, repr.new, size.new) (join repr.old size.old n a b) }
{
    if a == b {
        return Ok(false);
    }
    let i = a as usize;
    let j = b as usize;
    let first = size[i];
    let second = size[j];
    let both = first + second;
    if n < both as usize {
        return Err(StateRefusal::JoinSets);
    }
    if first < second {
        repr[i] = b;
        size[j] = both;
        return Ok(true);
    }
    repr[j] = a;
    size[i] = both;
    Ok(true)
}

// The classes of x and y made one, on lent arrays of any value: 23 is sought for both, then 24 on the way of x, on that of y, and
// in the join. After a refusal the sizes are as they were, and the parents those that the finds left.
#[tactic(auto, using(crate::proofs::Joining::uniting))]
fn union_in(
    repr: &mut [u32; 512],
    size: &mut [u32; 512],
    n: usize,
    x: usize,
    y: usize,
) -> Result<bool, StateRefusal>
    ensures { ◌≡◌ {A = After} (result, repr.new, size.new) (union_in repr.old size.old n x y) }
{
    if n <= x {
        return Err(StateRefusal::Element);
    }
    if n <= y {
        return Err(StateRefusal::Element);
    }
    let a = find_from(repr, size, n, x)?;
    let b = find_from(repr, size, n, y)?;
    join_roots(repr, size, n, a, b)
}

// The classes of x and y made one, where they are two, on lent arrays of valid sets; whether they were two. Two elements that are
// in one class already cost two finds.
#[tactic(auto, using(crate::proofs::Lent::join_done))]
pub fn join_in(repr: &mut [u32; 512], size: &mut [u32; 512], n: usize, x: usize, y: usize) -> bool
    requires { Valid (sets_of repr.old size.old n) × (x < n) × (y < n) }
    ensures { JoinLaw (sets_of repr.old size.old n) (sets_of repr.new size.new n) x y result }
{
    union_in(repr, size, n, x, y).unwrap()
}

impl DSU {
    // n elements, each alone in its class. Where n is over 512 the sets that come back have no elements.
    #[tactic(auto, using(crate::proofs::Fresh::filling))]
    pub fn new(n: usize) -> SetsAnswer
        ensures { result ≡ new_of n }
    {
        let mut repr = [0u32; 512];
        let size = [1u32; 512];
        for i in 0..512 {
            repr[i as usize] = i;
        }
        if 512 < n {
            return SetsAnswer {
                outcome: Err(StateRefusal::Element),
                sets: DSU { repr, size, n: 0 },
            };
        }
        SetsAnswer {
            outcome: Ok(()),
            sets: DSU { repr, size, n },
        }
    }

    // The representative of x; each element passed points at it afterwards.
    pub fn find(self, x: usize) -> FindAnswer
        ensures { result ≡ find_of self x }
    {
        let mut repr = self.repr;
        let size = self.size;
        let n = self.n;
        let found = find_from(&mut repr, &size, n, x);
        FindAnswer {
            found,
            sets: DSU { repr, size, n },
        }
    }

    // The classes of x and y made one. After a refusal the sets are as they were.
    pub fn union(self, x: usize, y: usize) -> SetsAnswer
        ensures { result ≡ union_of self x y }
    {
        let mut repr = self.repr;
        let mut size = self.size;
        let n = self.n;
        match union_in(&mut repr, &mut size, n, x, y) {
            Ok(_) => SetsAnswer {
                outcome: Ok(()),
                sets: DSU { repr, size, n },
            },
            Err(r) => SetsAnswer {
                outcome: Err(r),
                sets: self,
            },
        }
    }
}
