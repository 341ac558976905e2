// A queue of pairs of states of two automata, and the join sets of the states of both. The states of the second automaton are counted
// behind the n1 states of the first. Each pair in the queue made two classes of states one, so that there are fewer pairs than states.
#![tactic(auto)]

ghost use Rattle.pairs.specs.inner.Pairs.{pairs_of, PairFits, PairJoined};

// The states p and q are joined; where they were not joined before, the pair is put behind the others. How many pairs there are then.
// Pair i is made of queue[2 * i] and queue[2 * i + 1]; repr and size are the join sets of the n states of both automata.
pub fn join_pair(
    repr: &mut [u32; 512],
    size: &mut [u32; 512],
    queue: &mut [u32; 1024],
    n: usize,
    made: usize,
    n1: usize,
    p: u32,
    q: u32,
) -> usize
    requires { PairFits n1 p q (pairs_of repr.old size.old queue.old n made) }
    ensures { PairJoined n1 p q (pairs_of repr.old size.old queue.old n made) (pairs_of repr.new size.new queue.new n result) }
{
    if dsu::join_in(repr, size, n, p as usize, n1 + q as usize) {
        queue[2 * made] = p;
        queue[2 * made + 1] = q;
        return made + 1;
    }
    made
}
