// The number of a pair: a table has a byte for each word of a pair, and the queue confirms what the byte says.
ghost use Rattle.std.specs.Prelude.{◌≡◌, ◌≤◌, ◌<◌, length};
ghost use Rattle.product.specs.inner.Tables.{pair_of, table_of, number_in, Queued};

// The number of the pair of the word c, if it is among the first n of the queue.
#[tactic(auto, using(crate::proofs::Numbering::find_laws))]
pub fn find_pair(queue: &[u32], t: &[u8], n: usize, c: u32) -> Option<usize>
    requires { Queued queue.now t.now n × (n ≤ 256) × (c < length t.now) }
    ensures { result ≡ number_in (table_of queue.now n) (pair_of c) }
{
    let j = t[c as usize] as usize;
    if j < n && queue[j] == c {
        Some(j)
    } else {
        None
    }
}
