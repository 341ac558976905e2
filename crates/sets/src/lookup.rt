// The look-up of a set in a table: it finds a set exactly when the table holds it, at its number. Beside the table stand 509 places that lead to its sets; a search
// starts at the place that the set's bits give and looks onward, to the set or to a free place. With up to 255 sets in the table half of the places are free, and a
// search compares few sets. Where many start at one place it may compare all of them.
ghost use Rattle.std.specs.Prelude.{◌≡◌, ◌+◌, ◌*◌, ◌≤◌, ◌<◌, length, replicate, set};
ghost use Rattle.lists.specs.Index.{index, same};
ghost use Rattle.sets.specs.inner.BitSet.{set_at, entries};
ghost use Rattle.sets.specs.inner.Words.{put_at};
ghost use Rattle.sets.specs.inner.Places.{place_after, Placed, SearchEnded};

// What a look-up found: the number of the set, or how many sets the table has; the place at which the search ended; how many sets it compared.
#[derive(Drop)]
pub struct Lookup {
    pub number: usize,
    pub place: usize,
    pub compared: u64,
}

// The place at which a search for the set s starts: the remainder by 509 of the number of 256 bits that its words are.
fn start_place(s: &[u64]) -> usize
    requires { 4 ≤ length s.now }
    ensures { result ≡ place_after (set_at s.now 0) 0 }
{
    let rest = s[0] % 509 + 302 * (s[1] % 509) + 93 * (s[2] % 509) + 91 * (s[3] % 509);
    (rest % 509) as usize
}

// Where the set s stands among the first n rows of t, or n.
pub fn find(t: &[u64], n: usize, places: &[u32], s: &[u64]) -> Lookup
    requires { Placed places.now (entries t.now n) × (n < 509) × (4 * n ≤ length t.now) × (4 ≤ length s.now) }
    ensures number { result.number ≡ index same (set_at s.now 0) (entries t.now n) }
    ensures ended { SearchEnded places.now (entries t.now n) (set_at s.now 0) result.place result.compared }
{
    let mut i = start_place(s);
    let mut held = places[i];
    let mut compared: u64 = 0;
    while held != 0 {
        let j = held as usize - 1;
        if crate::same(t, j, s) {
            return Lookup {
                number: j,
                place: i,
                compared: compared + 1,
            };
        }
        compared += 1;
        i = (i + 1) % 509;
        held = places[i];
    }
    Lookup {
        number: n,
        place: i,
        compared,
    }
}

// The places of a table of one row.
pub fn place_first(places: &mut [u32], t: &[u64])
    requires { (places.old ≡ replicate 509 0) × (4 ≤ length t.now) }
    ensures stored { places.new ≡ set places.old (place_after (set_at t.now 0) 0) 1 }
    ensures placed { Placed places.new (entries t.now 1) }
{
    places[start_place(t)] = 1;
}

// The set s, which a look-up did not find among the first n rows of t, becomes row n, and the free place at which the search ended leads to it.
pub fn add(t: &mut [u64], n: usize, places: &mut [u32], s: &[u64], found: Lookup)
    requires placed_2 { Placed places.old (entries t.old n) × (n < 256) × (4 * n + 4 ≤ length t.old) × (4 ≤ length s.now) }
    requires n_value { (n ≡ index same (set_at s.now 0) (entries t.old n)) × SearchEnded places.old (entries t.old n) (set_at s.now 0) found.place found.compared }
    ensures stored { (t.new ≡ put_at t.old (4 * n) s.now 0) × (places.new ≡ set places.old found.place (n + 1)) }
    ensures placed { Placed places.new (entries t.new (n + 1)) }
{
    crate::put_row(t, n, s);
    let place = found.place;
    places[place] = n as u32 + 1;
}
