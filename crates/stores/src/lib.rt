// Stores: elements into lent memory. Each function answers the place behind what it wrote.
#![tactic(auto)]

ghost use Rattle.std.specs.Prelude.{[], ◌∷◌, ◌+◌, ◌≤◌, ◌<◌, length};
ghost use Rattle.stores.specs.Written.{Written};

// The element x at a place.
pub fn put<T: Copy>(out: &mut [T], at: usize, x: T) -> usize
    requires { at < length out.old }
    ensures { Written out.old at (x ∷ []) out.new result }
{
    out[at] = x;
    at + 1
}

// The elements xs from a place on.
pub fn put_all<T: Copy>(out: &mut [T], at: usize, xs: &[T]) -> usize
    requires { at + length xs.now ≤ length out.old }
    ensures { Written out.old at xs.now out.new result }
{
    let mut end = at;
    for x in xs {
        out[end] = *x;
        end += 1;
    }
    end
}
