//! An element for each state of a machine.

ghost use Rattle.std.specs.Prelude.{ℕ, ◌<◌, ◌≤◌, slice_index_or};

/// What `f` gives for each state below `n`, with `rest` behind.
// Fixed memory: an element for each state that a machine can have. No ArrayVec, as only a state is ever an index: none asks how many there are.
pub(crate) fn by_state<T: Copy, F: Fn(usize) -> T>(n: usize, rest: T, f: F) -> [T; 255]
    requires few { n ≤ 255 }
    requires can { (p : ℕ) → p < n → F.pre f p }
    ensures { (p : ℕ) (d : T) → p < n → F.post f p (slice_index_or result p d) }
{
    let mut all = [rest; 255];
    for (p, element) in all[..n].iter_mut().enumerate() {
        *element = f(p);
    }
    all
}
