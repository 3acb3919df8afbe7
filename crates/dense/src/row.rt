ghost use Rattle.std.specs.Prelude.{◌≡◌, ℕ, ◌<◌, ◌≤◌, Bool, false, not, ◌&&◌, ◌||◌, ◌==◌, nat_lt};
ghost use Rattle.lts.specs.Labels.{member};
ghost use Rattle.lts.specs.Machines.{some_below};
ghost use Rattle.dense.specs.Rows.{in_row};

/// How many states half a row has.
const HALF: usize = 128;

/// A set of the states below 256, a bit for each.
// Two fields and no array: a state tells its half by one test, and an index into two words would need a bound besides.
// Sets of labels fit one word: one type for both would be a trait of words with laws of its own, longer than the two.
#[derive(Clone, Copy, PartialEq, Eq, Debug)]
pub struct Row {
    low: u128,
    high: u128,
}

/// The lowest n bits, or all.
fn ones(n: usize) -> u128
    ensures { (k : ℕ) → k < 128 → member result k ≡ nat_lt k n }
{
    if n < HALF { (1 << n) - 1 } else { u128::MAX }
}

impl Row {
    /// The set without states.
    pub fn empty() -> Row
        ensures { (q : ℕ) → in_row result q ≡ false }
    {
        Row { low: 0, high: 0 }
    }

    /// The states below `n` that pass a test; none from 256 on.
    pub fn of<F: Fn(usize) -> bool>(n: usize, f: F) -> Row
        requires { (q : ℕ) → q < n → q < 256 → F.pre f q }
        ensures tested { (q : ℕ) → q < n → q < 256 → F.post f q (in_row result q) }
        ensures others { (q : ℕ) → n ≤ q → q < 256 → in_row result q ≡ false }
        ensures by_test { (test : ℕ → Bool) → ((q : ℕ) (b : Bool) → q < n → q < 256 → F.post f q b → b ≡ test q) → (q : ℕ) → q < 256 → in_row result q ≡ (nat_lt q n && test q) }
    {
        let mut found = Row::empty();
        for state in 0..n.min(2 * HALF) {
            if f(state) {
                found = found.with(state);
            }
        }
        found
    }

    /// No state from 256 on is a member.
    pub fn has(self, state: usize) -> bool
        ensures { result ≡ in_row self state }
    {
        if state < HALF {
            (self.low >> state) % 2 == 1
        } else {
            state < 2 * HALF && (self.high >> (state - HALF)) % 2 == 1
        }
    }

    /// The set with one state more; a state from 256 on adds nothing.
    pub fn with(self, state: usize) -> Row
        ensures { (q : ℕ) → q < 256 → in_row result q ≡ (in_row self q || state == q) }
    {
        if state < HALF {
            Row {
                low: self.low | (1 << state),
                ..self
            }
        } else if state < 2 * HALF {
            Row {
                high: self.high | (1 << (state - HALF)),
                ..self
            }
        } else {
            self
        }
    }

    /// The states that are in both sets.
    pub fn both(self, other: Row) -> Row
        ensures { (q : ℕ) → in_row result q ≡ (in_row self q && in_row other q) }
    {
        Row {
            low: self.low & other.low,
            high: self.high & other.high,
        }
    }

    /// The states that are not in the other set.
    pub fn without(self, other: Row) -> Row
        ensures { (q : ℕ) → q < 256 → in_row result q ≡ (in_row self q && not (in_row other q)) }
    {
        Row {
            low: self.low & !other.low,
            high: self.high & !other.high,
        }
    }

    /// Whether no state is a member.
    pub fn is_empty(self) -> bool
        ensures { result ≡ not (some_below 256 (in_row self)) }
    {
        self.low == 0 && self.high == 0
    }

    /// Whether some state is in both sets.
    pub fn meets(self, other: Row) -> bool
        ensures { result ≡ some_below 256 (λ q. in_row self q && in_row other q) }
    {
        !self.both(other).is_empty()
    }

    /// The states below a number.
    pub fn below(n: usize) -> Row
        ensures { (q : ℕ) → q < 256 → in_row result q ≡ nat_lt q n }
    {
        Row {
            low: ones(n),
            high: ones(n.saturating_sub(HALF)),
        }
    }
}
