//! Sums in which each number has its place.

ghost use Rattle.std.specs.Prelude.{◌≡◌, ◌*◌, ◌+◌, ◌%◌};

use std::fmt;

/// A sum in which each number has its place, at 64 bits.
#[derive(Clone, Copy, PartialEq, Eq, Debug, Default)]
pub struct Sum(pub u64);

impl Sum {
    /// Takes in one number more.
    pub fn take(&mut self, number: u64)
        ensures { self.new.0 ≡ (self.old.0 * 31 + number) % 18446744073709551616 }
    {
        self.0 = self.0.wrapping_mul(31).wrapping_add(number);
    }
}

impl fmt::Display for Sum {
    fn fmt<W: fmt::Write>(&self, f: &mut fmt::Formatter<W>) -> fmt::Result {
        write!(f, "{}", self.0)
    }
}
