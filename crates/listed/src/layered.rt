//! Layers over sources, as cases build them.

ghost use Rattle.std.specs.Prelude.{◌≡◌};

use labels::NameSet;
use layers::parallel::Parallel;
use layers::restrict::Restrict;

/// A source without these names.
pub fn hidden<S>(names: NameSet, inner: S) -> Restrict<S>
    ensures names { result.names ≡ names }
    ensures inner { result.inner ≡ inner }
{
    Restrict { names, inner }
}

/// Two sources side by side.
pub fn beside<L, R>(left: L, right: R) -> Parallel<L, R>
    ensures left { result.left ≡ left }
    ensures right { result.right ≡ right }
{
    Parallel { left, right }
}
