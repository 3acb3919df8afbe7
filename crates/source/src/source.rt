ghost use Rattle.std.specs.Prelude.{◌≡◌, ◌<◌, cond, ◌==◌, MatchOption};
ghost use Rattle.lts.specs.Machines.{Machine, Sound, told_size, stable};
ghost use Rattle.source.specs.Masks.{initials_mask};

use labels::LabelSet;

/// No machine that is not too large has more states.
pub const MOST_STATES: usize = 255;

/// What answers questions about one machine, or is too large to be one.
/// Every question may be asked of every state and every label.
pub trait Source {
    ghost means: { Self → Machine };

    ghost sound: { (x : Self) → Sound (means x) };

    /// The number of states, or 256 for too-large.
    // A question of a source answers a number, 256 for too-large: a rule of the project.
    fn size(&self) -> u16
        ensures { result ≡ told_size (means self.now) };

    /// The start, or 0 for too-large.
    // A number too, by the same rule, and 0 for too-large.
    fn start(&self) -> usize
        ensures { result ≡ (means self.now).start };

    /// Whether `p` moves to `q` on the label.
    fn has_move(&self, p: usize, label: u8, q: usize) -> bool
        ensures { result ≡ (means self.now).move p label q };

    /// The visible labels on the moves of `p`.
    fn initials(&self, p: usize) -> LabelSet
        ensures { result.0 ≡ initials_mask (means self.now) p };

    /// Whether `p` is a state without a silent move.
    fn is_stable(&self, p: usize) -> bool
        ensures { result ≡ stable (means self.now) p };

    /// The number of states of a machine that is not too large.
    final fn states(&self) -> Option<usize>
        ensures { MatchOption result ((means self.now).size ≡ 0) (λ n. (n ≡ (means self.now).size) × (0 < n)) }
    {
        match self.size() {
            256 => None,
            n => Some(usize::from(n)),
        }
    }
}

/// What a source tells of the number of its states: 256 where there are none, which is the word too-large.
pub fn told_size(count: u16) -> u16
    ensures { result ≡ cond (count == 0) 256 count }
{
    if count == 0 { 256 } else { count }
}

impl<S: Source> Source for &S {
    ghost means = { λ t. S.Source.means t.now };

    ghost sound = { λ t. S.Source.sound t.now };

    fn size(&self) -> u16 {
        (**self).size()
    }

    fn start(&self) -> usize {
        (**self).start()
    }

    fn has_move(&self, p: usize, label: u8, q: usize) -> bool {
        (**self).has_move(p, label, q)
    }

    fn initials(&self, p: usize) -> LabelSet {
        (**self).initials(p)
    }

    fn is_stable(&self, p: usize) -> bool {
        (**self).is_stable(p)
    }
}
