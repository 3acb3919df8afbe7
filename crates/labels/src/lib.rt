//! Sets of names and of labels, each a bit for each member.
#![tactic(auto)]

ghost use Rattle.std.specs.Prelude.{◌≡◌, ℕ, ◌+◌, ◌<◌, not, ◌&&◌, ◌||◌, MatchOption, ◌==◌, Some};
ghost use Rattle.std.specs.Iterator.{YieldsFirst, item_count};
ghost use Rattle.lts.specs.Labels.{member, complement, name_of};
ghost use Rattle.lts.specs.Machines.{some_below};
ghost use Rattle.labels.specs.Sets.{Lowest, Taken, members};
ghost use Rattle.labels.specs.Texts.{label_text, names_text};

use std::fmt;

/// The number of names: k receives on name k, and k + 32 sends on it.
pub const NAMES: u8 = 32;

/// The label of the silent move, above all visible labels.
pub const TAU: u8 = 64;

/// The other direction on the same name.
pub fn complement(label: u8) -> u8
    ensures { result ≡ complement label }
{
    (label % TAU + NAMES) % TAU
}

/// Whether bit k of a number of 64 bits is 1.
fn has_bit(bits: u64, k: u8) -> bool
    ensures { result ≡ member bits k }
{
    k < TAU && (bits >> k) % 2 == 1
}

/// A set of names: name k is a member where bit k is 1.
#[derive(Clone, Copy, PartialEq, Eq, Debug)]
pub struct NameSet(pub u32);

impl NameSet {
    /// Every name.
    pub const ALL: NameSet = NameSet(u32::MAX);

    /// No name.
    pub const NONE: NameSet = NameSet(0);

    /// No name from 32 on is a member.
    pub fn has(self, name: u8) -> bool
        ensures { result ≡ member self.0 name }
    {
        has_bit(u64::from(self.0), name)
    }

    /// The set with one name more; a name from 32 on adds nothing.
    pub fn with(self, name: u8) -> NameSet
        ensures { (k : ℕ) → k < 32 → member result.0 k ≡ (member self.0 k || name == k) }
    {
        if name >= NAMES {
            return self;
        }
        NameSet(self.0 | (1 << name))
    }
}

/// The names, lowest first, with `, ` between two.
impl fmt::Display for NameSet {
    ghost output = { λ names. Some (names_text names.0) };

    fn fmt<W: fmt::Write>(&self, f: &mut fmt::Formatter<W>) -> fmt::Result {
        let mut names = LabelSet(u64::from(self.0)).iter();
        if let Some(first) = names.next() {
            write!(f, "{first}")?;
            for name in names {
                write!(f, ", {name}")?;
            }
        }
        Ok(())
    }
}

/// A set of visible labels: label k is a member where bit k is 1.
#[derive(Clone, Copy, PartialEq, Eq, Debug)]
pub struct LabelSet(u64);

impl LabelSet {
    /// The set without labels.
    pub fn empty() -> LabelSet
        ensures { result.0 ≡ 0 }
    {
        LabelSet(0)
    }

    /// The visible labels that pass a test.
    pub fn of<F: Fn(u8) -> bool>(f: F) -> LabelSet
        requires { (k : ℕ) → k < 64 → F.pre f k }
        ensures { (k : ℕ) → k < 64 → F.post f k (member result.0 k) }
    {
        let mut found = LabelSet::empty();
        for label in 0..TAU {
            if f(label) {
                found = found.with(label);
            }
        }
        found
    }

    /// The set as a number: bit k is 1 where label k is a member.
    pub fn bits(self) -> u64
        ensures { result ≡ self.0 }
    {
        self.0
    }

    /// No label from 64 on is a member.
    pub fn has(self, label: u8) -> bool
        ensures { result ≡ member self.0 label }
    {
        has_bit(self.0, label)
    }

    /// The set with one label more; a label from 64 on adds nothing.
    pub fn with(self, label: u8) -> LabelSet
        ensures { (a : ℕ) → a < 64 → member result.0 a ≡ (member self.0 a || label == a) }
    {
        if label < TAU {
            LabelSet(self.0 | (1 << label))
        } else {
            self
        }
    }

    /// The labels that are in either set.
    pub fn union(self, other: LabelSet) -> LabelSet
        ensures { (a : ℕ) → member result.0 a ≡ (member self.0 a || member other.0 a) }
    {
        LabelSet(self.0 | other.0)
    }

    /// The labels whose name is not in the set of names.
    pub fn without(self, names: NameSet) -> LabelSet
        ensures { (a : ℕ) → a < 64 → member result.0 a ≡ (not (member names.0 (name_of a)) && member self.0 a) }
    {
        let received = names.0 as u64;
        LabelSet(self.0 & !(received | (received << 32)))
    }

    /// The labels whose complement is in the other set.
    pub fn meeting(self, other: LabelSet) -> LabelSet
        ensures { (a : ℕ) → a < 64 → member result.0 a ≡ (member self.0 a && member other.0 (complement a)) }
    {
        LabelSet(self.0 & other.0.rotate_left(32))
    }

    /// The names that the set both receives and sends on.
    pub fn both_ways(self) -> NameSet
        ensures { (k : ℕ) → k < 32 → member result.0 k ≡ (member self.0 k && member self.0 (k + 32)) }
    {
        NameSet((self.0 & (self.0 >> 32)) as u32)
    }

    /// Whether some label of the set has its complement in the other set.
    pub fn meets(self, other: LabelSet) -> bool
        ensures { result ≡ some_below 64 (λ k. member self.0 k && member other.0 (complement k)) }
    {
        !self.meeting(other).is_empty()
    }

    /// Whether no label is a member.
    pub fn is_empty(self) -> bool
        ensures { result ≡ (self.0 == 0) }
    {
        self.bits() == 0
    }

    /// The lowest label of the set, if it has one.
    pub fn lowest(self) -> Option<u8>
        ensures { MatchOption result (self.0 ≡ 0) (λ k. Lowest self.0 k) }
    {
        if self.is_empty() {
            None
        } else {
            Some(self.0.trailing_zeros() as u8)
        }
    }

    /// Removes the lowest label and answers it; nothing is left to remove where it answers `None`.
    pub fn take_lowest(&mut self) -> Option<u8>
        ensures { MatchOption result ((self.old.0 ≡ 0) × (self.new.0 ≡ 0)) (λ k. Taken self.old.0 k self.new.0) }
    {
        let label = self.lowest()?;
        *self = LabelSet(self.0 & !(1 << label));
        Some(label)
    }

    /// The labels of the set, lowest first.
    pub fn iter(self) -> Labels
        ensures { result.left ≡ self }
    {
        Labels { left: self }
    }
}

/// The labels of a set that are still to come, lowest first.
#[derive(Clone, Debug, Drop)]
pub struct Labels {
    left: LabelSet,
}

impl Iterator for Labels {
    type Item = u8;

    ghost next_gives = { YieldsFirst (λ labels. members labels.left.0) };

    ghost remaining = { item_count (λ labels. members labels.left.0) };

    fn next(&mut self) -> Option<u8> {
        self.left.take_lowest()
    }
}

/// A visible label as text: `?k` receives on name k, and `!k` sends on it.
#[derive(Clone, Copy, PartialEq, Eq, Debug)]
pub struct VisibleLabel(pub u8);

impl fmt::Display for VisibleLabel {
    ghost output = { λ label. Some (label_text label.0) };

    fn fmt<W: fmt::Write>(&self, f: &mut fmt::Formatter<W>) -> fmt::Result {
        let label = self.0;
        if label < NAMES {
            write!(f, "?{label}")
        } else {
            write!(f, "!{}", label - NAMES)
        }
    }
}
