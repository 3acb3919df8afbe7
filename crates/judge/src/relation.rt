//! Relations for callers who have none of their own: what a verdict says of a relation, it says of every one.

use lts::machines::Relation;

/// The relation that holds every pair.
pub struct EveryPair;

impl Relation for EveryPair {
    ghost holds = { λ p q. Unit {0} };
}

/// The relation that holds no pair.
pub struct NoPair;

impl Relation for NoPair {
    ghost holds = { λ p q. ⊥ };
}
