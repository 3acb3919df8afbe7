//! An environment for callers who have none of their own: what is promised beside it is promised beside every one.

ghost use Rattle.calls.specs.Promises.{nobody};

use lts::systems::System;

/// An environment that makes no move, so that the seats stand alone.
pub struct Nobody;

impl System for Nobody {
    ghost system = { nobody };
}
