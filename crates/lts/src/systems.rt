//! The laws of systems of any size. A contract cannot quantify over systems, so they come in by bounds: a trait's ghost
//! member is the system, and a function under the bound is proved for every one.

ghost use Rattle.std.specs.Prelude.{◌≡◌, ℕ, List};
ghost use Rattle.lts.specs.Systems.{Lts};
ghost use Rattle.lts.specs.Contexts.{Layer, StandIn, row, actuals, promises};
ghost use Rattle.lts.specs.Claims.{MeetsClauses, Claim, Holds, Chain, HoldsBoth, composed, claim_in_context, RefusalsFor};
ghost use Rattle.lts.specs.Laws.{StuckOnlyIf};

/// Any system, finite or endless: an environment, for one.
pub trait System {
    ghost system: { Lts };
}

/// Two systems and a relation by which the first conforms to the second.
pub trait Conforming {
    ghost claim: { Claim };

    ghost holds: { Holds claim };
}

/// Three systems, each of which conforms to the next.
pub trait Chained {
    ghost chain: { Chain };

    ghost holds: { HoldsBoth chain };
}

/// A set of labels, given by any property.
pub trait Labels {
    ghost labels: { ℕ → Type 0 };
}

/// Any number of layers to put over a system.
pub trait Context {
    ghost layers: { List Layer };
}

/// Systems in a row, each with the one that it stands in for.
pub trait Replaced {
    ghost replaced: { List StandIn };
}

/// What a claim says without label sets is the second clause at every label set.
pub fn refuses_only_what_is_promised<C: Conforming, X: Labels>()
    ensures { RefusalsFor C.Conforming.claim X.Labels.labels }
{}

/// Every system conforms to itself.
pub fn conforms_to_itself<S: System>()
    ensures { MeetsClauses S.System.system S.System.system (λ p q. (p ≡ q)) }
{}

/// Conformance passes along a chain.
pub fn conforms_along_a_chain<C: Chained>()
    ensures { Holds (composed C.Chained.chain) }
{}

/// Conformance stays under restriction, relabelling and any third system on either side, and so under every context.
pub fn conforms_in_context<C: Conforming, X: Context>()
    ensures { Holds (claim_in_context X.Context.layers C.Conforming.claim) }
{}

/// On every set of names, the first system can get stuck only if the second can.
pub fn stuck_only_where_promised<C: Conforming>()
    ensures { StuckOnlyIf C.Conforming.claim.actual C.Conforming.claim.promised }
{}

/// Beside any environment, a row of stand-ins can get stuck only where the row of what they stand in for can.
pub fn row_stuck_only_where_promised<E: System, R: Replaced>()
    ensures { StuckOnlyIf (row E.System.system (actuals R.Replaced.replaced)) (row E.System.system (promises R.Replaced.replaced)) }
{}
