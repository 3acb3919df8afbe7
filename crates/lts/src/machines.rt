//! The laws of machines, over every machine.

ghost use Rattle.std.specs.Prelude.{ℕ, List};
ghost use Rattle.lts.specs.Machines.{Machine, Sound, Fits, system_of};
ghost use Rattle.lts.specs.Conformance.{MachineConforms};
ghost use Rattle.lts.specs.Layers.{MachineLayer};
ghost use Rattle.lts.specs.Laws.{ShowsConformance, TestedConformance};
ghost use Rattle.lts.specs.Laws.{ReadingsAgree, RefusalsAgree, IsLargest, ContextKeeps, StuckOnlyIf};

/// What a test tells of a machine is what its word means of the machine's system.
pub fn readings_agree()
    ensures words { (M : Machine) → Sound M → Fits M → ReadingsAgree M }
    ensures label_sets { (M N : Machine) → Sound M → Fits M → RefusalsAgree M N }
{}

/// A relation between states, given by any property of pairs.
pub trait Relation {
    ghost holds: { ℕ → ℕ → Type 0 };
}

/// One machine conforms to another exactly if its system does: a relation that meets both clauses and holds the starts
/// shows it, whatever property it is given by, and a test always can be found for one.
pub fn conformance_agrees<R: Relation>()
    ensures shown { (M N : Machine) → Sound M → Fits M → Sound N → Fits N → ShowsConformance M N R.Relation.holds }
    ensures tested { (M N : Machine) → Sound M → Fits M → Sound N → Fits N → MachineConforms M N → TestedConformance M N }
{}

/// Striking pairs in rounds leaves the largest relation that meets both clauses.
pub fn rounds_leave_the_largest()
    ensures { (M N : Machine) → Sound M → Fits M → Sound N → Fits N → IsLargest M N }
{}

/// Every machine conforms to itself, and conformance passes along a chain.
pub fn conformance_is_a_preorder()
    ensures itself { (M : Machine) → Sound M → Fits M → MachineConforms M M }
    ensures chain { (K M N : Machine) → Sound K → Fits K → Sound M → Fits M → Sound N → Fits N → MachineConforms K M → MachineConforms M N → MachineConforms K N }
{}

/// Whatever layers are put over two machines, conformance stays.
pub fn contexts_keep_conformance()
    ensures { (context : List MachineLayer) (M N : Machine) → Sound M → Sound N → ContextKeeps context M N }
{}

/// A machine that conforms to another gets stuck only where the other can.
pub fn conforming_stuck_only_where_promised()
    ensures { (M N : Machine) → Sound M → Fits M → Sound N → Fits N → MachineConforms M N → StuckOnlyIf (system_of M) (system_of N) }
{}
