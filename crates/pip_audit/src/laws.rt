//! The law of the auditor. It computes nothing: what it says is its contract.
ghost use Rattle.pip_audit.specs.Law.{LayoutsAreYes, YesAreLayouts};

/// Yes is the verdict on a memory exactly where it is the layout of some sound tree.
pub fn law_yes()
    ensures layouts { LayoutsAreYes }
    ensures others { YesAreLayouts }
{}
