//! One theorem: the worked figures over the field of 17.
#![tactic(auto)]

ghost use Rattle.figures.specs.Figures.{Figures};

/// Carries a theorem about the definitions of the other crates: the worked figures. It does nothing.
pub fn worked_figures()
    ensures { Figures }
{}
