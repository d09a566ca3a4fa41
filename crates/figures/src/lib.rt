// The worked figures, as theorems about the definitions.
#![tactic(auto)]

ghost use Rattle.figures.specs.Figures.{Figures};

// Nothing to compute: the contract states the figures, and the crate stands only where they hold.
pub fn worked_figures()
    ensures { Figures }
{}
