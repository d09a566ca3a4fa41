// Boards that run: loaded from a closed plan, called one call at a time or for a whole list of calls, and bare again.
#![tactic(auto)]

mod bare;
mod loads;
mod running;
mod runs;

pub use bare::BareBoard;
pub use loads::check_load;
pub use running::RunningBoard;
pub use runs::{run, run_plan};
