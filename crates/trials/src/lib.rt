// Trials of a plan: calls on its boards as lines of text, and what they answered as lines and as a chart.
#![tactic(auto)]

mod charts;
mod commands;
mod replies;
mod rows;
mod scripts;

pub use charts::{Chart, count_on};
pub use commands::{Command, NoCommand};
pub use replies::Reply;
pub use scripts::{Script, calls_in_front, plan_end, read_script};
