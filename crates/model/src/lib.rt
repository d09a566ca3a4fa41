// The running board as a definition: what each call does and answers, and what a board promises of every run.
#![tactic(auto)]

mod calls;
mod jobs;

pub use calls::{Answer, Call, Event};
pub use jobs::Job;
