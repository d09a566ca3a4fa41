// What a trial prints for a call.
use model::Answer;
use std::fmt;

// Prints as the answer's line.
#[derive(Drop)]
pub struct Reply(pub Answer);

impl fmt::Display for Reply {
    fn fmt<W: fmt::Write>(&self, f: &mut fmt::Formatter<W>) -> fmt::Result {
        match self.0 {
            Answer::Refused(fault) => write!(f, "refused {}", fault.number()),
            Answer::Granted { deadline, units } => write!(f, "{deadline} {units}"),
            Answer::Ran(Some(place)) => write!(f, "{place}"),
            Answer::Ran(None) => write!(f, "none"),
            Answer::Finished(units) => write!(f, "{units}"),
            Answer::Cancelled(jobs) => write!(f, "{jobs}"),
        }
    }
}
