// A place of a running board.
use duty::Duty;
use model::Job;

// The duty of the place, the clock at its last accepted arrival, and its job, if one waits.
#[derive(Clone, Copy)]
pub struct Place {
    pub duty: Duty,
    pub last: Option<u64>,
    pub job: Option<Job>,
}
