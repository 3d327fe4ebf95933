// How far a file brought a day.
use crate::fault::FileFault;
use day::{ClosedDay, OpeningDay, RunningDay};

// The day as the records taken have left it.
// The day itself, no Box: a refusal must not fail for want of memory. No Option: each stage's day is a type of its own.
#[derive(Drop)]
pub enum Reached {
    Unopened,
    Opening(OpeningDay),
    Running(RunningDay),
    Closed(ClosedDay),
}

// A file that was not read to the end of a closed day: the day as the records taken have left it, and the refusal of the next one.
#[derive(Drop)]
pub struct RefusedFile {
    pub reached: Reached,
    pub fault: FileFault,
}
