// A day file to a day, record by record.

#![tactic(auto)]

mod closed;
mod fault;
mod file;
mod next;
mod opening;
mod program;
mod reached;
mod read;
mod running;
mod staged;
mod steps;

pub use fault::{FileFault, Why};
pub use program::{Printed, print};
pub use reached::{Reached, RefusedFile};
pub use read::read_file;
