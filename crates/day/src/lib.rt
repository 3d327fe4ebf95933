// One market day: from opening over running to closed, and the law over all runs.

#![tactic(auto)]

mod bills;
mod book;
mod checks;
mod closed;
mod entries;
mod faults;
mod fresh;
mod open_round;
mod opening;
mod parties;
mod penalties;
mod period;
mod questions;
mod round_kind;
mod rounds;
mod running;
mod share;
mod sums;
mod totals;

pub use book::{Book, Cleared, Enrolled, Period, Role, Round};
pub use closed::ClosedDay;
pub use faults::Fault;
pub use opening::OpeningDay;
pub use running::RunningDay;
pub use share::tested_share;
pub use totals::Totals;
