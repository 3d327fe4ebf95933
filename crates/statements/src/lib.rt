// Statements: a closed day's periods and its total line, as bytes.

#![tactic(auto)]

mod entries;
mod entry;
mod fault;
mod page;
mod period;
mod statement;

pub use fault::StatementFault;
pub use statement::{STATEMENT_MOST, Statements};
