// Reads the records of a day file: a two-byte mark and a body each.

#![tactic(auto)]

mod bodies;
mod fault;
mod kind;
mod read;
mod record;

pub use fault::RecordFault;
pub use kind::{Kind, Stage};
pub use read::read_record;
pub use record::Record;
