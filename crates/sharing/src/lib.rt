// Sharing among parties: who waits, who is served first, and what each one gets.

#![tactic(auto)]

pub mod claim;
pub mod fraction;
pub mod hand;
pub mod kinds;
pub mod list;
pub mod party;
pub mod remainder;
pub mod row;
pub mod share;
pub mod shares;
mod sift;
pub mod tenths;
