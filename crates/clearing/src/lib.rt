// The clearing of one round of one quarter hour.

#![tactic(auto)]

pub mod answer;
mod calls;
pub mod clear;
mod powers;
mod price;
