// The sellers of a quarter hour: what each offers at each price, and its weight.

#![tactic(auto)]

pub mod bidder;
pub mod capacity;
pub mod fault;
pub mod pool;
pub mod power;
pub mod rest;
pub mod seller;
pub mod step;
pub mod steps;
pub mod tiers;
pub mod unit;
