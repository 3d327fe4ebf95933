// The money of one period: fees, shares of a charge, deviations and penalties.
// Money is in fen, power in tenths of a megawatt, energy in kilowatt-hours; prices are 0 to 60.

#![tactic(auto)]

pub mod deviation;
pub mod fee;
pub mod share;
