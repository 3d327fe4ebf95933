// Worked cases of the market's rules, proved of the rules and run on the code.

#![tactic(auto)]

ghost use Rattle.std.specs.List.{AllByRecursion};
ghost use Rattle.worked.specs.Cases.{Holds, worked};

// Every worked case holds.
pub fn worked_cases()
    ensures { AllByRecursion Holds worked }
{}

#[cfg(test)]
mod runs;
