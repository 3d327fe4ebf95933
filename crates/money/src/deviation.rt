// How far a reading is from the plan, and what a unit pays for that.
ghost use Rattle.std.specs.Prelude.{◌≡◌, ◌^◌, ◌<◌};
ghost use Rattle.money.specs.Money.{deviation_of, penalty_of};

// The reading less the planned energy, in kilowatt-hours.
pub fn deviation(reading: u32, plan: u32) -> i64
    ensures { result ≡ deviation_of reading plan }
{
    i64::from(reading) - 25 * i64::from(plan)
}

// What a unit pays where it was called and twice the size of its deviation exceeds the plan.
pub fn penalty(called: bool, reading: u32, plan: u32) -> u64
    ensures value { result ≡ penalty_of called reading plan }
    ensures most { result < 2 ^ 42 }
{
    if !called {
        return 0;
    }
    let plan = u64::from(plan);
    let size = u64::from(reading).abs_diff(25 * plan);
    if plan < 2 * size {
        30 * size - 15 * plan
    } else {
        0
    }
}
