// A round and a period as a day begins. The arrays of what was not given are statics, copied as they are: filled in
// place, they would be taken apart field by field for all 96 periods, which takes the compiler minutes.
ghost use Rattle.std.specs.Prelude.{◌≡◌};
ghost use Rattle.day.specs.Reading.{blank, blank_round};

use crate::book::{Period, Round};

static NO_PLANS: [Option<u16>; 64] = [None; 64];

static NO_READINGS: [Option<u32>; 64] = [None; 64];

fn blank_round() -> Round
    ensures { result ≡ blank_round }
{
    Round {
        wants: [0; 8],
        plans: *&NO_PLANS,
        cleared: None,
    }
}

pub(crate) fn blank_period() -> Period
    ensures { result ≡ blank }
{
    Period {
        rounds: [blank_round(); 2],
        units: *&NO_READINGS,
        plants: [0; 64],
    }
}
