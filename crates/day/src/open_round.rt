// A round of a period that may be cleared.
ghost use Rattle.std.specs.Prelude.{◌≡◌, ℕ, ◌≤◌, length};
ghost use Rattle.day.specs.Kinds.{number_of};
ghost use Rattle.day.specs.Reading.{plan_at, cleared_at, call_in};
ghost use Rattle.day.specs.Terms.{base_from};

use crate::book::{Enrolled, Period};
use crate::round_kind::RoundKind;

// The day's sellers, the period, and which of its rounds. No base is above the most that a unit can be planned for.
#[derive(Drop)]
pub(crate) struct OpenRound<'a> {
    pub(crate) sellers: &'a [Option<Enrolled>; 64],
    pub(crate) period: &'a Period,
    pub(crate) kind: RoundKind,
    // As the array's type says: without it the proof does not close, since a lent struct does not tell it.
    ghost all: { length sellers.now ≡ 64 },
    ghost low: { (i : ℕ) → base_from (plan_at period.now) (call_in (cleared_at period.now 0)) (number_of kind) i ≤ 20000 },
}
