// What an entry of the book says of a seller.
ghost use Rattle.std.specs.Prelude.{◌≡◌, true, false, Some, IfSome, is_some, option_map, MatchOption};
ghost use Rattle.day.specs.Bills.{unit_area};
ghost use Rattle.day.specs.Reading.{enrolled};
ghost use Rattle.day.specs.Terms.{is_unit, capacity_of};

use crate::book::{Enrolled, Role};
use sellers::capacity::Capacity;

impl Enrolled {
    // Itself where it is a unit.
    pub(crate) fn unit(self) -> Option<Enrolled>
        ensures same { IfSome result (λ unit. unit ≡ self) }
        ensures unit { is_some result ≡ is_unit (enrolled (Some self)) }
        ensures area { option_map (λ unit. unit.area) result ≡ unit_area (enrolled (Some self)) }
        ensures capacity { IfSome result (λ unit. unit.capacity.megawatts ≡ capacity_of (enrolled (Some self))) }
    {
        match self.role {
            Role::Thermal { .. } => Some(self),
            Role::Pooled(_) => None,
        }
    }
}

// The capacity of a unit; none where it is no unit.
pub(crate) fn unit_capacity(entry: Option<Enrolled>) -> Option<Capacity>
    ensures { MatchOption result (is_unit (enrolled entry) ≡ false) (λ c. (is_unit (enrolled entry) ≡ true) × (c.megawatts ≡ capacity_of (enrolled entry))) }
{
    Some(entry?.unit()?.capacity)
}
