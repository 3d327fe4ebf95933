// The bills of one period: who shares in what.
ghost use Rattle.std.specs.Prelude.{◌≡◌, ℕ, ◌<◌, ◌≤◌, true, get_or, is_some, if◌then◌else◌, Some, None, slice_index_or};
ghost use Rattle.sharing.specs.Places.{at_place};
ghost use Rattle.day.specs.Bills.{in_area, unit_area, payee_area, reading_in};
ghost use Rattle.day.specs.Reading.{no_round, enrolled};
ghost use Rattle.day.specs.Terms.{is_unit};

use crate::book::{Cleared, Enrolled, Period, Role, Round};
use crate::parties::{Payee, Producer};
use std::array;

// What is listed under a number: none past the end.
pub(crate) fn listed<T: Copy>(list: &[Option<T>; 64], i: usize) -> Option<T>
    ensures value { result ≡ slice_index_or list.now i None }
    ensures within { is_some result ≡ true → i < 64 }
{
    *list.get(i)?
}

// What was cleared in a round: none where there is no such round. A number, as any may be asked.
pub(crate) fn cleared_in(rounds: &[Round; 2], round: u8) -> Option<Cleared>
    ensures { result ≡ (get_or rounds.now round no_round).cleared }
{
    rounds.get(usize::from(round))?.cleared
}

// What a party weighs in an area's share-out: its reading, and nothing where it is of no such area.
fn weight_in(of: Option<u8>, area: u8, reading: u32) -> u32
    ensures { result ≡ (if in_area of area then reading else 0) }
{
    if of == Some(area) { reading } else { 0 }
}

// The area of a unit; none where it is no unit.
pub(crate) fn area_of_unit(who: Enrolled) -> Option<u8>
    ensures area { result ≡ unit_area (enrolled (Some who)) }
    ensures unit { is_some result ≡ is_unit (enrolled (Some who)) }
{
    who.unit().map(|unit| unit.area)
}

// The area of a unit with an offer; none for all others. A match: it is a unit and has prices, which one pattern says.
fn area_of_payee(who: Enrolled) -> Option<u8>
    ensures { result ≡ payee_area (enrolled (Some who)) }
{
    match who.role {
        Role::Thermal {
            prices: Some(_),
            ..
        } => Some(who.area),
        Role::Thermal { prices: None, .. } => None,
        Role::Pooled(_) => None,
    }
}

// The plants of an area as parties, by their readings; all others weigh nothing.
pub(crate) fn producers(plants: &[Option<u8>; 64], readings: &[u32; 64], area: u8) -> [Producer; 64]
    ensures { (j : ℕ) → j < 64 → (get_or result j (record { net = 0 })).net ≡ (if in_area (slice_index_or plants.now j None) area then at_place readings.now j else 0) }
{
    array::from_fn(|j| Producer {
        net: weight_in(plants[j], area, readings[j]),
    })
}

// A unit of the area with an offer as a party, by its reading; any other weighs nothing.
fn payee(sellers: &[Option<Enrolled>; 64], period: &Period, area: u8, i: usize) -> Payee
    ensures { result.reading ≡ (if in_area (payee_area (enrolled (slice_index_or sellers.now i None))) area then reading_in period.now i else 0) }
{
    Payee {
        reading: weight_in(
            listed(sellers, i).and_then(area_of_payee),
            area,
            period.reading(i),
        ),
    }
}

// The units of an area with an offer as parties, by their readings; all others weigh nothing.
pub(crate) fn payees(sellers: &[Option<Enrolled>; 64], period: &Period, area: u8) -> [Payee; 64]
    ensures { (i : ℕ) → i < 64 → (get_or result i (record { reading = 0 })).reading ≡ (if in_area (payee_area (enrolled (slice_index_or sellers.now i None))) area then reading_in period.now i else 0) }
{
    array::from_fn(|i| payee(sellers, period, area, i))
}
