// The checks that several calls share, each with its refusal.
ghost use Rattle.std.specs.Prelude.{◌≡◌, ◌*◌, ◌%◌, ◌<◌, ◌&&◌, ◌||◌, ◌==◌, None, is_some, not, nat_lt, Some, slice_index_or};
ghost use Rattle.day.specs.Calls.{Tested, TestedAll, free_checks, known_checks, open_checks};
ghost use Rattle.day.specs.Kinds.{number_of};
ghost use Rattle.day.specs.Reading.{no_period, enrolled, cleared_at, call_in};
ghost use Rattle.day.specs.Terms.{is_unit, capacity_of};
ghost use Rattle.day.specs.declared.faults.Fault.TheVariants as refused;

use crate::bills::listed;
use crate::book::{Enrolled, Period};
use crate::entries::unit_capacity;
use crate::faults::Fault;
use crate::round_kind::RoundKind;
use sellers::capacity::Capacity;
use sellers::power::Power;

// A number as an index: refused above the last that there is.
pub(crate) fn within(number: u8, last: u8, fault: Fault) -> Result<usize, Fault>
    ensures { Tested (nat_lt last number) fault (λ n. n ≡ number) result }
{
    if number > last {
        return Err(fault);
    }
    Ok(usize::from(number))
}

// A place that nothing has taken yet.
pub(crate) fn vacant<T: Copy>(place: Option<T>, fault: Fault) -> Result<(), Fault>
    ensures { Tested (is_some place) fault (λ _. Unit {0}) result }
{
    if place.is_some() {
        return Err(fault);
    }
    Ok(())
}

// What an area may want: refused where it is no multiple of 500 tenths of a megawatt, or above 200,000.
pub(crate) fn tradable(power: u32) -> Result<(), Fault>
    ensures { Tested (not (power % 500 == 0) || nat_lt 200000 power) refused.Want (λ _. Unit {0}) result }
{
    if power % 500 != 0 || power > 200_000 {
        return Err(Fault::Want);
    }
    Ok(())
}

// What a meter may read: refused above 1,000,000 kWh.
pub(crate) fn readable(energy: u32) -> Result<(), Fault>
    ensures { Tested (nat_lt 1000000 energy) refused.Energy (λ _. Unit {0}) result }
{
    if energy > 1_000_000 {
        return Err(Fault::Energy);
    }
    Ok(())
}

// A capacity in megawatts: refused where it is 0 or above 2,000.
pub(crate) fn rated(megawatts: u16) -> Result<Capacity, Fault>
    ensures { Tested (megawatts == 0 || nat_lt 2000 megawatts) refused.Capacity (λ c. c.megawatts ≡ megawatts) result }
{
    Capacity::new(megawatts).ok_or(Fault::Capacity)
}

// A power in tenths of a megawatt: refused above the capacity, which is ten times as many tenths.
pub(crate) fn within_capacity(tenths: u16, capacity: Capacity, fault: Fault) -> Result<Power, Fault>
    ensures { Tested (nat_lt (10 * capacity.megawatts) tenths) fault (λ p. p.tenths ≡ tenths) result }
{
    if tenths > 10 * capacity.megawatts() {
        return Err(fault);
    }
    Power::new(tenths).ok_or(fault)
}

// The index of a seller that is to be enrolled: refused where there is no such number, or it stands for one already.
pub(crate) fn free_number(sellers: &[Option<Enrolled>; 64], seller: u8) -> Result<usize, Fault>
    ensures { TestedAll (free_checks (enrolled (slice_index_or sellers.now seller None)) seller) (λ n. n ≡ seller) result }
{
    let at = within(seller, 63, Fault::Seller)?;
    vacant(sellers[at], Fault::SellerTwice)?;
    Ok(at)
}

// The index of a seller that is enrolled, and as what: refused where there is no such number, or nobody is.
pub(crate) fn seller_at(
    sellers: &[Option<Enrolled>; 64],
    seller: u8,
) -> Result<(usize, Enrolled), Fault>
    ensures { TestedAll (known_checks (slice_index_or sellers.now seller None) seller) (λ x. (x.0 ≡ seller) × (slice_index_or sellers.now seller None ≡ Some x.1)) result }
{
    let at = within(seller, 63, Fault::Seller)?;
    let who = sellers[at].ok_or(Fault::NotSuch)?;
    Ok((at, who))
}

// The capacity of a unit: refused where no unit is enrolled there.
pub(crate) fn unit_at(sellers: &[Option<Enrolled>; 64], i: usize) -> Result<Capacity, Fault>
    ensures { Tested (not (is_unit (enrolled (slice_index_or sellers.now i None)))) refused.NotSuch (λ c. c.megawatts ≡ capacity_of (enrolled (slice_index_or sellers.now i None))) result }
{
    unit_capacity(listed(sellers, i)).ok_or(Fault::NotSuch)
}

// A period as a reference. A function of its own: an element that is lent where it stands, in a struct with a ghost field, is read as written again.
pub(crate) fn period_at(periods: &[Period; 96], at: usize) -> &Period
    requires { at < 96 }
    ensures { result.now ≡ slice_index_or periods.now at no_period }
{
    &periods[at]
}

// Whether a round still takes plans and wants, and may be cleared: refused once it is, and intraday until the day-ahead round is.
pub(crate) fn open_round(of: &Period, kind: RoundKind) -> Result<(), Fault>
    ensures { TestedAll (open_checks of.now (number_of kind)) (λ _. Unit {0}) result }
{
    vacant(of.round(kind).cleared, Fault::Cleared)?;
    if kind == RoundKind::Intraday && of.round(RoundKind::DayAhead).cleared.is_none() {
        return Err(Fault::NotCleared);
    }
    Ok(())
}

// Whether a unit may be planned for a round: refused intraday where the day-ahead round called it.
pub(crate) fn not_called(of: &Period, kind: RoundKind, i: usize) -> Result<(), Fault>
    ensures { Tested (number_of kind == 1 && nat_lt 0 (call_in (cleared_at of.now 0) i)) refused.Called (λ _. Unit {0}) result }
{
    if kind == RoundKind::Intraday && of.called(RoundKind::DayAhead, i) > 0 {
        return Err(Fault::Called);
    }
    Ok(())
}

// Whether the readings of a period may be taken: refused until its intraday round is cleared.
pub(crate) fn settled(of: &Period) -> Result<(), Fault>
    ensures { Tested (not (is_some (cleared_at of.now 1))) refused.NotCleared (λ _. Unit {0}) result }
{
    if of.round(RoundKind::Intraday).cleared.is_none() {
        return Err(Fault::NotCleared);
    }
    Ok(())
}
