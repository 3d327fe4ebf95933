// The worked cases, run on the code.
use clearing::clear::clear;
use money::deviation::penalty;
use sellers::capacity::Capacity;
use sellers::power::Power;
use sellers::tiers::TierPrices;
use sellers::unit::Unit;
use sharing::party::Party;
use sharing::row::Row;
use sharing::share::share_out;
use sharing::tenths::share_tenths;

// An area, which weighs what it wants.
#[derive(Clone, Copy)]
struct Area {
    want: Power,
}

impl Party for Area {
    ghost heft = { λ a. a.want.tenths };

    fn weight(&self) -> u32 {
        u32::from(self.want.tenths())
    }
}

// A unit that offers the prices of all cases.
fn unit(capacity: u16, floor: u16, base: u16) -> Option<Unit> {
    let capacity = Capacity::new(capacity)?;
    let floor = Power::new(floor)?;
    let base = Power::new(base)?;
    let prices = TierPrices::new([0, 10, 10, 20, 30, 30, 30, 30]).ok()?;
    Some(Unit::new(capacity, floor, base, prices))
}

fn two_units() -> Option<[Unit; 2]> {
    Some([unit(600, 1800, 4800)?, unit(300, 900, 2100)?])
}

// Both units cleared for what is wanted: what they bring, the price, and their calls.
fn cleared(wanted: u64) -> Option<(u32, Option<u8>, u32, u32)> {
    let units = two_units()?;
    let row = Row::new(&units)?;
    let answer = clear(&row, wanted);
    Some((
        answer.brought,
        answer.price,
        answer.calls[0],
        answer.calls[1],
    ))
}

// The shares of three areas that want 500 each, and what no area carries.
fn shared(amount: u64) -> Option<(u64, u64, u64, u64)> {
    let areas = [Area {
        want: Power::new(500)?,
    }; 3];
    let row = Row::new(&areas)?;
    let shares = share_out(amount, &row);
    Some((
        shares.parts[0],
        shares.parts[1],
        shares.parts[2],
        shares.uncarried,
    ))
}

// The tenths that both units are given, each with room for 3, and those left over.
fn given(rest: u64) -> Option<(u64, u64, u64)> {
    let mut rooms = [0u32; 64];
    rooms[0] = 3;
    rooms[1] = 3;
    let units = two_units()?;
    let row = Row::new(&units)?;
    let handed = share_tenths(&row, &rooms, rest);
    Some((handed.parts[0], handed.parts[1], handed.uncarried))
}

#[test]
fn rounds(rt: HostRuntime) {
    assert_eq!(rt; cleared(1500), Some((1500, Some(10), 1200, 300)));
    assert_eq!(rt; cleared(0), Some((0, None, 0, 0)));
    assert_eq!(rt; cleared(500), Some((500, Some(0), 500, 0)));
    assert_eq!(rt; cleared(5000), Some((4200, Some(30), 3000, 1200)));
}

#[test]
fn three_areas(rt: HostRuntime) {
    assert_eq!(rt; shared(1000), Some((334, 333, 333, 0)));
}

#[test]
fn tenths(rt: HostRuntime) {
    assert_eq!(rt; given(1), Some((1, 0, 0)));
    assert_eq!(rt; given(2), Some((2, 0, 0)));
    assert_eq!(rt; given(3), Some((2, 1, 0)));
}

#[test]
fn penalties(rt: HostRuntime) {
    assert_eq!(rt; penalty(true, 91_800, 3600), 0);
    assert_eq!(rt; penalty(true, 91_801, 3600), 30);
    assert_eq!(rt; penalty(true, 88_199, 3600), 30);
}
