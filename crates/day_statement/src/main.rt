// The day statement program: makes a small market day by its calls and prints what it answers.
// It spells its lines itself: so its stored output tests the day's public answers by another text than that of the crate `statements`.

#![tactic(auto)]

ghost use Rattle.std.specs.Prelude.{◌≡◌, ◌*◌};

use anyhow::anyhow;
use day::{ClosedDay, Fault, OpeningDay, RunningDay, Totals, tested_share};

const PRICES: [u8; 8] = [0, 10, 10, 20, 30, 30, 30, 30];

// Two units in area 1 and two plants in area 0.
fn enrol(day: &mut OpeningDay) -> Result<(), Fault> {
    day.enrol_unit(0, 1, 600, 1800)?;
    day.enrol_unit(1, 1, 300, 900)?;
    day.enrol_plant(0, 0)?;
    day.enrol_plant(1, 0)
}

fn offer(day: &mut OpeningDay) -> Result<(), Fault> {
    day.offer_unit(0, PRICES)?;
    day.offer_unit(1, PRICES)
}

// One busy period: area 0 wants what the units can bring.
fn clear(day: &mut RunningDay) -> Result<(), Fault> {
    day.plan(0, 0, 5, 4800)?;
    day.plan(0, 1, 5, 2100)?;
    day.want(0, 0, 5, 1500)?;
    day.clear(0, 5)?;
    day.clear(1, 5)
}

fn read(day: &mut RunningDay) -> Result<(), Fault> {
    day.read_unit(0, 5, 92_000)?;
    day.read_plant(0, 5, 20_000)?;
    day.read_plant(1, 5, 10_000)
}

fn small_day() -> Result<ClosedDay, Fault> {
    let mut opening = OpeningDay::open(tested_share(600)?);
    enrol(&mut opening)?;
    offer(&mut opening)?;
    let mut running = opening.close_offers();
    clear(&mut running)?;
    read(&mut running)?;
    Ok(running.close())
}

// A price in yuan per megawatt-hour.
fn in_yuan(price: u8) -> u16
    ensures { result ≡ 10 * price }
{
    10 * u16::from(price)
}

// A period of the day, and where it is printed.
#[derive(Clone, Copy)]
struct Statement<'a> {
    rt: &'a HostRuntime,
    day: &'a ClosedDay,
    period: u8,
}

impl Statement<'_> {
    fn print(&self) -> anyhow::Result<()> {
        self.print_round(0)?;
        self.print_round(1)?;
        self.print_charges()?;
        self.print_penalties()
    }

    // A cleared round in which something was wanted, and the sellers called in it. By number, as the day's questions take it.
    fn print_round(&self, round: u8) -> anyhow::Result<()> {
        let Statement { rt, day, period } = *self;
        let wanted = day.wanted(round, period);
        if wanted == 0 {
            return Ok(());
        }
        let brought = day.brought(round, period);
        match day.price(round, period).map(in_yuan) {
            Some(yuan) => println!(rt; "C {period} {round} {wanted} {brought} {yuan}")?,
            None => println!(rt; "C {period} {round} {wanted} {brought} -")?,
        }
        for seller in 0..64u8 {
            let call = day.call(seller, round, period);
            if call > 0 {
                let fee = day.fee(seller, round, period);
                println!(rt; "S {period} {round} {seller} {call} {fee}")?;
            }
        }
        Ok(())
    }

    // The areas that are charged, and then the plants.
    fn print_charges(&self) -> anyhow::Result<()> {
        let Statement { rt, day, period } = *self;
        for area in 0..8u8 {
            let charge = day.charge(area, period);
            if charge > 0 {
                let (_, users) = day.split(area, period);
                let uncarried = day.uncarried_charge(area, period);
                println!(rt; "A {period} {area} {charge} {users} {uncarried}")?;
            }
        }
        for plant in 0..64u8 {
            let charge = day.plant_charge(plant, period);
            if charge > 0 {
                println!(rt; "W {period} {plant} {charge}")?;
            }
        }
        Ok(())
    }

    // The units that pay or are refunded, and then what no unit of an area is refunded.
    fn print_penalties(&self) -> anyhow::Result<()> {
        let Statement { rt, day, period } = *self;
        for unit in 0..64u8 {
            let penalty = day.penalty(unit, period);
            let refund = day.refund(unit, period);
            if penalty > 0 || refund > 0 {
                println!(rt; "U {period} {unit} {penalty} {refund}")?;
            }
        }
        for area in 0..8u8 {
            let uncarried = day.uncarried_refund(area, period);
            if uncarried > 0 {
                println!(rt; "N {period} {area} {uncarried}")?;
            }
        }
        Ok(())
    }
}

// The four sums of the day.
fn print_totals(rt: &HostRuntime, day: &ClosedDay) -> anyhow::Result<()> {
    let Totals {
        fees,
        charges,
        penalties,
        refunds,
    } = day.totals();
    println!(rt; "T {fees} {charges} {penalties} {refunds}")?;
    Ok(())
}

fn print_day(rt: &HostRuntime, day: &ClosedDay) -> anyhow::Result<()> {
    for period in 0..96u8 {
        Statement { rt, day, period }.print()?;
    }
    print_totals(rt, day)
}

fn main(rt: HostRuntime) -> anyhow::Result<()> {
    match small_day() {
        Ok(day) => print_day(&rt, &day),
        Err(fault) => {
            let number = fault.number();
            eprintln!(rt; "a call on the small day is refused by {number}")?;
            Err(anyhow!("refused"))
        }
    }
}
