// A period of a closed day: its entries, and its statement.
ghost use Rattle.std.specs.Prelude.{◌≡◌, ◌≤◌, length};
ghost use Rattle.statements.specs.Lines.{Put};
ghost use Rattle.statements.specs.Billed.{clearing_of, sale_of, area_of, plant_of, unit_of, refund_of};
ghost use Rattle.statements.specs.Statement.{round_lines, statement_of};

use crate::entries::{AreaCharge, AreaRefund, Clearing, PlantCharge, Sale, UnitDues};
use crate::entry::Entry;
use crate::page::Page;
use day::ClosedDay;

#[derive(Clone, Copy)]
pub(crate) struct Period<'a> {
    pub(crate) day: &'a ClosedDay,
    pub(crate) number: u8,
}

// Rounds by number, as the day's questions take them.
impl Period<'_> {
    fn clearing(&self, round: u8) -> Clearing
        ensures { result ≡ clearing_of self.now.day.now.book self.now.number round }
    {
        Clearing {
            period: u64::from(self.number),
            round: u64::from(round),
            wanted: self.day.wanted(round, self.number),
            brought: u64::from(self.day.brought(round, self.number)),
            price: self.day.price(round, self.number),
        }
    }

    fn sale(&self, round: u8, seller: u8) -> Sale
        ensures { result ≡ sale_of self.now.day.now.book self.now.number round seller }
    {
        Sale {
            period: u64::from(self.number),
            round: u64::from(round),
            seller: u64::from(seller),
            call: u64::from(self.day.call(seller, round, self.number)),
            fee: self.day.fee(seller, round, self.number),
        }
    }

    fn area_charge(&self, area: u8) -> AreaCharge
        ensures { result ≡ area_of self.now.day.now.book self.now.number area }
    {
        let (_, users) = self.day.split(area, self.number);
        AreaCharge {
            period: u64::from(self.number),
            area: u64::from(area),
            charge: self.day.charge(area, self.number),
            users,
            uncarried: self.day.uncarried_charge(area, self.number),
        }
    }

    fn plant_charge(&self, plant: u8) -> PlantCharge
        ensures { result ≡ plant_of self.now.day.now.book self.now.number plant }
    {
        PlantCharge {
            period: u64::from(self.number),
            plant: u64::from(plant),
            charge: self.day.plant_charge(plant, self.number),
        }
    }

    fn unit_dues(&self, unit: u8) -> UnitDues
        ensures { result ≡ unit_of self.now.day.now.book self.now.number unit }
    {
        UnitDues {
            period: u64::from(self.number),
            unit: u64::from(unit),
            penalty: self.day.penalty(unit, self.number),
            refund: self.day.refund(unit, self.number),
        }
    }

    fn area_refund(&self, area: u8) -> AreaRefund
        ensures { result ≡ refund_of self.now.day.now.book self.now.number area }
    {
        AreaRefund {
            period: u64::from(self.number),
            area: u64::from(area),
            uncarried: self.day.uncarried_refund(area, self.number),
        }
    }

    // A round in which something was wanted, and its sales.
    fn put_round(&self, page: &mut Page, round: u8)
        ensures { Put 6955 page.old (round_lines self.now.day.now.book self.now.number round) page.new }
    {
        let clearing = self.clearing(round);
        if clearing.wanted > 0 {
            clearing.put(page);
            page.entries(64, |seller| self.sale(round, seller));
        }
    }

    // The whole statement.
    pub(crate) fn statement(&self) -> Page
        ensures value { result ≡ statement_of self.now.day.now.book self.now.number }
        ensures most { length result ≤ 24950 }
    {
        let mut page = Page::new();
        self.put_round(&mut page, 0);
        self.put_round(&mut page, 1);
        page.entries(8, |area| self.area_charge(area));
        page.entries(64, |plant| self.plant_charge(plant));
        page.entries(64, |unit| self.unit_dues(unit));
        page.entries(8, |area| self.area_refund(area));
        page
    }
}
