// The kinds of entries in a period's statement, with their lines.
// Each has a `put` of its own: the lines differ in how many numbers they have, and a trait's const cannot be an array's length.
ghost use Rattle.statements.specs.Forms.{C_line, S_line, A_line, W_line, U_line, N_line};

use crate::entry::Entry;
use crate::page::Page;

// What was wanted in a round, what was brought and at what price.
#[derive(Clone, Copy)]
pub(crate) struct Clearing {
    pub(crate) period: u64,
    pub(crate) round: u64,
    pub(crate) wanted: u64,
    pub(crate) brought: u64,
    pub(crate) price: Option<u8>,
}

impl Entry for Clearing {
    ghost text = { λ c. C_line c.period c.round c.wanted c.brought c.price };

    ghost width = { 107 };

    fn put(&self, page: &mut Page) {
        page.byte(b'C');
        page.fields(&[self.period, self.round, self.wanted, self.brought]);
        page.price(self.price);
        page.byte(b'\n');
    }
}

// What a seller is called for in a round, and its fee.
#[derive(Clone, Copy)]
pub(crate) struct Sale {
    pub(crate) period: u64,
    pub(crate) round: u64,
    pub(crate) seller: u64,
    pub(crate) call: u64,
    pub(crate) fee: u64,
}

impl Entry for Sale {
    ghost text = { λ s. S_line s.period s.round s.seller s.call s.fee };

    ghost width = { 107 };

    fn put(&self, page: &mut Page) {
        if self.call > 0 {
            page.line(
                b'S',
                &[self.period, self.round, self.seller, self.call, self.fee],
            );
        }
    }
}

// The charge of an area, the users' part, and what no plant carries of the producers' part.
#[derive(Clone, Copy)]
pub(crate) struct AreaCharge {
    pub(crate) period: u64,
    pub(crate) area: u64,
    pub(crate) charge: u64,
    pub(crate) users: u64,
    pub(crate) uncarried: u64,
}

impl Entry for AreaCharge {
    ghost text = { λ c. A_line c.period c.area c.charge c.users c.uncarried };

    ghost width = { 107 };

    fn put(&self, page: &mut Page) {
        if self.charge > 0 {
            page.line(
                b'A',
                &[
                    self.period,
                    self.area,
                    self.charge,
                    self.users,
                    self.uncarried,
                ],
            );
        }
    }
}

// The charge of a plant.
#[derive(Clone, Copy)]
pub(crate) struct PlantCharge {
    pub(crate) period: u64,
    pub(crate) plant: u64,
    pub(crate) charge: u64,
}

impl Entry for PlantCharge {
    ghost text = { λ c. W_line c.period c.plant c.charge };

    ghost width = { 65 };

    fn put(&self, page: &mut Page) {
        if self.charge > 0 {
            page.line(b'W', &[self.period, self.plant, self.charge]);
        }
    }
}

// What a unit pays for its deviation, and what it is refunded.
#[derive(Clone, Copy)]
pub(crate) struct UnitDues {
    pub(crate) period: u64,
    pub(crate) unit: u64,
    pub(crate) penalty: u64,
    pub(crate) refund: u64,
}

impl Entry for UnitDues {
    ghost text = { λ d. U_line d.period d.unit d.penalty d.refund };

    ghost width = { 86 };

    fn put(&self, page: &mut Page) {
        if self.penalty > 0 || self.refund > 0 {
            page.line(b'U', &[self.period, self.unit, self.penalty, self.refund]);
        }
    }
}

// What no unit of an area is refunded of its penalties.
#[derive(Clone, Copy)]
pub(crate) struct AreaRefund {
    pub(crate) period: u64,
    pub(crate) area: u64,
    pub(crate) uncarried: u64,
}

impl Entry for AreaRefund {
    ghost text = { λ r. N_line r.period r.area r.uncarried };

    ghost width = { 65 };

    fn put(&self, page: &mut Page) {
        if self.uncarried > 0 {
            page.line(b'N', &[self.period, self.area, self.uncarried]);
        }
    }
}
