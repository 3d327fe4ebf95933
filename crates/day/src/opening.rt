// A day that is being opened: it takes enrolments and offers.
ghost use Rattle.std.specs.Prelude.{◌≡◌};
ghost use Rattle.day.specs.Calls as calls;
ghost use Rattle.day.specs.Calls.{EarlyDoes};
ghost use Rattle.day.specs.Reached.{Opened};
ghost use Rattle.day.specs.Reading.{opened};

use crate::book::{Book, Enrolled, Role};
use crate::checks::{free_number, rated, seller_at, vacant, within, within_capacity};
use crate::faults::Fault;
use crate::fresh::blank_period;
use crate::running::RunningDay;
use money::share::Share;
use sellers::step::Step;
use sellers::steps::StepOffer;
use sellers::tiers::TierPrices;

#[derive(Drop)]
pub struct OpeningDay {
    book: Book,
    ghost reached: { Opened book },
}

impl OpeningDay {
    // A new day with the producers' share.
    pub fn open(share: Share) -> OpeningDay
        ensures { result.book ≡ opened share }
    {
        OpeningDay {
            book: Book {
                share,
                sellers: [None; 64],
                plants: [None; 64],
                periods: [blank_period(); 96],
            },
        }
    }

    pub fn enrol_unit(
        &mut self,
        seller: u8,
        area: u8,
        capacity: u16,
        floor: u16,
    ) -> Result<(), Fault>
        ensures { EarlyDoes (calls.enrol_unit seller area capacity floor) self.old.book result self.new.book }
    {
        let at = free_number(&self.book.sellers, seller)?;
        let capacity = rated(capacity)?;
        let floor = within_capacity(floor, capacity, Fault::Floor)?;
        within(area, 7, Fault::Area)?;
        let role = Role::Thermal {
            floor,
            prices: None,
        };
        self.book.sellers[at] = Some(Enrolled {
            area,
            capacity,
            role,
        });
        Ok(())
    }

    pub fn enrol_pool(&mut self, seller: u8, area: u8, capacity: u16) -> Result<(), Fault>
        ensures { EarlyDoes (calls.enrol_pool seller area capacity) self.old.book result self.new.book }
    {
        let at = free_number(&self.book.sellers, seller)?;
        let capacity = rated(capacity)?;
        within(area, 7, Fault::Area)?;
        self.book.sellers[at] = Some(Enrolled {
            area,
            capacity,
            role: Role::Pooled(None),
        });
        Ok(())
    }

    pub fn enrol_plant(&mut self, plant: u8, area: u8) -> Result<(), Fault>
        ensures { EarlyDoes (calls.enrol_plant plant area) self.old.book result self.new.book }
    {
        within(area, 7, Fault::Area)?;
        let at = within(plant, 63, Fault::Plant)?;
        vacant(self.book.plants[at], Fault::PlantTwice)?;
        self.book.plants[at] = Some(area);
        Ok(())
    }

    // A unit's offer: a price for each of its eight tiers. A later one replaces the earlier.
    pub fn offer_unit(&mut self, seller: u8, prices: [u8; 8]) -> Result<(), Fault>
        ensures { EarlyDoes (calls.offer_unit seller prices) self.old.book result self.new.book }
    {
        let (at, who) = seller_at(&self.book.sellers, seller)?;
        let Role::Thermal { floor, .. } = who.role else {
            return Err(Fault::NotSuch);
        };
        let role = Role::Thermal {
            floor,
            prices: Some(TierPrices::new(prices)?),
        };
        self.book.sellers[at] = Some(Enrolled { role, ..who });
        Ok(())
    }

    // A pool's offer: one to eight steps. A later one replaces the earlier.
    pub fn offer_pool(&mut self, seller: u8, steps: &[Step]) -> Result<(), Fault>
        ensures { EarlyDoes (calls.offer_pool seller steps.now) self.old.book result self.new.book }
    {
        let (at, who) = seller_at(&self.book.sellers, seller)?;
        let Role::Pooled(_) = who.role else {
            return Err(Fault::NotSuch);
        };
        let role = Role::Pooled(Some(StepOffer::new(who.capacity, steps)?));
        self.book.sellers[at] = Some(Enrolled { role, ..who });
        Ok(())
    }

    // Closes the offers: the day runs.
    pub fn close_offers(self) -> RunningDay
        ensures { result.book ≡ self.book }
    {
        let OpeningDay { book } = self;
        RunningDay::start(book)
    }
}
