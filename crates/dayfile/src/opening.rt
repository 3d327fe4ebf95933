// An opening day takes enrolments and offers.
ghost use Rattle.std.specs.Prelude.{refl};
ghost use Rattle.records.specs.declared.kind.Stage.TheVariants as s;
ghost use Rattle.records.specs.Records.{close_offers};
ghost use Rattle.dayfile.specs.Files.{opening};

use crate::file::File;
use crate::reached::{Reached, RefusedFile};
use crate::read::read_stage;
use crate::staged::{ReadsOn, Staged, TakesRecords};
use crate::steps::steps_in;
use day::{ClosedDay, Fault, OpeningDay, RunningDay};
use records::{Record, Stage};

impl Staged for OpeningDay {
    ghost state = { λ d. opening d.book };

    // Never inlined: LLVM takes minutes over the copies of a day where it is.
    #[inline(never)]
    fn reached(self) -> Reached {
        Reached::Opening(self)
    }
}

impl ReadsOn for OpeningDay {
    fn read_on(self, file: File<'_>) -> Result<ClosedDay, RefusedFile> {
        read_stage(file, self)
    }
}

impl TakesRecords for OpeningDay {
    type Next = RunningDay;

    const STAGE: Stage = Stage::Opening;

    ghost STAGE = { s.Opening };

    ghost closing = { close_offers };

    ghost at_stage = { λ d. refl };

    ghost is_open = { refl };

    fn is_closed_by(item: &Record<'_>) -> bool {
        matches!(item, Record::CloseOffers)
    }

    // A match: each record makes a call of its own.
    fn give(&mut self, item: Record<'_>) -> Result<(), Fault> {
        match item {
            Record::EnrolUnit {
                seller,
                area,
                capacity,
                floor,
            } => self.enrol_unit(seller, area, capacity, floor),
            Record::EnrolPool {
                seller,
                area,
                capacity,
            } => self.enrol_pool(seller, area, capacity),
            Record::EnrolPlant { plant, area } => self.enrol_plant(plant, area),
            Record::OfferUnit { seller, prices } => self.offer_unit(seller, *prices),
            Record::OfferPool { seller, steps, .. } => {
                self.offer_pool(seller, steps_in(steps).as_slice())
            }
            _ => unreachable!(),
        }
    }

    fn close(self) -> RunningDay {
        self.close_offers()
    }
}
