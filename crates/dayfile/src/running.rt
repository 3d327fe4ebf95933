// A running day takes plans, wants, clearings and readings.
ghost use Rattle.std.specs.Prelude.{refl};
ghost use Rattle.records.specs.declared.kind.Stage.TheVariants as s;
ghost use Rattle.records.specs.Records.{close_day};
ghost use Rattle.dayfile.specs.Files.{running};

use crate::file::File;
use crate::reached::{Reached, RefusedFile};
use crate::read::read_stage;
use crate::staged::{ReadsOn, Staged, TakesRecords};
use day::{ClosedDay, Fault, RunningDay};
use records::{Record, Stage};

impl Staged for RunningDay {
    ghost state = { λ d. running d.book };

    // Never inlined: LLVM takes minutes over the copies of a day where it is.
    #[inline(never)]
    fn reached(self) -> Reached {
        Reached::Running(self)
    }
}

impl ReadsOn for RunningDay {
    fn read_on(self, file: File<'_>) -> Result<ClosedDay, RefusedFile> {
        read_stage(file, self)
    }
}

impl TakesRecords for RunningDay {
    type Next = ClosedDay;

    const STAGE: Stage = Stage::Running;

    ghost STAGE = { s.Running };

    ghost closing = { close_day };

    ghost at_stage = { λ d. refl };

    ghost is_open = { refl };

    fn is_closed_by(item: &Record<'_>) -> bool {
        matches!(item, Record::CloseDay)
    }

    // A match: each record makes a call of its own.
    fn give(&mut self, item: Record<'_>) -> Result<(), Fault> {
        match item {
            Record::Plan {
                round,
                seller,
                period,
                power,
            } => self.plan(round, seller, period, power),
            Record::Want {
                round,
                area,
                period,
                power,
            } => self.want(round, area, period, power),
            Record::Clear { round, period } => self.clear(round, period),
            Record::ReadUnit {
                seller,
                period,
                energy,
            } => self.read_unit(seller, period, energy),
            Record::ReadPlant {
                plant,
                period,
                energy,
            } => self.read_plant(plant, period, energy),
            _ => unreachable!(),
        }
    }

    fn close(self) -> ClosedDay {
        RunningDay::close(self)
    }
}
