// A day at one of its stages, and what brings it to the next.
ghost use Rattle.std.specs.Prelude.{◌≡◌, false, Ok, Some, None, MatchResult};
ghost use Rattle.records.specs.declared.kind.Stage.{Stage};
ghost use Rattle.records.specs.declared.kind.Stage.TheVariants as s;
ghost use Rattle.records.specs.Marks.{stage_is};
ghost use Rattle.records.specs.Records.{Item, shown};
ghost use Rattle.dayfile.specs.Files.{State, Takes, ReadFrom, call_of, closed, stage_of, state_of};
ghost use Rattle.dayfile.specs.Parts.{Closes, IsFor};

use crate::file::File;
use crate::reached::{Reached, RefusedFile};
use day::{ClosedDay, Fault};
use records::{Record, Stage};

// A day as the records taken have left it.
pub(crate) trait Staged {
    // Where it stands.
    ghost state: { Self → State };

    fn reached(self) -> Reached
        ensures { state_of result ≡ state self };
}

// A day with which the reading of a file goes on.
pub(crate) trait ReadsOn: Staged {
    // Reads on to the end of the file, or to the first record that is refused.
    fn read_on(self, file: File<'_>) -> Result<ClosedDay, RefusedFile>
        ensures { MatchResult result (λ day. ReadFrom file.entry.bytes.now file.entry.place (Self.state self) None (closed day.book)) (λ refused. ReadFrom file.entry.bytes.now file.entry.place (Self.state self) (Some refused.fault) (state_of refused.reached)) };
}

// A day at a stage that takes records, up to the one that closes the stage.
pub(crate) trait TakesRecords: Staged {
    type Next: ReadsOn;

    const STAGE: Stage;

    ghost STAGE: { Stage };

    // The record that closes the stage.
    ghost closing: { Item };

    // Whether the record closes the stage.
    fn is_closed_by(item: &Record<'_>) -> bool
        ensures { Closes result (shown item.now) closing };

    // Gives the record to the day, as the call that it makes.
    fn give(&mut self, item: Record<'_>) -> Result<(), Fault>
        requires { IsFor STAGE closing (shown item) }
        ensures { Takes (call_of (shown item.entry)) (Self.state self.old) result (Self.state self.new) };

    // The day at its next stage.
    fn close(self) -> Self::Next
        ensures { Takes (call_of closing) (Self.state self) (Ok tt) (Self.Next.state result) };

    ghost at_stage: { (d : Self) → stage_of (Self.state d) ≡ STAGE };

    ghost is_open: { stage_is STAGE s.Closed ≡ false };
}
