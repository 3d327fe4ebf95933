// The next record of a file.
ghost use Rattle.std.specs.Prelude.{MatchResult};
ghost use Rattle.records.specs.Records.{shown};
ghost use Rattle.dayfile.specs.Parts.{Stands, Unread};

use crate::fault::{FileFault, Why};
use crate::file::File;
use records::{Record, Stage, read_record};

impl<'a> File<'a> {
    // The next record, for a day at that stage.
    pub(crate) fn next(self, stage: Stage) -> Result<Record<'a>, FileFault>
        ensures { MatchResult result (λ x. Stands stage self.entry.bytes.now self.entry.place (shown x)) (Unread stage self.entry.bytes.now self.entry.place) }
    {
        let place = self.place();
        if self.is_read() {
            return Err(Why::Unclosed.at(place));
        }
        read_record(self.rest(), stage).map_err(|fault| Why::from(fault).at(place))
    }
}
