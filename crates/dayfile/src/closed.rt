// A closed day takes no records.
ghost use Rattle.dayfile.specs.Files.{closed};

use crate::file::File;
use crate::reached::{Reached, RefusedFile};
use crate::read::expect_end;
use crate::staged::{ReadsOn, Staged};
use day::ClosedDay;

impl Staged for ClosedDay {
    ghost state = { λ d. closed d.book };

    // Never inlined: LLVM takes minutes over the copies of a day where it is.
    #[inline(never)]
    fn reached(self) -> Reached {
        Reached::Closed(self)
    }
}

impl ReadsOn for ClosedDay {
    fn read_on(self, file: File<'_>) -> Result<ClosedDay, RefusedFile> {
        // A match: both answers use the day up, and a closure for `map_err` would have moved it already.
        match expect_end(file) {
            Ok(()) => Ok(self),
            Err(fault) => Err(RefusedFile {
                reached: self.reached(),
                fault,
            }),
        }
    }
}
