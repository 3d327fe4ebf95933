// Why no record was read.
ghost use Rattle.std.specs.Prelude.{◌≡◌};
ghost use Rattle.records.specs.Marks.{record_number};

// Each fault is the number that the refusal is known by.
#[derive(Clone, Copy, PartialEq, Eq, Debug)]
pub enum RecordFault {
    // The file ends inside a mark or a body.
    Cut = 30,
    // No record has that mark.
    Unknown = 31,
    // The mark is wrong for the stage of the day.
    Misplaced = 32,
}

impl RecordFault {
    // The number that the refusal is known by.
    pub fn number(self) -> u8
        ensures { result ≡ record_number self }
    {
        self as u8
    }
}
