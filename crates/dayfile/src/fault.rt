// Why a file was refused, and where.
ghost use Rattle.std.specs.Prelude.{◌≡◌};
ghost use Rattle.dayfile.specs.Faults.{why_number};
ghost use Rattle.dayfile.specs.declared.fault.Why.TheVariants as why;

use day::Fault;
use records::RecordFault;

#[derive(Clone, Copy, PartialEq, Eq, Debug)]
pub enum Why {
    // No record can be read there.
    Record(RecordFault),
    // The file ends before the day is closed.
    Unclosed,
    // The day refuses the record's call.
    Day(Fault),
}

impl From<Fault> for Why {
    ghost from_gives = { λ f w. w ≡ why.Day f };

    fn from(fault: Fault) -> Why {
        Why::Day(fault)
    }
}

impl From<RecordFault> for Why {
    ghost from_gives = { λ f w. w ≡ why.Record f };

    fn from(fault: RecordFault) -> Why {
        Why::Record(fault)
    }
}

impl Why {
    // The number that the refusal is known by.
    pub fn number(self) -> u8
        ensures { result ≡ why_number self }
    {
        // A match: the faults within have numbers of their own.
        match self {
            Why::Record(fault) => fault.number(),
            Why::Unclosed => 33,
            Why::Day(fault) => fault.number(),
        }
    }

    // The refusal of what stands at a place.
    pub(crate) fn at(self, place: usize) -> FileFault
        ensures place { result.place ≡ place }
        ensures why { result.why ≡ self }
    {
        FileFault { place, why: self }
    }
}

// A refusal, with the place of the record's mark; of a file that ends too early, with its length.
#[derive(Clone, Copy, PartialEq, Eq, Debug)]
pub struct FileFault {
    pub place: usize,
    pub why: Why,
}
