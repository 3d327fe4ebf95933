// A record of a day file; prices and steps are the file's own bytes.
ghost use Rattle.std.specs.Prelude.{◌≡◌};
ghost use Rattle.records.specs.Records.{shown, size};

#[derive(Clone, Copy)]
pub enum Record<'a> {
    Open {
        share: u16,
    },
    EnrolUnit {
        seller: u8,
        area: u8,
        capacity: u16,
        floor: u16,
    },
    EnrolPool {
        seller: u8,
        area: u8,
        capacity: u16,
    },
    EnrolPlant {
        plant: u8,
        area: u8,
    },
    OfferUnit {
        seller: u8,
        prices: &'a [u8; 8],
    },
    // A price byte and two power bytes for each step. `count` stays beside `steps`: as a byte it bounds them at 255, which the slice alone does not.
    OfferPool {
        seller: u8,
        count: u8,
        steps: &'a [u8],
    },
    CloseOffers,
    Plan {
        round: u8,
        seller: u8,
        period: u8,
        power: u16,
    },
    Want {
        round: u8,
        area: u8,
        period: u8,
        power: u32,
    },
    Clear {
        round: u8,
        period: u8,
    },
    ReadUnit {
        seller: u8,
        period: u8,
        energy: u32,
    },
    ReadPlant {
        plant: u8,
        period: u8,
        energy: u32,
    },
    CloseDay,
}

impl Record<'_> {
    // How many bytes the record takes, its mark among them.
    // A table beside the widths of the readers: a const for each kind would be longer, and the proof holds both to one size.
    pub fn size(&self) -> usize
        ensures { result ≡ size (shown self.now) }
    {
        match self {
            Record::Open { .. } => 4,
            Record::EnrolUnit { .. } => 8,
            Record::EnrolPool { .. } => 6,
            Record::EnrolPlant { .. } => 4,
            Record::OfferUnit { .. } => 11,
            Record::OfferPool { count, .. } => 4 + 3 * usize::from(*count),
            Record::CloseOffers => 2,
            Record::Plan { .. } => 7,
            Record::Want { .. } => 9,
            Record::Clear { .. } => 4,
            Record::ReadUnit { .. } => 8,
            Record::ReadPlant { .. } => 8,
            Record::CloseDay => 2,
        }
    }
}
