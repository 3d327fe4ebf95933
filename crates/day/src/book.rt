// What a day holds: of each call the latest that was accepted, and the clearings. The fields are the crate's own.
// Arrays by number: the subject numbers its 64 sellers and plants, 8 areas and 96 periods itself, and a day takes no heap.
use money::share::Share;
use sellers::capacity::Capacity;
use sellers::power::Power;
use sellers::steps::StepOffer;
use sellers::tiers::TierPrices;

// What a seller is enrolled as, and its latest offer.
#[derive(Clone, Copy)]
pub enum Role {
    // A unit: its floor, and the prices of its tiers.
    Thermal {
        floor: Power,
        prices: Option<TierPrices>,
    },
    // A pool: its steps.
    Pooled(Option<StepOffer>),
}

#[derive(Clone, Copy)]
pub struct Enrolled {
    // A number, as plants have it too: each question names an area by number, and there is none past the eight.
    pub(crate) area: u8,
    pub(crate) capacity: Capacity,
    pub(crate) role: Role,
}

// A cleared round: what was brought and at what price, the call of each seller, and what each area received.
#[derive(Clone, Copy)]
pub struct Cleared {
    pub(crate) brought: u32,
    pub(crate) price: Option<u8>,
    pub(crate) calls: [u32; 64],
    pub(crate) received: [u32; 8],
}

// A round of a period: the areas' wants, the units' bases as planned, and its clearing.
#[derive(Clone, Copy)]
pub struct Round {
    pub(crate) wants: [u32; 8],
    // A number: the borrow checker has no rule for a place inside an element that holds a type with a ghost field, as `Power` has.
    pub(crate) plans: [Option<u16>; 64],
    pub(crate) cleared: Option<Cleared>,
}

// A period: its day-ahead and its intraday round, the units' readings as given, and the plants' readings.
#[derive(Clone, Copy)]
pub struct Period {
    pub(crate) rounds: [Round; 2],
    pub(crate) units: [Option<u32>; 64],
    pub(crate) plants: [u32; 64],
}

#[derive(Drop)]
pub struct Book {
    pub(crate) share: Share,
    pub(crate) sellers: [Option<Enrolled>; 64],
    pub(crate) plants: [Option<u8>; 64],
    pub(crate) periods: [Period; 96],
}
