// A closed day: it answers calls, prices, fees, deviations, penalties, refunds and charges.
ghost use Rattle.day.specs.Reached.{Ran};

use crate::book::Book;

#[derive(Drop)]
pub struct ClosedDay {
    pub(crate) book: Book,
    ghost reached: { Ran book },
}
