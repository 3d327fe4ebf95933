// A closed day's statements: of each period, and the total line that uses the day up.
// A lent buffer and an array, no Vec: this crate has no heap.
ghost use Rattle.std.specs.Prelude.{◌≡◌, ℕ, ◌≤◌, length};
ghost use Rattle.day.specs.declared.book.Book.{Book};
ghost use Rattle.statements.specs.Statement.{statement_of, total_line, Stated};

use crate::fault::StatementFault;
use crate::page::Page;
use crate::period::Period;
use day::ClosedDay;

// No statement is longer.
pub const STATEMENT_MOST: usize = 24_950;

pub trait Statements {
    // The book that is stated.
    ghost held: { Self → Book };

    // The statement of a period into a lent buffer: its length, and the bytes after it stay.
    fn statement(&self, period: u8, buffer: &mut [u8]) -> Result<usize, StatementFault>
        ensures stated { Stated (held self.now) period buffer.old result buffer.new }
        ensures most { period ≤ 95 → length (statement_of (held self.now) period) ≤ 24950 };

    // The day's four sums, with spaces after the line feed.
    fn total_line(self) -> [u8; 96]
        ensures { result ≡ total_line (held self) };
}

impl Statements for ClosedDay {
    ghost held = { λ d. d.book };

    fn statement(&self, period: u8, buffer: &mut [u8]) -> Result<usize, StatementFault> {
        if period > 95 {
            return Err(StatementFault::Period);
        }
        let page = Period {
            day: self,
            number: period,
        }
        .statement();
        if page.len() > buffer.len() {
            return Err(StatementFault::Long);
        }
        page.copy_to(buffer);
        Ok(page.len())
    }

    fn total_line(self) -> [u8; 96] {
        let totals = self.totals();
        let mut line = Page::new();
        line.line(
            b'T',
            &[
                totals.fees,
                totals.charges,
                totals.penalties,
                totals.refunds,
            ],
        );
        let mut out = [b' '; 96];
        line.copy_to(&mut out);
        out
    }
}
