// A day file, read from its first record to its end or its first refusal.
ghost use Rattle.std.specs.Prelude.{◌≡◌, ℕ, Some, None, MatchResult};
ghost use Rattle.dayfile.specs.Files.{Read, ReadFrom, Taken, Stops, state_of, unopened, opening, closed};
ghost use Rattle.day.specs.Reading.{opened};
ghost use Rattle.dayfile.specs.Parts.{ToClosing};
ghost use Rattle.dayfile.specs.Account.{FileLaw};
ghost use Rattle.day.specs.declared.book.Book.{Book};

use crate::fault::{FileFault, Why};
use crate::file::File;
use crate::reached::{Reached, RefusedFile};
use crate::staged::{ReadsOn, TakesRecords};
use day::{ClosedDay, OpeningDay, tested_share};
use money::share::Share;
use records::{Record, Stage};

// The share with which the first record opens the day, and the file after it.
fn read_share(file: File<'_>) -> Result<(File<'_>, Share), FileFault>
    ensures { MatchResult result (λ done. Taken file.entry.bytes.now file.entry.place unopened done.0.place (opening (opened done.1)) × (done.0.bytes.now ≡ file.entry.bytes.now)) (λ fault. Stops file.entry.bytes.now file.entry.place unopened (Some fault)) }
{
    let record = file.next(Stage::Unopened)?;
    let Record::Open { share } = record else {
        unreachable!();
    };
    let place = file.place();
    let share = tested_share(share).map_err(|fault| Why::from(fault).at(place))?;
    Ok((file.past(record.size()), share))
}

// Gives the records to the day, up to the one that closes its stage: the file after that one.
fn take_records<'a, D: TakesRecords>(file: File<'a>, day: &mut D) -> Result<File<'a>, FileFault>
    ensures { MatchResult result (λ rest. ToClosing D.STAGE D.closing file.entry.bytes.now file.entry.place (D.state day.old) (D.state day.new) rest.bytes.now rest.place) (λ fault. ReadFrom file.entry.bytes.now file.entry.place (D.state day.old) (Some fault) (D.state day.new)) }
{
    let mut left = file;
    // A loop: how far each step goes is known only when its record is read, and the day may stop it.
    loop {
        let record = left.next(D::STAGE)?;
        let after = left.past(record.size());
        if D::is_closed_by(&record) {
            return Ok(after);
        }
        let place = left.place();
        day.give(record)
            .map_err(|fault| Why::from(fault).at(place))?;
        left = after;
    }
}

// Gives a day the records of its stage, and reads on with the day at its next.
pub(crate) fn read_stage<D: TakesRecords>(
    file: File<'_>,
    mut day: D,
) -> Result<ClosedDay, RefusedFile>
    ensures { MatchResult result (λ closed_day. ReadFrom file.entry.bytes.now file.entry.place (D.state day) None (closed closed_day.book)) (λ refused. ReadFrom file.entry.bytes.now file.entry.place (D.state day) (Some refused.fault) (state_of refused.reached)) }
{
    // A match: both answers use the day up, and a closure for `map_err` would have moved it already.
    match take_records(file, &mut day) {
        Ok(rest) => day.close().read_on(rest),
        Err(fault) => Err(RefusedFile {
            reached: day.reached(),
            fault,
        }),
    }
}

// Nothing may follow the closing of the day.
pub(crate) fn expect_end(file: File<'_>) -> Result<(), FileFault>
    ensures { (b : Book) → MatchResult result (λ _. Stops file.entry.bytes.now file.entry.place (closed b) None) (λ fault. Stops file.entry.bytes.now file.entry.place (closed b) (Some fault)) }
{
    if file.is_read() {
        return Ok(());
    }
    Err(file.next(Stage::Closed).unwrap_err())
}

// Reads a whole file: the closed day, or the first record that is refused.
pub fn read_file(bytes: &[u8]) -> Result<ClosedDay, RefusedFile>
    ensures read { MatchResult result (λ day. Read bytes.now None (closed day.book)) (λ refused. Read bytes.now (Some refused.fault) (state_of refused.reached)) }
    ensures law { FileLaw }
{
    // A match: for a `?`, a `map_err` would build the same refusal in a closure, which is no plainer.
    match read_share(File::new(bytes)) {
        Ok((file, share)) => OpeningDay::open(share).read_on(file),
        Err(fault) => Err(RefusedFile {
            reached: Reached::Unopened,
            fault,
        }),
    }
}
