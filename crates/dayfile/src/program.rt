// The whole work of the day statement program but for reading and writing: a file's bytes to what is printed.
ghost use Rattle.std.specs.Prelude.{◌≡◌, ℕ, ◌≤◌, ◌++◌, ◌==◌, length, position, IfOk, vec_len, OnOk};
ghost use Rattle.statements.specs.Lines.{each};
ghost use Rattle.statements.specs.Statement.{statement_of};
ghost use Rattle.dayfile.specs.Printed.{X_line, listing, PrintsAs, FirstLine};

use crate::reached::RefusedFile;
use crate::read::read_file;
use day::ClosedDay;
use statements::{STATEMENT_MOST, Statements};
use std::alloc::{AllocError, Global};

// A longer file is refused by 34.
const FILE_MOST: usize = 65_535;

// What a file gives to print: its day's statements, or the line of its refusal.
// No Result: both are text to print, and `print`'s own Result tells of want of memory.
#[derive(Drop)]
pub enum Printed {
    Statements(Vec<u8>),
    Refusal(Vec<u8>),
}

// The line of a refused file. No Display of FileFault: a file that is too long, number 34, has no FileFault.
// The heap is handed on as it is: a struct around it would hold nothing else.
fn refusal_line(heap: Global, place: usize, number: u8) -> Result<Vec<u8>, AllocError>
    ensures { IfOk result (λ v. v.items ≡ X_line place number) }
{
    Ok(format!(in heap; "X {place} {number}\n")?.into_bytes())
}

// Where the first line feed stands.
fn line_feed(bytes: &[u8]) -> Option<usize>
    ensures { result ≡ position (λ byte. byte == 10) bytes.now }
{
    bytes.iter().position(|byte| *byte == b'\n')
}

// How long the first line is, its line feed among it; all of the bytes where there is none.
fn first_line(bytes: &[u8]) -> usize
    ensures within { result ≤ length bytes.now }
    ensures line { FirstLine bytes.now result }
{
    line_feed(bytes).map_or(bytes.len(), |feed| feed + 1)
}

// Adds the statement of a period to the text. The page is lent, as `statement` asks: it has no heap to make one.
fn add_period(
    day: &ClosedDay,
    period: u8,
    page: &mut [u8],
    text: &mut Vec<u8>,
) -> Result<(), AllocError>
    requires { (period ≤ 95) × (24950 ≤ length page.old) }
    ensures { OnOk result (text.new.items ≡ text.old.items ++ statement_of day.now.book period) }
{
    let long = day.statement(period, page).unwrap();
    text.extend_from_slice(&page[..long])
}

// The statements of all periods, in order.
fn periods(heap: Global, day: &ClosedDay) -> Result<Vec<u8>, AllocError>
    ensures { IfOk result (λ v. v.items ≡ each (statement_of day.now.book) 96) }
{
    let mut page = vec![in heap; 0u8; STATEMENT_MOST]?;
    let mut text = Vec::new(heap);
    for period in 0..96u8 {
        add_period(day, period, page.as_mut_slice(), &mut text)?;
    }
    Ok(text)
}

// The statements of all periods, then the total line to its line feed.
fn list(heap: Global, day: ClosedDay) -> Result<Vec<u8>, AllocError>
    ensures { IfOk result (λ v. v.items ≡ listing day.book) }
{
    let mut text = periods(heap, &day)?;
    let total = day.total_line();
    let long = first_line(&total);
    text.extend_from_slice(&total[..long])?;
    Ok(text)
}

// What the program prints of a file's bytes.
pub fn print(heap: Global, bytes: &[u8]) -> Result<Printed, AllocError>
    ensures { IfOk result (PrintsAs bytes.now) }
{
    if bytes.len() > FILE_MOST {
        return Ok(Printed::Refusal(refusal_line(heap, FILE_MOST, 34)?));
    }
    match read_file(bytes) {
        Ok(day) => Ok(Printed::Statements(list(heap, day)?)),
        Err(RefusedFile { fault, .. }) => Ok(Printed::Refusal(refusal_line(
            heap,
            fault.place,
            fault.why.number(),
        )?)),
    }
}
