// Sheets and books: build and list. Each writes one image from another of the same entries.
#![tactic(auto)]

ghost use Rattle.sheet.specs.Sheet.{build_book, list_book};
ghost use Rattle.answer.specs.Reports.{Answered};

use answer::{Refusal, Size};

// Builds a book from a sheet.
pub fn build(sheet: &[u8], dst: &mut [u8]) -> Result<Size, Refusal>
    ensures { Answered (build_book sheet.now dst.old) result dst.new }
{
    let n = sheet_check::check(sheet).ok_or(Refusal::NotLaidOut)?;
    let total = sheet_write::book_size(sheet, n);
    if dst.len() < total {
        return Err(Refusal::TooShort);
    }
    sheet_write::fill_book(sheet, n, total, dst);
    Ok(Size {
        entries: n,
        bytes: total,
    })
}

// Lists a book into a sheet.
pub fn list(book: &[u8], dst: &mut [u8]) -> Result<Size, Refusal>
    ensures { Answered (list_book book.now dst.old) result dst.new }
{
    let c = book_check::check(book, &[])?;
    let held = c.book();
    let n = held.len();
    let total = sheet_write::sheet_size(&held);
    if dst.len() < total {
        return Err(Refusal::TooShort);
    }
    sheet_write::fill_sheet(&held, total, dst);
    Ok(Size {
        entries: n,
        bytes: total,
    })
}
