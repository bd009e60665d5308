// Moves a book up or back: one of version 21 is written as 22, and one of 22 as 21.
#![tactic(auto)]

ghost use Rattle.answer.specs.Reports.{Answered};
ghost use Rattle.convert.specs.Convert.{convert_book, convert_in};

use answer::{Refusal, Size};
use book::Layout;
use convert_write::Conversion;

// Writes a book laid out as one version says as another one says.
fn convert_in(book: &[u8], from: Layout, to: Layout, dst: &mut [u8]) -> Result<Size, Refusal>
    ensures { Answered (convert_in from to book.now dst.old) result dst.new }
{
    let checked = book_check::check_in(book, from, &[]).ok_or(Refusal::NotLaidOut)?;
    let n = checked.n;
    let c = Conversion { from, to, n };
    if !convert_write::fits(book, c, dst.len()) {
        return Err(Refusal::TooShort);
    }
    let bytes = convert_write::fill(book, c, dst);
    Ok(Size { entries: n, bytes })
}

// Converts a book, by its byte 0 alone: 21 goes up to 22, 22 back to 21. A buffer with another byte 0, or none, is read
// as 22, which it is not: 1.
pub fn convert(book: &[u8], dst: &mut [u8]) -> Result<Size, Refusal>
    ensures { Answered (convert_book book.now dst.old) result dst.new }
{
    let old = book_layout::old();
    let today = book_layout::today();
    if book_check::is_old(book) {
        return convert_in(book, old, today, dst);
    }
    convert_in(book, today, old, dst)
}
