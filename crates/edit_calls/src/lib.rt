// The edits: empty, set and withdraw. Each writes the new book at the front of another buffer.
#![tactic(auto)]

ghost use Rattle.edit.specs.Edits.{empty_book, set_entry, withdraw_entry};
ghost use Rattle.answer.specs.Reports.{Answered};

use answer::{Refusal, Size};
use limits::{FRAME_LENGTH, MAX_ENTRIES};

// Writes the book of no entries.
pub fn empty(dst: &mut [u8]) -> Result<Size, Refusal>
    ensures { Answered (empty_book dst.old) result dst.new }
{
    if dst.len() < FRAME_LENGTH {
        return Err(Refusal::TooShort);
    }
    book_write::finish(dst, book_layout::today(), 0, FRAME_LENGTH);
    Ok(Size {
        entries: 0,
        bytes: FRAME_LENGTH,
    })
}

// Adds a name, or gives it a new score: the result stands at the front of another buffer.
pub fn set(book: &[u8], name: &[u8], score: u32, dst: &mut [u8]) -> Result<Size, Refusal>
    ensures { Answered (set_entry book.now name.now score dst.old) result
        dst.new }
{
    let c = book_check::check(book, name)?;
    if !entries_check::is_name(name) {
        return Err(Refusal::NotAllowed);
    }
    let found = c.seek;
    let held = c.book();
    if found.same {
        return edit_rescore::write_score(&held, found.place, score, dst);
    }
    let n = held.len();
    if MAX_ENTRIES <= n {
        return Err(Refusal::Full);
    }
    edit_copy::write_with(book_layout::today(), book, n, found, name, score, dst)
}

// Removes a name: the result stands at the front of another buffer.
pub fn withdraw(book: &[u8], name: &[u8], dst: &mut [u8]) -> Result<Size, Refusal>
    ensures { Answered (withdraw_entry book.now name.now dst.old) result
        dst.new }
{
    let c = book_check::check(book, name)?;
    if !entries_check::is_name(name) {
        return Err(Refusal::NotAllowed);
    }
    let Some(_) = lookup_find::find_in(book, c.seek) else {
        return Err(Refusal::NotHeld);
    };
    let n = c.book().len();
    edit_copy::write_without(book_layout::today(), book, n, c.seek, name, dst)
}
