// A book's parts by number: how many entries and bytes it has, and the entry at a position. No key is sought, so the
// check is given an empty one.
#![tactic(auto)]

ghost use Rattle.std.specs.Prelude.{◌≡◌};
ghost use Rattle.lookup.specs.Lookups.{check_book, name_at};
ghost use Rattle.answer.specs.Reports.{Answered, written_of};

use answer::{Refusal, Size};

// Checks the book at the front of a buffer: how many entries it has, and how many bytes its image.
pub fn check(book: &[u8]) -> Result<Size, Refusal>
    ensures { written_of result ≡ check_book book.now }
{
    let checked = book_check::check(book, &[])?;
    let entries = checked.book().len();
    let bytes = book_layout::image_length(book);
    Ok(Size { entries, bytes })
}

// Writes the entry at a position as one answer entry.
pub fn name_at(book: &[u8], position: usize, dst: &mut [u8]) -> Result<Size, Refusal>
    ensures { Answered (name_at book.now position dst.old) result dst.new }
{
    let c = book_check::check(book, &[])?;
    let held = c.book();
    let n = held.len();
    if n <= position {
        return Err(Refusal::NoSuchPlace);
    }
    let cursor = book_name::name_at(&held, position);
    let len = cursor.len;
    let name = cursor.name;
    answer_write::write_entry(&name[..len], held.score(position), dst)
}
