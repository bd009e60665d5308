// A book with another score at one position: its image copied, the score stored, and the peak of the score's block
// computed again. Names, records and the other peaks are the old book's.
#![tactic(auto)]

ghost use Rattle.std.specs.Prelude.{◌≡◌, length, ◌<◌, ◌≤◌};
ghost use Rattle.octets.specs.Octets.{overwrite};
ghost use Rattle.book.specs.Book.{book_image};
ghost use Rattle.answer.specs.Reports.{Answered};
ghost use Rattle.book_write.specs.Whole.{whole_book};
ghost use Rattle.edit_rescore.specs.Rescored.{rescored};

use answer::{Refusal, Size};
use book_held::Book;
use limits::BLOCK_SIZE;

// Writes a book, of so many bytes, with another score at position i, for which there is room: it has as many bytes as
// before.
fn rescore(book: &Book<'_>, i: usize, score: u32, total: usize, dst: &mut [u8])
    requires { (i < length book.now) × (total ≡ length (book_image book.now))
        × (total ≤ length dst.old) }
    ensures { dst.new ≡ overwrite dst.old (book_image (rescored book.now i score)) }
{
    let image = book.image();
    let n = book.len();
    octets_code::copy(dst, 0, &image[..total]);
    octets_code::write_u32(dst, book_layout::score_start(i), score);
    book_write::put_peak(dst, book_layout::today(), n, i / BLOCK_SIZE);
}

// Writes the book with another score at a position, where the destination has room.
pub fn write_score(book: &Book<'_>, i: usize, score: u32, dst: &mut [u8]) -> Result<Size, Refusal>
    requires { i < length book.now }
    ensures { Answered (whole_book (rescored book.now i score) dst.old) result
        dst.new }
{
    let image = book.image();
    let entries = book.len();
    let total = book_layout::image_length(image);
    if dst.len() < total {
        return Err(Refusal::TooShort);
    }
    rescore(book, i, score, total, dst);
    Ok(Size {
        entries,
        bytes: total,
    })
}
