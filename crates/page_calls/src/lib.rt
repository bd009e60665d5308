// A page for the wall: a book laid out as lines.
#![tactic(auto)]

ghost use Rattle.std.specs.Prelude.{◌*◌, ◌≤◌, [], length};
ghost use Rattle.answer.specs.Answers.{writing_image};
ghost use Rattle.answer.specs.Reports.{Answered};
ghost use Rattle.book_table.specs.Table.{TableRoom};
ghost use Rattle.entries.specs.Entries.{max_entries};
ghost use Rattle.entries.specs.Names.{longest_name};
ghost use Rattle.page.specs.Page.{page_image, write_page};

use answer::{Refusal, Size};
use book_held::Book;
use limits::{LONGEST_NAME, MAX_ENTRIES, SMALL_TABLE};

// The bytes of the names in a small table, and in a whole one.
const SMALL_NAMES: usize = LONGEST_NAME * SMALL_TABLE;

const ALL_NAMES: usize = LONGEST_NAME * MAX_ENTRIES;

// Unpacks a book that was checked into a table of so many rows, measures its page and, where there is room, writes it.
// The bytes of the rows' names are a parameter of their own, since none can be computed from another.
fn lay_out<const ROWS: usize, const NAMES: usize>(
    book: &Book<'_>,
    dst: &mut [u8],
) -> Result<Size, Refusal>
    requires { TableRoom (length book.now) NAMES ROWS ROWS × (ROWS ≤ max_entries)
        × (NAMES ≤ longest_name * max_entries) }
    ensures { Answered (writing_image [] book.now (page_image book.now) dst.old) result dst.new }
{
    let n = book.len();
    let mut names = [0; NAMES];
    let mut lens = [0; ROWS];
    let mut scores = [0; ROWS];
    book_table::unpack(book, &mut names, &mut lens, &mut scores);
    let total = page_write::page_size(&lens[..n]);
    if dst.len() < total {
        return Err(Refusal::TooShort);
    }
    page_write::write(&names, &lens[..n], &scores, dst);
    Ok(Size {
        entries: n,
        bytes: total,
    })
}

// Writes the page of a book: the heading, then the lines of each entry, in rank.
pub fn page(book: &[u8], dst: &mut [u8]) -> Result<Size, Refusal>
    ensures { Answered (write_page book.now dst.old) result dst.new }
{
    let c = book_check::check(book, &[])?;
    let held = c.book();
    if held.len() <= SMALL_TABLE {
        lay_out::<SMALL_TABLE, SMALL_NAMES>(&held, dst)
    } else {
        lay_out::<MAX_ENTRIES, ALL_NAMES>(&held, dst)
    }
}
