// The names of a book that was checked, by position: its records are read from a cursor on, each name in the place of
// the one before.
#![tactic(auto)]

ghost use Rattle.std.specs.Prelude.{◌≡◌, ◌+◌, ◌<◌, ◌≤◌, length};
ghost use Rattle.entries.specs.Entries.{at};
ghost use Rattle.entries.specs.Names.{longest_name};
ghost use Rattle.book.specs.Book.{records_at, today};
ghost use Rattle.book_laws.specs.Cursor.{name_in};
ghost use Rattle.book_name.specs.Poised.{Poised, Starts};

use book_held::Book;
use book_laws::Cursor;
use limits::{BOOK_HEADS, LONGEST_NAME};

// A cursor in front of a book's first record.
fn first(book: &Book<'_>) -> Cursor
    ensures { (result.at ≡ records_at today (length book.now)) × (result.index ≡ 0) }
{
    Cursor {
        at: book.records_start(),
        index: 0,
        name: [0u8; LONGEST_NAME],
        len: 0,
    }
}

// A cursor in front of the first record whose name a prefix begins, at a position and an index. The bytes that the
// record keeps of the name before are the prefix's first, so that name need not be known.
pub fn primed(prefix: &[u8], index: usize, at: usize) -> Cursor
    ensures { Starts prefix.now index at result }
{
    let mut name = [0u8; LONGEST_NAME];
    octets_code::copy(&mut name, 0, prefix);
    Cursor {
        at: at,
        index: index,
        name: name,
        len: 0,
    }
}

// From a cursor at or before a position to the one behind it: it holds the name there.
pub fn read_to(book: &Book<'_>, from: Cursor, i: usize) -> Cursor
    requires { (i < length book.now) × (from.index ≤ i) × Poised book.now from }
    ensures { (name_in result ≡ (at book.now i).name) × (result.len ≤ longest_name)
        × (result.index ≡ i + 1) × Poised book.now result }
{
    let image = book.image();
    let mut name = from.name;
    let mut len = from.len;
    let mut at = from.at;
    let end = i + 1;
    for index in from.index..end {
        let p = book_read::read_name(image, at, BOOK_HEADS, index, &mut name);
        at += p.start + p.own;
        len = p.kept + p.own;
    }
    Cursor {
        at: at,
        index: end,
        name: name,
        len: len,
    }
}

// The name at a position, read from the first record on.
pub fn name_at(book: &Book<'_>, i: usize) -> Cursor
    requires { i < length book.now }
    ensures { (name_in result ≡ (at book.now i).name) × (result.len ≤ longest_name) }
{
    read_to(book, first(book), i)
}
