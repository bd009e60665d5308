// The names at some positions of a book that was checked, unpacked into rows of 48 bytes in one pass over its records:
// the positions come in any order, the names stand in name order.
#![tactic(auto)]

ghost use Rattle.std.specs.Prelude.{◌*◌, ◌+◌, ◌<◌, ◌≤◌, length};
ghost use Rattle.entries.specs.Names.{longest_name};
ghost use Rattle.book_rows.specs.Rows.{Fillable, Filled, Nearer, Placed, Put, RowRoom, Wanted};

use book_held::Book;
use book_laws::Cursor;
use limits::LONGEST_NAME;

// The position, where it is not before `from` and is before the least so far, else that one.
fn nearer(position: usize, from: usize, least: usize) -> usize
    ensures { Nearer position from least result }
{
    if position < from {
        return least;
    }
    position.min(least)
}

// The least position wanted that is not before `from`, or `end` if there is none before it.
fn next_wanted(wanted: &[usize], from: usize, end: usize) -> usize
    requires { from ≤ end }
    ensures { Wanted wanted.now from end result }
{
    let mut least = end;
    for position in wanted {
        least = nearer(*position, from, least);
    }
    least
}

// Stores the name of the record before the cursor as row j, and its length, if its position is the one of that row.
// What stands behind the name does not matter, so its whole array is copied.
fn put_row(c: Cursor, position: usize, j: usize, rows: &mut [u8], lens: &mut [usize])
    requires { (0 < c.index) × (c.len ≤ longest_name) × (j * longest_name + longest_name ≤ length rows.old)
        × (j < length lens.old) }
    ensures { Put c position j rows.old lens.old rows.new lens.new }
{
    if position != c.index - 1 {
        return;
    }
    let name = c.name;
    octets_code::copy(rows, j * LONGEST_NAME, &name);
    lens[j] = c.len;
}

// The same for every row.
fn put_rows(c: Cursor, wanted: &[usize], rows: &mut [u8], lens: &mut [usize])
    requires { (0 < c.index) × (c.len ≤ longest_name) × RowRoom (length wanted.now) (length rows.old)
        (length lens.old) }
    ensures { Placed c wanted.now rows.old lens.old rows.new
        lens.new }
{
    for (j, position) in wanted.iter().enumerate() {
        put_row(c, *position, j, rows, lens);
    }
}

// Stores the names at the positions wanted: the name at the j-th as row j, and its length. The records are read once,
// from the cursor up to the last one wanted.
pub fn fill(book: &Book<'_>, start: Cursor, wanted: &[usize], rows: &mut [u8], lens: &mut [usize])
    requires { Fillable book.now start wanted.now
        × RowRoom (length wanted.now) (length rows.old) (length lens.old) }
    ensures { Filled book.now wanted.now rows.new lens.new }
{
    let n = book.len();
    let mut c = start;
    let mut next = next_wanted(wanted, start.index, n);
    // it goes on from one position wanted to the next, so it counts no index
    while next < n {
        c = book_name::read_to(book, c, next);
        put_rows(c, wanted, rows, lens);
        next = next_wanted(wanted, c.index, n);
    }
}
