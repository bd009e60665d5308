// The rows of a panel, as positions in the book: those offered for its text, the first alone, and the one that has the
// held name.
#![tactic(auto)]

ghost use Rattle.std.specs.Prelude.{◌≡◌, ◌<◌, ◌≤◌};
ghost use Rattle.entries.specs.Completion.{max_count};
ghost use Rattle.entries.specs.Names.{longest_name};
ghost use Rattle.completion_book.specs.Offers.{Sought};
ghost use Rattle.panel.specs.Panel.{held_in, offered_for, row_with, typed_in};
ghost use Rattle.panel_rows.specs.Rows.{OnRow, Rows, RowsAll, row_at, row_of};

use book_held::Book;
use book_seek::Seek;
use limits::PANEL_COUNT;

// A row: its number, how many rows there are, and the position of its name, none without rows.
#[derive(Clone, Copy)]
pub struct Row {
    pub number: usize,
    pub rows: usize,
    pub position: Option<usize>,
}

// The first row of the panel's text; for the others nothing is looked at.
pub fn first_row(book: &Book<'_>, p: panel::Panel) -> Row
    requires { p.len ≤ longest_name }
    ensures { OnRow book.now (typed_in p) result × (result.number ≡ 0) }
{
    let found = book_skip::seek(book, &p.text[..p.len]);
    let first = found.place;
    let end = found.past;
    if end <= first {
        return Row {
            number: 0,
            rows: 0,
            position: None,
        };
    }
    // says that the entries are such as a book may have
    let _ = book.len();
    let all = completion_turn::open_range(book, first, end);
    Row {
        number: 0,
        rows: PANEL_COUNT.min(end - first),
        position: Some(all.best),
    }
}

// What is offered for the text that was sought.
pub fn rows_of(book: &Book<'_>, seek: Seek) -> completion_turn::Progress
    requires { Sought book.now seek }
    ensures { RowsAll book.now seek result }
{
    // says that the entries are such as a book may have
    let _ = book.len();
    completion_book::offers(book, seek, PANEL_COUNT)
}

// One of the rows, by its number.
pub fn row_at(s: completion_turn::Progress, number: usize) -> Row
    requires { number < max_count }
    ensures { result ≡ row_at s number }
{
    Row {
        number,
        rows: s.count,
        position: (number < s.count).then_some(s.offered[number]),
    }
}

// The row of a position, if it is in one of them.
fn row_of(rows: &[usize], position: usize) -> Option<usize>
    ensures { result ≡ row_of position rows.now }
{
    rows.iter().position(|row| *row == position)
}

// The row that has the held name; another row if the name is not offered.
pub fn held_row(
    book: &Book<'_>,
    p: panel::Panel,
    s: completion_turn::Progress,
    other: usize,
) -> usize
    requires { Rows book.now (typed_in p) s × (p.held_len ≤ longest_name) }
    ensures { result ≡ row_with (held_in p) (offered_for book.now (typed_in p)) other }
{
    let found = book_skip::seek(book, &p.held[..p.held_len]);
    if !found.same {
        return other;
    }
    row_of(s.so_far(), found.place).unwrap_or(other)
}
