// The best-ranked position of a range of positions of a book that was checked: peaks for the blocks that the range
// holds whole.
#![tactic(auto)]

ghost use Rattle.std.specs.Prelude.{◌<◌, ◌≤◌, length};
ghost use Rattle.book_best.specs.Best.{BestIn, Tops};

use book_held::Book;
use limits::BLOCK_SIZE;

// The best of some positions in a row, and the position behind them.
#[derive(Clone, Copy)]
struct Stretch {
    best: usize,
    next: usize,
}

// The positions to take at once from i on: a block that begins there and ends in the range, else i alone.
fn stretch_at(book: &Book<'_>, i: usize, end: usize) -> Stretch
    requires { (i < end) × (end ≤ length book.now) }
    ensures { Tops book.now i end result.best result.next }
{
    if i % BLOCK_SIZE == 0 {
        if BLOCK_SIZE <= end - i {
            return Stretch {
                best: book.peak(i / BLOCK_SIZE),
                next: i + BLOCK_SIZE,
            };
        }
    }
    Stretch {
        best: i,
        next: i + 1,
    }
}

// The best-ranked of the positions from first to before end.
pub fn best_in(book: &Book<'_>, first: usize, end: usize) -> usize
    requires { (first < end) × (end ≤ length book.now) }
    ensures { BestIn book.now first end result }
{
    let image = book.image();
    let start = stretch_at(book, first, end);
    let mut b = start.best;
    let mut i = start.next;
    // it goes on by one position or by a whole block, so it counts no index
    while i < end {
        // later positions, so that they need a higher score
        let more = stretch_at(book, i, end);
        b = book_layout::better(image, b, more.best);
        i = more.next;
    }
    b
}
