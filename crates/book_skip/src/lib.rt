// The place of a key among the names of a book that was checked, found by the headers of the records: a name's bytes
// are looked at only where they decide.
#![tactic(auto)]

ghost use Rattle.std.specs.Prelude.{◌≡◌, false, length};
ghost use Rattle.entries.specs.Entries.{names};
ghost use Rattle.book.specs.Book.{in_book_in, records_at, today};
ghost use Rattle.book_laws.specs.Held.{HeldIn};
ghost use Rattle.book_seek.specs.Seek.{Seeking};

use book::Layout;
use book_held::Book;
use book_seek::{Order, Record, Seek};
use limits::HEADER_BYTES;

// Where the key stands among the names of a book of n entries, in a layout without heads: the records are passed until
// a name is past the key.
pub fn seek_in(image: &[u8], l: Layout, n: usize, key: &[u8]) -> Seek
    requires { HeldIn l image.now n × (l.heads ≡ false) }
    ensures { Seeking key.now (records_at l n) (names (in_book_in l image.now)) result }
{
    let start = book_layout::records_at(l, n);
    let mut at = start;
    let mut s = book_seek::begin(start);
    let mut limit = book_seek::limit(s, key);
    for index in 0..n {
        let kept = image[at] as usize;
        let own = image[at + 1] as usize;
        let from = at + HEADER_BYTES;
        let end = from + own;
        if kept < limit {
            let record = Record {
                index: index,
                at: at,
                end: end,
                kept: kept,
            };
            s = book_seek::pass(s, record, &image[from..end], key);
            if s.order == Order::Past {
                return s;
            }
            limit = book_seek::limit(s, key);
        }
        at = end;
    }
    book_seek::settle(s, n, at)
}

// The same in a book of today.
pub fn seek(book: &Book<'_>, key: &[u8]) -> Seek
    ensures { Seeking key.now (records_at today (length book.now)) (names book.now) result }
{
    seek_in(book.image(), book_layout::today(), book.len(), key)
}
