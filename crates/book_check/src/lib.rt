// The check of a book image: first bytes, records, with heads their offsets too, and peaks; the walk over the records
// also finds the place of a key among their names.
#![tactic(auto)]

ghost use Rattle.std.specs.Prelude.{◌≡◌};
ghost use Rattle.book.specs.Checks.{is_old};
ghost use Rattle.book_check.specs.Checked.{CheckedAs, CheckedIn};

mod known;

use answer::Refusal;
use book::Layout;
use book_seek::Seek;
pub use known::Checked;
use limits::OLD_BOOK_VERSION;

// An image that was checked: how many entries it has, and where the key stands among their names.
#[derive(Clone, Copy)]
pub struct CheckedImage {
    pub n: usize,
    pub seek: Seek,
}

// Checks the book at the front of a buffer, laid out so, and finds where a key stands among its names.
pub fn check_in(buf: &[u8], l: Layout, key: &[u8]) -> Option<CheckedImage>
    ensures { CheckedIn l buf.now key.now result }
{
    let frame = frame_code::check_frame(buf, l.version)?;
    let n = frame.entries;
    let total = frame.total;
    let start = book_layout::records_at(l, n);
    if buf.len() < start {
        return None;
    }
    let walked = book_check_walk::walk(buf, l, n, start, total, key)?;
    let end = walked.end;
    if end != total {
        return None;
    }
    if !book_check_peaks::peaks_are(buf, l, n) {
        return None;
    }
    let seek = walked.seek;
    Some(CheckedImage { n, seek })
}

// Whether byte 0 is an old version's; an empty buffer has none.
pub fn is_old(book: &[u8]) -> bool
    ensures { result ≡ is_old book.now }
{
    book.first() == Some(&OLD_BOOK_VERSION)
}

// Checks the book at the front of a buffer, as every call but the converter does first, and finds where a key stands
// among its names: an old book is declined whatever follows byte 0, and then one that is damaged.
pub fn check<'a>(book: &'a [u8], key: &[u8]) -> Result<Checked<'a>, Refusal>
    ensures { CheckedAs book.now key.now result }
{
    if is_old(book) {
        return Err(Refusal::OldVersion);
    }
    let Some(found) = check_in(book, book_layout::today(), key) else {
        return Err(Refusal::NotLaidOut);
    };
    Ok(Checked {
        image: book,
        n: found.n,
        seek: found.seek,
    })
}
