// The head name of a bucket, a part of the lent book, and its length: only bucket 0 of a book with entries has one, the
// first name.
#![tactic(auto)]

ghost use Rattle.std.specs.Prelude.{◌≡◌, ◌&&◌, true, ◌+◌, ◌<◌, ◌≤◌, eqb, length, ltb};
ghost use Rattle.entries.specs.Entries.{at, max_entries};
ghost use Rattle.book.specs.Book.{records_at, today};
ghost use Rattle.lookup.specs.Lookups.{head_length, head_name};
ghost use Rattle.answer.specs.Reports.{count_of};

use answer::Refusal;
use book_held::Book;
use limits::HEADER_BYTES;

// Whether a bucket of a book of n names has a head.
fn has_head(n: usize, bucket: usize) -> bool
    ensures { (result ≡ (eqb bucket 0 && ltb 0 n)) × (result ≡ true → 0 < n) }
{
    bucket == 0 && 0 < n
}

// Where the head name of a book of n entries begins: behind the common byte and the length of the first record, which
// keeps nothing of a name before, so that the whole name stands there.
pub fn head_start(n: usize) -> usize
    requires { n ≤ max_entries }
    ensures { result ≡ records_at today n + 2 }
{
    book_layout::records_at(book_layout::today(), n) + HEADER_BYTES
}

// The first name of a book with entries, a part of the book: its length is the byte before.
fn first_name<'a>(book: &Book<'a>) -> &'a [u8]
    requires { 0 < length book.now }
    ensures { result.now ≡ (at book.now 0).name }
{
    let image = book.image();
    let n = book.len();
    let start = head_start(n);
    let end = start + image[start - 1] as usize;
    &image[start..end]
}

// The head name of a bucket, a part of the book; empty where `head_length` refuses.
pub fn head<'a>(book: &'a [u8], bucket: usize) -> &'a [u8]
    ensures { result.now ≡ head_name book.now bucket }
{
    let Ok(c) = book_check::check(book, &[]) else {
        return &book[0..0];
    };
    let held = c.book();
    if has_head(held.len(), bucket) {
        return first_name(&held);
    }
    &book[0..0]
}

// The length of that name, or the refusal.
pub fn head_length(book: &[u8], bucket: usize) -> Result<usize, Refusal>
    ensures { count_of result ≡ head_length book.now bucket }
{
    let c = book_check::check(book, &[])?;
    let held = c.book();
    if !has_head(held.len(), bucket) {
        return Err(Refusal::NoSuchPlace);
    }
    Ok(first_name(&held).len())
}
