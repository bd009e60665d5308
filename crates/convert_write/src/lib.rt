// A book that was checked, written in another layout: passed record by record, first to measure, then to write. Where
// both layouts lay a record out alike its bytes are copied.
#![tactic(auto)]

ghost use Rattle.std.specs.Prelude.{◌≡◌, ◌≤◌, leb, length};
ghost use Rattle.octets.specs.Octets.{overwrite};
ghost use Rattle.book.specs.Records.{head_at};
ghost use Rattle.book.specs.Book.{image_in, in_book_in};
ghost use Rattle.book_laws.specs.Held.{HeldIn};
ghost use Rattle.book_append.specs.Append.{BookDone};
ghost use Rattle.convert_write.specs.Passing.{PassRoom, RecordPassed, RecordReady, headed_alike};

use book::Layout;
use book_append::EntryTarget;
use book_write::Slot;
use limits::{LONGEST_BOOK, LONGEST_NAME};

// The layout of a book that was checked, the one that it is written in, and how many entries it has.
#[derive(Clone, Copy)]
pub struct Conversion {
    pub from: Layout,
    pub to: Layout,
    pub n: usize,
}

// Where the next record of the book stands, and how many bytes the name before it has.
#[derive(Clone, Copy)]
struct Source {
    layout: Layout,
    at: usize,
    len: usize,
}

// A record that was passed: where it ends in the book and in what is written, and how many bytes its name has.
#[derive(Clone, Copy)]
struct Passed {
    read: usize,
    written: usize,
    len: usize,
}

// Whether the record at a position is a bucket's head in both layouts, or in neither: then it has the same bytes.
fn headed_alike(a: bool, b: bool, index: usize) -> bool
    ensures { result ≡ headed_alike a b index }
{
    let second = book_layout::is_head(b, index);
    if book_layout::is_head(a, index) {
        return second;
    }
    !second
}

// Passes a record that has the same bytes in both layouts. The name before it, in name, gives way to its own.
fn pass_copy(book: &[u8], src: Source, name: &mut [u8], dst: &mut [u8], to: EntryTarget) -> Passed
    requires { RecordReady book.now src name.old dst.old to
        × (head_at src.layout.heads to.slot.index ≡ head_at to.slot.layout.heads to.slot.index) }
    ensures { RecordPassed book.now src name.old name.new dst.old
        dst.new to result }
{
    let slot = to.slot;
    let l = src.layout;
    let start = src.at;
    let p = book_read::read_name(book, start, l.heads, slot.index, name);
    let end = start + (p.start + p.own);
    let score = book_layout::score_at(book, slot.index);
    let at = book_append::pass_given(dst, to, &book[start..end], score);
    Passed {
        read: end,
        written: at,
        len: p.kept + p.own,
    }
}

// Passes a record that is a bucket's head in one layout only: it is written anew, from both names.
fn pass_anew(book: &[u8], src: Source, name: &mut [u8], dst: &mut [u8], to: EntryTarget) -> Passed
    requires { RecordReady book.now src name.old dst.old to }
    ensures { RecordPassed book.now src name.old name.new dst.old
        dst.new to result }
{
    let slot = to.slot;
    let l = src.layout;
    let mut prev = [0u8; LONGEST_NAME];
    octets_code::copy(&mut prev, 0, &name[..src.len]);
    let p = book_read::read_name(book, src.at, l.heads, slot.index, name);
    let len = p.kept + p.own;
    let score = book_layout::score_at(book, slot.index);
    let at = book_append::pass_entry(dst, to, &prev[..src.len], &name[..len], score);
    Passed {
        read: src.at + (p.start + p.own),
        written: at,
        len: len,
    }
}

// Passes the next record.
fn pass_record(book: &[u8], src: Source, name: &mut [u8], dst: &mut [u8], to: EntryTarget) -> Passed
    requires { RecordReady book.now src name.old dst.old to }
    ensures { RecordPassed book.now src name.old name.new dst.old
        dst.new to result }
{
    let slot = to.slot;
    let l = src.layout;
    let m = slot.layout;
    if headed_alike(l.heads, m.heads, slot.index) {
        return pass_copy(book, src, name, dst, to);
    }
    pass_anew(book, src, name, dst, to)
}

// Passes all records, and answers where the last one ends; without `store` they are only measured, by the same pass, so
// that both give one length.
fn pass(book: &[u8], c: Conversion, dst: &mut [u8], store: bool) -> usize
    requires { PassRoom book.now c dst.old store }
    ensures { BookDone c.to store (in_book_in c.from book.now) dst.old
        dst.new result }
{
    let l = c.from;
    let m = c.to;
    let n = c.n;
    let mut name = [0u8; LONGEST_NAME];
    let mut len = 0;
    let mut next = book_layout::records_at(l, n);
    let mut at = book_layout::records_at(m, n);
    for i in 0..n {
        let src = Source {
            layout: l,
            at: next,
            len: len,
        };
        let slot = Slot {
            layout: m,
            n: n,
            index: i,
            at: at,
        };
        let to = EntryTarget {
            slot: slot,
            store: store,
        };
        let p = pass_record(book, src, &mut name, dst, to);
        next = p.read;
        at = p.written;
        len = p.len;
    }
    at
}

// The bytes of the image that the book's entries have in the other layout.
fn image_size(book: &[u8], c: Conversion) -> usize
    requires { HeldIn c.from book.now c.n }
    ensures { result ≡ length (image_in c.to (in_book_in c.from book.now)) }
{
    let mut none = [0u8; 1];
    pass(book, c, &mut none, false)
}

// Whether so many bytes are room for that image. Where they are for any book, nothing is measured.
pub fn fits(book: &[u8], c: Conversion, room: usize) -> bool
    requires { HeldIn c.from book.now c.n }
    ensures { result ≡ leb (length (image_in c.to (in_book_in c.from book.now))) room }
{
    if LONGEST_BOOK <= room {
        return true;
    }
    image_size(book, c) <= room
}

// Writes that image, for which there is room, and answers how many bytes it has.
pub fn fill(book: &[u8], c: Conversion, dst: &mut [u8]) -> usize
    requires { HeldIn c.from book.now c.n
        × (length (image_in c.to (in_book_in c.from book.now)) ≤ length dst.old) }
    ensures { (dst.new ≡ overwrite dst.old
        (image_in c.to (in_book_in c.from book.now)))
        × (result ≡ length (image_in c.to (in_book_in c.from book.now))) }
{
    let total = pass(book, c, dst, true);
    book_write::finish(dst, c.to, c.n, total);
    total
}
