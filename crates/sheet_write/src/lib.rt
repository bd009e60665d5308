// A book built from a sheet that was checked, and a sheet listed from a book: each measured, then written.
#![tactic(auto)]

ghost use Rattle.std.specs.Prelude.{◌≡◌, ◌≤◌, length};
ghost use Rattle.octets.specs.Octets.{overwrite};
ghost use Rattle.frame.specs.Frame.{entries_of};
ghost use Rattle.book.specs.Book.{book_image};
ghost use Rattle.sheet_check.specs.Held.{HeldSheet};
ghost use Rattle.sheet.specs.Sheet.{read_sheet, sheet_image};

use book_held::Book;
use book_write::Slot;
use limits::{BOOK_HEADS, ENTRY_OVERHEAD, FRAME_LENGTH, LONGEST_NAME, SCORE_BYTES, SHEET_VERSION};

// The bytes of the book that a sheet makes.
pub fn book_size(sheet: &[u8], n: usize) -> usize
    requires { HeldSheet sheet.now n }
    ensures { result ≡ length (book_image (entries_of (read_sheet sheet.now))) }
{
    let mut total = book_layout::records_at(book_layout::today(), n);
    let mut at = FRAME_LENGTH;
    let mut prev: &[u8] = &[];
    for i in 0..n {
        let start = at + 1;
        let end = start + sheet[at] as usize;
        let name = &sheet[start..end];
        total += book_record_write::record_size(BOOK_HEADS, i, prev, name);
        prev = name;
        at = end + SCORE_BYTES;
    }
    total
}

// Writes that book, for which there is room.
pub fn fill_book(sheet: &[u8], n: usize, total: usize, dst: &mut [u8])
    requires { HeldSheet sheet.now n × (total ≡ length (book_image (entries_of (read_sheet sheet.now))))
        × (total ≤ length dst.old) }
    ensures { dst.new ≡ overwrite dst.old
        (book_image (entries_of (read_sheet sheet.now))) }
{
    let l = book_layout::today();
    let mut at = book_layout::records_at(l, n);
    let mut from = FRAME_LENGTH;
    let mut prev: &[u8] = &[];
    for i in 0..n {
        let start = from + 1;
        let end = start + sheet[from] as usize;
        let name = &sheet[start..end];
        let score = octets_code::read_u32(sheet, end);
        let slot = Slot {
            layout: l,
            n,
            index: i,
            at,
        };
        at = book_write::put_entry(dst, slot, prev, name, score);
        prev = name;
        from = end + SCORE_BYTES;
    }
    book_write::finish(dst, l, n, total);
}

// The bytes of the sheet that a book makes.
pub fn sheet_size(book: &Book<'_>) -> usize
    ensures { result ≡ length (sheet_image book.now) }
{
    let image = book.image();
    let mut total = FRAME_LENGTH;
    let mut at = book.records_start();
    for i in 0..book.len() {
        let p = book_read::parts_at(BOOK_HEADS, i, &image[at..]);
        total += ENTRY_OVERHEAD + p.kept + p.own;
        at += p.start + p.own;
    }
    total
}

// Writes that sheet, for which there is room.
pub fn fill_sheet(book: &Book<'_>, total: usize, dst: &mut [u8])
    requires { (total ≡ length (sheet_image book.now)) × (total ≤ length dst.old) }
    ensures { dst.new ≡ overwrite dst.old (sheet_image book.now) }
{
    let image = book.image();
    frame_code::put_frame(dst, SHEET_VERSION, total, book.len());
    let mut name = [0; LONGEST_NAME];
    let mut from = book.records_start();
    let mut at = FRAME_LENGTH;
    for i in 0..book.len() {
        let p = book_read::read_name(image, from, BOOK_HEADS, i, &mut name);
        let len = p.kept + p.own;
        let score = book.score(i);
        at = answer_write::put_entry(dst, at, &name[..len], score);
        from += p.start + p.own;
    }
}
