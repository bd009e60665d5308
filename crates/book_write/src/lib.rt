// Writes a book entry by entry: scores and records, with heads their offsets too; then its peaks, computed from the
// scores written, and its frame.
#![tactic(auto)]

ghost use Rattle.std.specs.Prelude.{◌≡◌, ◌+◌, ◌<◌, ◌≤◌, length};
ghost use Rattle.octets.specs.Lists.{ceil};
ghost use Rattle.entries.specs.Entries.{max_entries};
ghost use Rattle.book.specs.Book.{block_size};
ghost use Rattle.book_write.specs.Writing.{finished, put_offset, put_peak, put_peaks};
ghost use Rattle.book_write.specs.Calls.{EntryPut, InImage, PutRoom, fields_put, given_put};

use book::Layout;
use limits::{BLOCK_SIZE, BUCKET_SIZE};

// Where an entry is put: as the one at position `index` of a book of n entries in a layout, its record at offset `at`.
#[derive(Clone, Copy)]
pub struct Slot {
    pub layout: Layout,
    pub n: usize,
    pub index: usize,
    pub at: usize,
}

// Stores at as the offset of the bucket whose head is at this position; another position has none.
fn put_offset(dst: &mut [u8], l: Layout, n: usize, index: usize, at: usize)
    requires { (n ≤ max_entries) × (index < max_entries) × (at < 65536) }
    ensures { dst.new ≡ put_offset l n index at dst.old }
{
    if !book_layout::is_head(l.heads, index) {
        return;
    }
    octets_code::write_u16(
        dst,
        book_layout::offset_start(n, index / BUCKET_SIZE),
        at as u16,
    );
}

// Puts what stands of an entry in front of the records: its score, and the offset if it is a bucket's head.
fn put_fields(dst: &mut [u8], slot: Slot, score: u32)
    requires { InImage slot }
    ensures { dst.new ≡ fields_put slot score dst.old }
{
    let l = slot.layout;
    octets_code::write_u32(dst, book_layout::score_start(slot.index), score);
    put_offset(dst, l, slot.n, slot.index, slot.at);
}

// Puts an entry behind the name prev: its score, the offset if it is a bucket's head, the record. Where the record
// ends.
pub fn put_entry(dst: &mut [u8], slot: Slot, prev: &[u8], name: &[u8], score: u32) -> usize
    requires { PutRoom slot dst.old prev.now name.now }
    ensures { EntryPut slot dst.old dst.new prev.now name.now
        score result }
{
    let l = slot.layout;
    put_fields(dst, slot, score);
    book_record_write::put_record(dst, slot.at, l.heads, slot.index, prev, name)
}

// Puts an entry whose record is given: its score, the offset if it is a bucket's head, the record. Where the record
// ends.
pub fn put_given(dst: &mut [u8], slot: Slot, coded: &[u8], score: u32) -> usize
    requires { InImage slot }
    ensures { (dst.new ≡ given_put slot coded.now score dst.old)
        × (result ≡ slot.at + length coded.now) }
{
    put_fields(dst, slot, score);
    octets_code::copy(dst, slot.at, coded);
    slot.at + coded.len()
}

// Stores the peak of block j, computed from the scores in dst.
pub fn put_peak(dst: &mut [u8], l: Layout, n: usize, j: usize)
    requires { (n ≤ max_entries) × (j < ceil n block_size) }
    ensures { dst.new ≡ put_peak l n j dst.old }
{
    let best = book_layout::best_between(dst, BLOCK_SIZE * j, book_layout::block_end(n, j));
    octets_code::write_u16(dst, book_layout::peak_start(l, n, j), best as u16);
}

// Stores the peak of each block.
fn put_peaks(dst: &mut [u8], l: Layout, n: usize)
    requires { n ≤ max_entries }
    ensures { dst.new ≡ put_peaks l (ceil n block_size) n 0 dst.old }
{
    let blocks = book_layout::blocks(n);
    for j in 0..blocks {
        put_peak(dst, l, n, j);
    }
}

// What is left once all n entries are put: the peaks, and the frame of a book of so many bytes.
pub fn finish(dst: &mut [u8], l: Layout, n: usize, total: usize)
    requires { (n ≤ max_entries) × (total < 4294967296) }
    ensures { dst.new ≡ finished l total n dst.old }
{
    put_peaks(dst, l, n);
    frame_code::put_frame(dst, l.version, total, n);
}
