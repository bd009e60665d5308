// The layout of today and the old one; where things stand in the image of a book of n entries, and the scores, offsets
// and peaks that stand there; the length that the image says.
#![tactic(auto)]

ghost use Rattle.std.specs.Prelude.{◌≡◌, true, length, ◌<◌, ◌≤◌};
ghost use Rattle.octets.specs.Lists.{ceil};
ghost use Rattle.entries.specs.Entries.{max_entries};
ghost use Rattle.book.specs.Records.{head_at};
ghost use Rattle.book.specs.Book.{block_size, book_image, buckets, in_book, is_book, layout21, records_at};
ghost use Rattle.book.specs.Book.{today};
ghost use Rattle.book_laws.specs.Check.{best_between, better_of, block_end, offset_at, offset_start, peak_at, peak_start};
ghost use Rattle.book_laws.specs.Check.{score_at, score_start};

use book::Layout;
use limits::{
    BLOCK_SIZE, BOOK_HEADS, BOOK_VERSION, BUCKET_SIZE, FRAME_LENGTH, OLD_BOOK_HEADS,
    OLD_BOOK_VERSION, SCORE_BYTES, TOTAL_AT,
};

// The bytes of an offset, and those of a peak.
const OFFSET_BYTES: usize = 2;

const PEAK_BYTES: usize = 2;

// The bytes of the image of a book that was checked.
pub fn image_length(book: &[u8]) -> usize
    requires { is_book book.now ≡ true }
    ensures { result ≡ length (book_image (in_book book.now)) }
{
    octets_code::read_u32(book, TOTAL_AT) as usize
}

// The layout that every call but the converter reads and writes.
pub fn today() -> Layout
    ensures { result ≡ today }
{
    Layout {
        version: BOOK_VERSION,
        heads: BOOK_HEADS,
    }
}

// The layout of old books, which are only converted.
pub fn old() -> Layout
    ensures { result ≡ layout21 }
{
    Layout {
        version: OLD_BOOK_VERSION,
        heads: OLD_BOOK_HEADS,
    }
}

// How many bucket offsets a book of n entries has, the last bucket perhaps shorter; none without heads.
pub fn buckets(heads: bool, n: usize) -> usize
    requires { n ≤ max_entries }
    ensures { (result ≡ buckets heads n) × (result ≤ max_entries) }
{
    if !heads {
        return 0;
    }
    n.div_ceil(BUCKET_SIZE)
}

// How many blocks n entries have, the last perhaps shorter.
pub fn blocks(n: usize) -> usize
    requires { n ≤ max_entries }
    ensures { result ≡ ceil n block_size }
{
    n.div_ceil(BLOCK_SIZE)
}

// Whether the name at a position is a bucket's head.
pub fn is_head(heads: bool, index: usize) -> bool
    ensures { result ≡ head_at heads index }
{
    heads && index % BUCKET_SIZE == 0
}

// Where block j of n positions ends.
pub fn block_end(n: usize, j: usize) -> usize
    requires { j < max_entries }
    ensures { result ≡ block_end n j }
{
    let full = BLOCK_SIZE * j + BLOCK_SIZE;
    n.min(full)
}

// Where the score of a position stands, in a book of any number of entries.
pub fn score_start(i: usize) -> usize
    requires { i ≤ max_entries }
    ensures { result ≡ score_start i }
{
    FRAME_LENGTH + SCORE_BYTES * i
}

// Where the offset of a bucket stands: the offsets are behind the scores.
pub fn offset_start(n: usize, bucket: usize) -> usize
    requires { (n ≤ max_entries) × (bucket ≤ max_entries) }
    ensures { result ≡ offset_start n bucket }
{
    score_start(n) + OFFSET_BYTES * bucket
}

// Where the peak of block j stands: the peaks are behind the offsets.
pub fn peak_start(l: Layout, n: usize, j: usize) -> usize
    requires { (n ≤ max_entries) × (j ≤ max_entries) }
    ensures { result ≡ peak_start l n j }
{
    offset_start(n, buckets(l.heads, n)) + PEAK_BYTES * j
}

// Where the records begin: behind the peaks.
pub fn records_at(l: Layout, n: usize) -> usize
    requires { n ≤ max_entries }
    ensures { result ≡ records_at l n }
{
    peak_start(l, n, blocks(n))
}

// The score of a position.
pub fn score_at(buf: &[u8], i: usize) -> u32
    requires { i ≤ max_entries }
    ensures { result ≡ score_at buf.now i }
{
    octets_code::read_u32(buf, score_start(i))
}

// The offset of a bucket.
pub fn offset_at(buf: &[u8], n: usize, bucket: usize) -> usize
    requires { (n ≤ max_entries) × (bucket ≤ max_entries) }
    ensures { result ≡ offset_at buf.now n bucket }
{
    octets_code::read_u16(buf, offset_start(n, bucket)) as usize
}

// The peak of block j.
pub fn peak_at(buf: &[u8], l: Layout, n: usize, j: usize) -> usize
    requires { (n ≤ max_entries) × (j ≤ max_entries) }
    ensures { result ≡ peak_at l buf.now n j }
{
    octets_code::read_u16(buf, peak_start(l, n, j)) as usize
}

// The better of two positions, of which b is the earlier one. It is the one that outranks the other (`outranks` in
// crates/entries/specs/Entries.antt): the positions stand in name order, so that at equal scores the position alone
// decides, and the earlier one wins.
pub fn better(buf: &[u8], b: usize, i: usize) -> usize
    requires { (b ≤ max_entries) × (i ≤ max_entries) }
    ensures { result ≡ better_of buf.now b i }
{
    if score_at(buf, b) < score_at(buf, i) {
        i
    } else {
        b
    }
}

// The best of the positions from first to before end, with the tie decided as in `better`: a later position needs a
// higher score.
pub fn best_between(buf: &[u8], first: usize, end: usize) -> usize
    requires { (first < end) × (end ≤ max_entries) }
    ensures { (result ≡ best_between buf.now first end) × (result < end) }
{
    let mut b = first;
    let mut best = score_at(buf, first);
    for i in first + 1..end {
        let score = score_at(buf, i);
        if best < score {
            b = i;
            best = score;
        }
    }
    b
}
