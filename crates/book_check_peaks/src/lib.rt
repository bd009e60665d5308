// Whether each block's peak is its best position: fast where a block is whole and no score of it beats the peak's, else
// position by position.
#![tactic(auto)]

ghost use Rattle.std.specs.Prelude.{◌≡◌, true, ◌+◌, ◌<◌, ◌≤◌};
ghost use Rattle.octets.specs.Lists.{ceil};
ghost use Rattle.entries.specs.Entries.{max_entries};
ghost use Rattle.book.specs.Book.{block_size};
ghost use Rattle.book_laws.specs.Check.{peak_is, peaks_are};
ghost use Rattle.book_check_peaks.specs.Unbeaten.{Unbeaten};

use book::Layout;
use limits::{BLOCK_SIZE, SCORE_BYTES};

// The bytes of the scores of a block: `block_bytes`.
const BLOCK_BYTES: usize = SCORE_BYTES * BLOCK_SIZE;

// Whether the peak of block j is its best position.
fn peak_is(buf: &[u8], l: Layout, n: usize, j: usize) -> bool
    requires { (n ≤ max_entries) × (j < ceil n block_size) }
    ensures { result ≡ peak_is l n j buf.now }
{
    let peak = book_layout::peak_at(buf, l, n, j);
    peak == book_layout::best_between(buf, BLOCK_SIZE * j, book_layout::block_end(n, j))
}

// What a score at place i must be below, where the top one is at another place: the top one or, from its place on, one
// more.
fn bound(top: u32, place: usize, i: usize) -> usize
    ensures { (result ≤ top + 1) × (i < place → result ≡ top) }
{
    if i < place {
        return top as usize;
    }
    top as usize + 1
}

// 0 where a score is below a bound, else 1.
fn beats(score: u32, bound: usize) -> usize
    ensures { (result ≤ 1) × (result ≡ 0 → score < bound) }
{
    if (score as usize) < bound { 0 } else { 1 }
}

// Whether no score of a whole block beats the one at a place: no branch goes by a score.
fn stands(block: &[u8], place: usize) -> bool
    requires { place < block_size }
    ensures { result ≡ true → Unbeaten block.now place }
{
    let top = octets_code::read_u32(block, SCORE_BYTES * place);
    let mut beaten = 0;
    for i in 0..BLOCK_SIZE {
        beaten += beats(
            octets_code::read_u32(block, SCORE_BYTES * i),
            bound(top, place, i),
        );
    }
    beaten == 0
}

// Whether block j is whole and no score of it beats its peak's.
fn peak_stands(buf: &[u8], l: Layout, n: usize, j: usize) -> bool
    requires { (n ≤ max_entries) × (j < ceil n block_size) }
    ensures { result ≡ true → peak_is l n j buf.now ≡ true }
{
    let first = BLOCK_SIZE * j;
    if n < first + BLOCK_SIZE {
        return false;
    }
    let peak = book_layout::peak_at(buf, l, n, j);
    if peak < first {
        return false;
    }
    let place = peak - first;
    if BLOCK_SIZE <= place {
        return false;
    }
    let from = book_layout::score_start(first);
    let end = from + BLOCK_BYTES;
    if buf.len() < end {
        return false;
    }
    stands(&buf[from..end], place)
}

// The same as peak_is, mostly faster.
fn peak_right(buf: &[u8], l: Layout, n: usize, j: usize) -> bool
    requires { (n ≤ max_entries) × (j < ceil n block_size) }
    ensures { result ≡ peak_is l n j buf.now }
{
    if peak_stands(buf, l, n, j) {
        return true;
    }
    peak_is(buf, l, n, j)
}

// Whether each block's peak is its best position.
pub fn peaks_are(buf: &[u8], l: Layout, n: usize) -> bool
    requires { n ≤ max_entries }
    ensures { result ≡ peaks_are l (ceil n block_size) n 0 buf.now }
{
    for j in 0..book_layout::blocks(n) {
        if !peak_right(buf, l, n, j) {
            return false;
        }
    }
    true
}
