// The trie of a book that was checked: its names unpacked into rows, the groups measured, then written from the last to
// the first.
#![tactic(auto)]

ghost use Rattle.std.specs.Prelude.{◌≡◌, true, ◌+◌, length};
ghost use Rattle.entries.specs.Entries.{valid};
ghost use Rattle.book_table.specs.Table.{Table, entries};
ghost use Rattle.trie_write.specs.Writing.{Groupable, Grouped, TrieWritten};

use book_held::Book;
use limits::{FRAME_LENGTH, LONGEST_LABEL, LONGEST_NAME, MAX_ENTRIES, TRIE_VERSION};
use trie_write_nodes::Target;
use trie_write_runs::{MOST_RUNS, NO_RUN, Run};

// The bytes of a table of names: a row for each.
const NAME_BYTES: usize = LONGEST_NAME * MAX_ENTRIES;

// Rows lo to hi, which share their first d bytes.
#[derive(Clone, Copy)]
struct RowSpan {
    lo: usize,
    hi: usize,
    d: usize,
}

// What stands under one row behind its first d bytes: groups of one node each, the first with the score field s. How
// many bytes of the first `total` stand from where it begins.
fn lone(
    names: &[u8],
    lens: &[u8],
    scores: &[u32],
    row: usize,
    d: usize,
    s: usize,
    dst: &mut [u8],
    to: Target,
) -> usize
    requires { Groupable names.now lens.now scores.now row (row + 1) d s (length dst.old) to.total
        to.back to.store }
    ensures { Grouped (entries names.now lens.now scores.now) row (row + 1) d s
        dst.old dst.new to.total to.back to.store result }
{
    let all = lens[row] as usize;
    let len = LONGEST_LABEL.min(all - d);
    if len == 0 {
        return to.back;
    }
    let high = scores[row];
    let n = lone(names, lens, scores, row, d + len, 0, dst, to);
    let under = (n - to.back) as u32;
    let lo = row as u32;
    let label = len as u32;
    let r = Run {
        lo,
        hi: lo + 1,
        high,
        len: label,
        under,
    };
    trie_write_nodes::finish(names, d, &[r], s, dst, Target { back: n, ..to })
}

// What stands under rows: their group, with the score field s first, and behind it the groups of its nodes, the last
// node's put first. How many bytes of the first `total` stand from where it begins.
fn group(
    names: &[u8],
    lens: &[u8],
    scores: &[u32],
    rows: RowSpan,
    s: usize,
    dst: &mut [u8],
    to: Target,
) -> usize
    requires { Groupable names.now lens.now scores.now rows.lo rows.hi rows.d s (length dst.old)
        to.total to.back to.store }
    ensures { Grouped (entries names.now lens.now scores.now) rows.lo
        rows.hi rows.d s dst.old dst.new to.total to.back to.store result }
{
    if rows.hi - rows.lo == 1 {
        return lone(names, lens, scores, rows.lo, rows.d, s, dst, to);
    }
    let mut runs = [NO_RUN; MOST_RUNS];
    let count = trie_write_rows::split(names, lens, scores, rows.lo, rows.hi, rows.d, &mut runs);
    let mut back = to.back;
    for i in (0..count).rev() {
        let r = runs[i];
        let d = rows.d + r.len as usize;
        let below = RowSpan {
            lo: r.lo as usize,
            hi: r.hi as usize,
            d,
        };
        let n = group(names, lens, scores, below, 0, dst, Target { back, ..to });
        runs[i] = trie_write_runs::with_under(r, (n - back) as u32);
        back = n;
    }
    trie_write_nodes::finish(names, rows.d, &runs[..count], s, dst, Target { back, ..to })
}

// Writes the trie of the table's entries to the front of dst, where it has room: the bytes written, or none if dst is
// too short.
fn write_rows(names: &[u8], lens: &[u8], scores: &[u32], dst: &mut [u8]) -> Option<usize>
    requires { Table names.now lens.now scores.now
        × (valid (entries names.now lens.now scores.now) ≡ true) }
    ensures { TrieWritten (entries names.now lens.now scores.now)
        dst.old result dst.new }
{
    let n = lens.len();
    let high = trie_write_rows::highest_of(names, lens, scores, 0, n);
    let top = high as usize;
    let all = RowSpan { lo: 0, hi: n, d: 0 };
    let measured = Target {
        total: 0,
        back: 0,
        store: false,
    };
    let size = group(names, lens, scores, all, top, dst, measured);
    let total = size + FRAME_LENGTH;
    if dst.len() < total {
        return None;
    }
    frame_code::put_frame(dst, TRIE_VERSION, total, n);
    let stored = Target {
        total,
        back: 0,
        store: true,
    };
    group(names, lens, scores, all, top, dst, stored);
    Some(total)
}

// Writes the trie of a book that was checked, where the destination has room: the bytes written, or none if it is too
// short.
pub fn write(book: &Book<'_>, dst: &mut [u8]) -> Option<usize>
    ensures { TrieWritten book.now dst.old result dst.new }
{
    let n = book.len();
    let mut names = [0; NAME_BYTES];
    let mut lens = [0; MAX_ENTRIES];
    let mut scores = [0; MAX_ENTRIES];
    book_table::unpack(book, &mut names, &mut lens, &mut scores);
    write_rows(&names, &lens[..n], &scores, dst)
}
