// Merges two books into a third buffer: both are passed side by side, first to measure the entries chosen, then to
// write them.
#![tactic(auto)]

ghost use Rattle.std.specs.Prelude.{◌≡◌, ◌≤◌, length};
ghost use Rattle.entries.specs.Entries.{max_entries};
ghost use Rattle.answer.specs.Reports.{Answered};
ghost use Rattle.book_write.specs.Whole.{whole_book};
ghost use Rattle.merge.specs.Joined.{joined, merge_books};
ghost use Rattle.merge_calls.specs.Merging.{Both, PassDone, PassRoom, PassTold, records_length};

use answer::{Refusal, Size};
use book_append::EntryTarget;
use book_held::Book;
use book_write::Slot;
use limits::{LONGEST_NAME, MAX_ENTRIES};

// A pass over the entries chosen: how many were passed, where their records end, whether more are left, which tells of
// both books and makes neither number void.
#[derive(Clone, Copy)]
struct MergePass {
    entries: usize,
    end: usize,
    more: bool,
}

// Passes the entries chosen from both books, at most count of them, as a book of so many: the first record at index at.
fn pass(
    first: &Book<'_>,
    second: &Book<'_>,
    dst: &mut [u8],
    count: usize,
    at: usize,
    store: bool,
) -> MergePass
    requires { PassRoom (joined first.now second.now) dst.old count at store }
    ensures { PassDone (joined first.now second.now) dst.old dst.new count at
        store result }
{
    let l = book_layout::today();
    let mut a = [0u8; LONGEST_NAME];
    let mut b = [0u8; LONGEST_NAME];
    let mut name = [0u8; LONGEST_NAME];
    let mut prev = [0u8; LONGEST_NAME];
    let mut prev_len = 0;
    let mut to_at = at;
    let mut x = merge_read::first_name(first, &mut a);
    let mut y = merge_read::first_name(second, &mut b);
    for index in 0..count {
        let Some(t) = merge_read::next_entry(first, x, &mut a, second, y, &mut b, &mut name) else {
            return MergePass {
                entries: index,
                end: to_at,
                more: false,
            };
        };
        let len = t.len;
        let w = &name[..len];
        let slot = Slot {
            layout: l,
            n: count,
            index,
            at: to_at,
        };
        let target = EntryTarget { slot, store };
        to_at = book_append::pass_next(dst, target, &mut prev, prev_len, w, t.score);
        prev_len = len;
        x = t.first;
        y = t.second;
    }
    let left = x.len + y.len;
    MergePass {
        entries: count,
        end: to_at,
        more: 0 < left,
    }
}

// Measures the entries chosen, at most 1,024 of them, as if the first record stood at index 0.
fn measure(first: &Book<'_>, second: &Book<'_>) -> MergePass
    requires { Both first.now second.now }
    ensures { PassTold (joined first.now second.now) max_entries 0 result }
{
    let mut none = [0u8; 1];
    pass(first, second, &mut none, MAX_ENTRIES, 0, false)
}

// Writes the book of all entries chosen, which are count and whose records have size bytes, where the destination has
// room.
fn write_chosen(
    first: &Book<'_>,
    second: &Book<'_>,
    count: usize,
    size: usize,
    dst: &mut [u8],
) -> Result<Size, Refusal>
    requires { Both first.now second.now × (count ≤ max_entries)
        × (count ≡ length (joined first.now second.now))
        × (size ≡ records_length (joined first.now second.now)) }
    ensures { Answered (whole_book (joined first.now second.now) dst.old)
        result dst.new }
{
    let l = book_layout::today();
    let start = book_layout::records_at(l, count);
    let total = start + size;
    if dst.len() < total {
        return Err(Refusal::TooShort);
    }
    pass(first, second, dst, count, start, true);
    book_write::finish(dst, l, count, total);
    Ok(Size {
        entries: count,
        bytes: total,
    })
}

// Merges two books: every name of either stands in the result once, with the first book's score where both have it. An
// old book comes before a damaged one, whichever of the two it is.
pub fn merge(first: &[u8], second: &[u8], dst: &mut [u8]) -> Result<Size, Refusal>
    ensures { Answered (merge_books first.now second.now dst.old) result
        dst.new }
{
    if book_check::is_old(first) || book_check::is_old(second) {
        return Err(Refusal::OldVersion);
    }
    let one = book_check::check(first, &[])?;
    let other = book_check::check(second, &[])?;
    let ours = one.book();
    let theirs = other.book();
    let r = measure(&ours, &theirs);
    if r.more {
        return Err(Refusal::Full);
    }
    write_chosen(&ours, &theirs, r.entries, r.end, dst)
}
