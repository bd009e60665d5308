// Completion from a book: what is asked is checked, the range machine runs, and the entries offered are written.
#![tactic(auto)]

ghost use Rattle.std.specs.Prelude.{◌≡◌, true, ◌+◌, ◌<◌, ◌≤◌, length, Ok};
ghost use Rattle.std.proofs.lemmas.List.Edits.{sets};
ghost use Rattle.octets.specs.Octets.{overwrite};
ghost use Rattle.entries.specs.Completion.{max_count};
ghost use Rattle.entries.specs.Entries.{at, valid};
ghost use Rattle.answer.specs.Answers.{entries_bytes, entry_bytes};
ghost use Rattle.completion.specs.Complete.{Completed, complete_book, entry_room};
ghost use Rattle.completion_turn.specs.Turns.{so_far};
ghost use Rattle.completion_book.specs.Offers.{AskedAs, MayWait, OffersAll, Sought, Writable, Written};
ghost use Rattle.completion_book.specs.Offers.{entries_at, outcome_of};

use answer::{Offered, Refusal};
use book_check::Checked;
use book_held::Book;
use book_seek::Seek;
use completion::Range;
use completion_turn::Progress;
use limits::{ENTRY_ROOM, LONGEST_NAME, MAX_COUNT};

// The bytes of the rows that the names offered are unpacked into.
const ROWS: usize = LONGEST_NAME * MAX_COUNT;

// A slot in which no open range waits.
const NO_RANGE: Range = Range {
    first: 0,
    best: 0,
    score: 0,
    last: 0,
};

// Checks what completion is asked, in the table's order: how many entries the book has, and where the prefix stands
// among their names.
pub fn check_asked<'a>(
    book: &'a [u8],
    prefix: &[u8],
    k: usize,
    room: usize,
    lent: usize,
) -> Result<Checked<'a>, Refusal>
    ensures { AskedAs book.now prefix.now k room lent result }
{
    let c = book_check::check(book, prefix)?;
    if !entries_check::is_prefix(prefix) {
        return Err(Refusal::NotAllowed);
    }
    if k == 0 {
        return Err(Refusal::CountOutOfRange);
    }
    if MAX_COUNT < k {
        return Err(Refusal::CountOutOfRange);
    }
    if room < ENTRY_ROOM * k {
        return Err(Refusal::TooShort);
    }
    if lent < k {
        return Err(Refusal::TooShort);
    }
    Ok(c)
}

// Writes the entry at a position, whose name is given, as an answer entry: where it ends.
fn put_position(book: &Book<'_>, position: usize, name: &[u8], dst: &mut [u8], to: usize) -> usize
    requires { (valid book.now ≡ true) × (position < length book.now)
        × (name.now ≡ (at book.now position).name) × (to + entry_room ≤ length dst.old) }
    ensures { (dst.new ≡ sets dst.old to
        (entry_bytes (at book.now position)))
        × (result ≡ to + length (entry_bytes (at book.now position))) }
{
    answer_write::put_entry(dst, to, name, book.score(position))
}

// Writes the entries at the positions offered, in order, with their names from the rows: their bytes.
fn put_entries(
    book: &Book<'_>,
    offered: &[usize],
    rows: &[u8],
    lens: &[usize],
    dst: &mut [u8],
) -> usize
    requires { Written book.now offered.now rows.now lens.now dst.old }
    ensures { (dst.new ≡ overwrite dst.old
        (entries_bytes (entries_at book.now offered.now)))
        × (result ≡ length (entries_bytes (entries_at book.now offered.now))) }
{
    let mut end = 0;
    for (i, position) in offered.iter().enumerate() {
        let from = i * LONGEST_NAME;
        let to = from + lens[i];
        end = put_position(book, *position, &rows[from..to], dst, end);
    }
    end
}

// Writes the entries offered, in order: their bytes. The names are unpacked in one pass over the records of the
// matches, up to the last one offered.
fn put_offered(book: &Book<'_>, prefix: &[u8], s: Progress, dst: &mut [u8]) -> usize
    requires { Writable book.now prefix.now dst.old s }
    ensures { (dst.new ≡ overwrite dst.old
        (entries_bytes (entries_at book.now (so_far s))))
        × (result ≡ length (entries_bytes (entries_at book.now (so_far s)))) }
{
    // `len` says that the entries are valid, so that their names fit the rows
    let _entries = book.len();
    let start = book_name::primed(prefix, s.first, s.from);
    let mut rows = [0u8; ROWS];
    let mut lens = [0usize; MAX_COUNT];
    book_rows::fill(book, start, s.so_far(), &mut rows, &mut lens);
    put_entries(book, s.so_far(), &rows, &lens, dst)
}

// The answer of a machine that has run: the entries offered are written.
pub fn write_answer(book: &Book<'_>, prefix: &[u8], s: Progress, dst: &mut [u8]) -> Offered
    requires { Writable book.now prefix.now dst.old s }
    ensures { Completed (outcome_of book.now s dst.old) (Ok result) dst.new }
{
    let bytes = put_offered(book, prefix, s, dst);
    Offered {
        offered: s.count,
        bytes,
        looks: s.looks,
    }
}

// The positions that completion offers from a book that was checked, for the prefix that was sought in it. The matching
// positions are the first open range; the open ranges wait in the slots that are lent.
pub fn offers_over(book: &Book<'_>, seek: Seek, k: usize, ranges: &mut [Range]) -> Progress
    requires { Sought book.now seek × MayWait k (length ranges.old) }
    ensures { OffersAll book.now seek k result }
{
    // `len` says that the entries are valid, so that they stand in name order
    let _entries = book.len();
    let filled = completion_turn::put(book, seek.place, seek.past, ranges, 0);
    let start = Progress {
        turns: k,
        filled,
        offered: [0; MAX_COUNT],
        count: 0,
        looks: filled,
        first: seek.place,
        from: seek.at,
    };
    completion_slots::run(book, ranges, start)
}

// The same for callers who lend no slots.
pub fn offers(book: &Book<'_>, seek: Seek, k: usize) -> Progress
    requires { Sought book.now seek × (k ≤ max_count) }
    ensures { OffersAll book.now seek k result }
{
    let mut ranges = [NO_RANGE; MAX_COUNT];
    offers_over(book, seek, k, &mut ranges)
}

// Completion for callers who lend no ranges.
pub fn complete_in(book: &[u8], prefix: &[u8], k: usize, dst: &mut [u8]) -> Result<Offered, Refusal>
    ensures { Completed (complete_book book.now prefix.now k dst.old k) result
        dst.new }
{
    let c = check_asked(book, prefix, k, dst.len(), k)?;
    let held = c.book();
    let s = offers(&held, c.seek, k);
    Ok(write_answer(&held, prefix, s, dst))
}
