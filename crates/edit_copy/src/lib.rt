// The book that an edit leaves, of a layout without heads, written from the old image by copies: no name is unpacked,
// and no pass is made over the records. Without heads one record more changes, the one behind the place of the edit,
// and its bytes stand in the old image. Peaks and frame are made anew.
#![tactic(auto)]

ghost use Rattle.std.specs.Prelude.{◌≡◌, ◌≤◌};
ghost use Rattle.std.proofs.lemmas.List.Edits.{sets};
ghost use Rattle.entries.specs.Entries.{entry, with, without};
ghost use Rattle.answer.specs.Reports.{Answered};
ghost use Rattle.book.specs.Book.{in_book_in};
ghost use Rattle.book_write.specs.Whole.{whole_in};
ghost use Rattle.edit_copy.specs.Asked.{Adds, Withdraws};
ghost use Rattle.edit_copy.specs.Copies.{BehindRoom, GoneRoom, HeaderPut, NewRoom, PlanRoom, PlannedWith};
ghost use Rattle.edit_copy.specs.Copies.{PlannedWithout, ScoresRoom, behind_bytes, behind_gone};
ghost use Rattle.edit_copy.specs.Copies.{behind_new, behind_size, nothing, plan_of, scores_spliced};

use answer::{Refusal, Size};
use book::Layout;
use book_seek::Seek;
use limits::{FRAME_LENGTH, HEADER_BYTES, SCORE_BYTES, TOTAL_AT};

// The header of a record: how many bytes it keeps of the name before, and how many it goes on with.
#[derive(Clone, Copy)]
struct Header {
    kept: u8,
    own: u8,
}

// What stands behind the place of an edit in the result: the header of the record there, if there is one, and bytes of
// the old image in two runs.
#[derive(Clone, Copy)]
struct Behind {
    header: Option<Header>,
    // The first run: so many bytes from an index on, which the record that is left out lends to the one behind it.
    from: usize,
    lent: usize,
    // Where the second run begins, which goes on to the end.
    rest: usize,
}

// How the records of the result are made.
#[derive(Clone, Copy)]
struct Plan {
    // Where the records begin, in the old image and in the result.
    old: usize,
    new: usize,
    // Where the records in front of the place end in the result, and where what stands behind it begins.
    start: usize,
    at: usize,
    behind: Behind,
    // Where the old image ends, and the result.
    end: usize,
    total: usize,
}

// No record behind the place.
fn nothing(end: usize) -> Behind
    ensures { result ≡ nothing end }
{
    Behind {
        header: None,
        from: 0,
        lent: 0,
        rest: end,
    }
}

// Behind a new name: the record there keeps what its name shares with the new one, and goes on with fewer bytes than it
// did.
fn behind_new(book: &[u8], end: usize, n: usize, s: Seek) -> Behind
    requires { NewRoom book.now n s }
    ensures { result ≡ behind_new book.now end n s }
{
    if n <= s.place {
        return nothing(end);
    }
    let at = s.at;
    let more = s.above - book[at] as usize;
    let own = book[at + 1] as usize - more;
    let header = Header {
        kept: s.above as u8,
        own: own as u8,
    };
    Behind {
        header: Some(header),
        from: 0,
        lent: 0,
        rest: at + HEADER_BYTES + more,
    }
}

// Behind the record at index `at` that is left out, which keeps so many bytes and goes on with so many: the record
// there keeps no more than that one did, and goes on with the bytes that it kept beyond them.
fn behind_gone(book: &[u8], end: usize, at: usize, kept: usize, own: usize) -> Behind
    requires { GoneRoom book.now end at kept own }
    ensures { result ≡ behind_gone book.now end at kept own }
{
    let from = at + HEADER_BYTES;
    let next = from + own;
    if end <= next {
        return nothing(end);
    }
    let old = book[next] as usize;
    let new = kept.min(old);
    let lent = old - new;
    let all = lent + book[next + 1] as usize;
    let header = Header {
        kept: new as u8,
        own: all as u8,
    };
    Behind {
        header: Some(header),
        from: from,
        lent: lent,
        rest: next + HEADER_BYTES,
    }
}

// The bytes behind the place.
fn behind_size(b: Behind, end: usize) -> usize
    requires { (b.rest ≤ end) × (b.lent ≤ end) × (end ≤ 65536) }
    ensures { result ≡ behind_size end b }
{
    let runs = b.lent + (end - b.rest);
    match b.header {
        Some(_) => HEADER_BYTES + runs,
        None => runs,
    }
}

// A plan for so many entries: behind the records in front of the place come so many bytes of a new record, and then
// what stands `behind`.
fn make_plan(
    l: Layout,
    n: usize,
    count: usize,
    s: Seek,
    own: usize,
    behind: Behind,
    end: usize,
) -> Plan
    requires { PlanRoom l n count s own behind end }
    ensures { result ≡ plan_of l n count s own behind end }
{
    let old = book_layout::records_at(l, n);
    let new = book_layout::records_at(l, count);
    let start = new + (s.at - old);
    let at = start + own;
    let total = at + behind_size(behind, end);
    Plan {
        old: old,
        new: new,
        start: start,
        at: at,
        behind: behind,
        end: end,
        total: total,
    }
}

// How a new name is put in: behind the records in front of it comes its own.
fn plan_with(l: Layout, book: &[u8], n: usize, s: Seek, name: &[u8]) -> Plan
    requires { Adds l book.now n name.now s }
    ensures { PlannedWith l book.now n name.now s result }
{
    let end = octets_code::read_u32(book, TOTAL_AT) as usize;
    let own = HEADER_BYTES + (name.len() - s.below);
    let behind = behind_new(book, end, n, s);
    make_plan(l, n, n + 1, s, own, behind, end)
}

// How a held name is left out: behind the records in front of it comes what stands behind its own.
fn plan_without(l: Layout, book: &[u8], n: usize, s: Seek, name: &[u8]) -> Plan
    requires { Withdraws l book.now n name.now s }
    ensures { PlannedWithout l book.now n s result }
{
    let end = octets_code::read_u32(book, TOTAL_AT) as usize;
    let behind = behind_gone(book, end, s.at, s.below, name.len() - s.below);
    make_plan(l, n, n - 1, s, 0, behind, end)
}

// Stores the header, if there is one, at index at. Where it ends.
fn put_header(dst: &mut [u8], at: usize, b: Behind) -> usize
    requires { at ≤ 65536 }
    ensures { HeaderPut dst.old dst.new at b result }
{
    let Some(header) = b.header else {
        return at;
    };
    let bytes = [header.kept, header.own];
    octets_code::copy(dst, at, &bytes);
    at + HEADER_BYTES
}

// Stores all that stands behind the place, from index at on.
fn put_behind(dst: &mut [u8], at: usize, book: &[u8], end: usize, b: Behind)
    requires { BehindRoom at book.now end b }
    ensures { dst.new ≡ sets dst.old at (behind_bytes book.now end b) }
{
    let to = put_header(dst, at, b);
    let from = b.from;
    let lent = b.lent;
    let rest = b.rest;
    octets_code::copy(dst, to, &book[from..from + lent]);
    octets_code::copy(dst, to + lent, &book[rest..end]);
}

// Stores the scores of n entries, with those from position i to before position `next` given way to so many bytes.
fn put_scores(dst: &mut [u8], book: &[u8], n: usize, i: usize, own: &[u8], next: usize)
    requires { ScoresRoom book.now n i own.now next }
    ensures { dst.new ≡ sets dst.old 7 (scores_spliced book.now n i own.now next) }
{
    let cut = book_layout::score_start(i);
    octets_code::copy(dst, FRAME_LENGTH, &book[FRAME_LENGTH..cut]);
    octets_code::copy(dst, cut, own);
    octets_code::copy(
        dst,
        cut + own.len(),
        &book[book_layout::score_start(next)..book_layout::score_start(n)],
    );
}

// Writes the book with a new entry, where the destination has room. The seek tells where its name comes.
pub fn write_with(
    l: Layout,
    book: &[u8],
    n: usize,
    s: Seek,
    name: &[u8],
    score: u32,
    dst: &mut [u8],
) -> Result<Size, Refusal>
    requires { Adds l book.now n name.now s }
    ensures { Answered (whole_in l (with (entry name.now score) (in_book_in l book.now))
        dst.old) result dst.new }
{
    let p = plan_with(l, book, n, s, name);
    if dst.len() < p.total {
        return Err(Refusal::TooShort);
    }
    let mut own = [0u8; SCORE_BYTES];
    octets_code::write_u32(&mut own, 0, score);
    put_scores(dst, book, n, s.place, &own, s.place);
    let old = p.old;
    let cut = s.at;
    octets_code::copy(dst, p.new, &book[old..cut]);
    let below = s.below;
    book_record_write::put_record(dst, p.start, false, s.place, &name[..below], name);
    put_behind(dst, p.at, book, p.end, p.behind);
    book_write::finish(dst, l, n + 1, p.total);
    Ok(Size {
        entries: n + 1,
        bytes: p.total,
    })
}

// Writes the book without the entry of a held name, where the destination has room. The seek tells where it stands. The
// two writers stay apart: one asks for a name that is not held, the other for one that is, and one of the steps is the
// first's alone, so that a function for both would be a switch on which steps to run.
pub fn write_without(
    l: Layout,
    book: &[u8],
    n: usize,
    s: Seek,
    name: &[u8],
    dst: &mut [u8],
) -> Result<Size, Refusal>
    requires { Withdraws l book.now n name.now s }
    ensures { Answered (whole_in l (without name.now (in_book_in l book.now))
        dst.old) result dst.new }
{
    let p = plan_without(l, book, n, s, name);
    if dst.len() < p.total {
        return Err(Refusal::TooShort);
    }
    put_scores(dst, book, n, s.place, &[], s.place + 1);
    let old = p.old;
    let cut = s.at;
    octets_code::copy(dst, p.new, &book[old..cut]);
    put_behind(dst, p.at, book, p.end, p.behind);
    book_write::finish(dst, l, n - 1, p.total);
    Ok(Size {
        entries: n - 1,
        bytes: p.total,
    })
}
