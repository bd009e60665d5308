// The entries of two books read side by side, in name order. Of a name that both have, the entry is the first book's.
#![tactic(auto)]

ghost use Rattle.std.specs.Prelude.{◌≡◌, false, true, ◌+◌, ◌<◌, ◌≤◌, length};
ghost use Rattle.entries.specs.Names.{longest_name};
ghost use Rattle.merge_read.specs.Turns.{Chosen, Loaded, RecordStands, TookNext, is_due, steps};

use book_held::Book;
use limits::BOOK_HEADS;

// The next entry of a book: its position, where the record behind it begins, the length of its name. Where no
// entry is left the length is 0, which no name has. It is no Option: the next names of both books are compared as
// slices, and Options of slices would be taken apart at each of the tests that now ask whether one is empty.
#[derive(Clone, Copy)]
pub struct NextInBook {
    pub index: usize,
    pub at: usize,
    pub len: usize,
}

// An entry chosen: its name's length and its score.
#[derive(Clone, Copy)]
pub struct Choice {
    pub len: usize,
    pub score: u32,
}

// The entry that came next of both books, and the next one of each behind it.
#[derive(Clone, Copy)]
pub struct NextOfBoth {
    pub first: NextInBook,
    pub second: NextInBook,
    pub len: usize,
    pub score: u32,
}

// Reads the record of a position, at index at and behind the name in name: its own name takes that one's place.
fn next_name(book: &Book<'_>, index: usize, at: usize, name: &mut [u8]) -> NextInBook
    requires { (index ≤ length book.now) × (length name.old ≡ longest_name)
        × RecordStands book.now at index name.old }
    ensures { Loaded book.now result name.new × (result.index ≡ index) }
{
    let image = book.image();
    let n = book.len();
    if n <= index {
        return NextInBook { index, at, len: 0 };
    }
    let p = book_read::read_name(image, at, BOOK_HEADS, index, name);
    let end = at + (p.start + p.own);
    let len = p.kept + p.own;
    NextInBook {
        index,
        at: end,
        len,
    }
}

// The first entry of a book; its name to the front of name.
pub fn first_name(book: &Book<'_>, name: &mut [u8]) -> NextInBook
    requires { length name.old ≡ longest_name }
    ensures { Loaded book.now result name.new × (result.index ≡ 0) }
{
    next_name(book, 0, book.records_start(), name)
}

// The entry behind one that was due; another stays the next. Which it is, is told before either book is read on.
fn move_on(book: &Book<'_>, c: NextInBook, name: &mut [u8], due: bool) -> NextInBook
    requires { Loaded book.now c name.old × (due ≡ true → c.index < length book.now) }
    ensures { Loaded book.now result name.new × (result.index ≡ c.index + steps due) }
{
    if !due {
        return c;
    }
    next_name(book, c.index + 1, c.at, name)
}

// Whether the entry of this name comes next: there is one, and the other book has none left or its name is not below.
fn is_due(name: &[u8], other: &[u8]) -> bool
    ensures { result ≡ is_due name.now other.now }
{
    if name.is_empty() {
        return false;
    }
    if other.is_empty() {
        return true;
    }
    !octets_code::is_below(other, name)
}

// Whether the other book's entry comes next as well, where it is known of this one: either it alone is due, or both
// have the name.
fn is_due_too(other: &[u8], name: &[u8], due: bool) -> bool
    requires { due ≡ is_due name.now other.now }
    ensures { result ≡ is_due other.now name.now }
{
    if due {
        return octets_code::equal(other, name);
    }
    !other.is_empty()
}

// The next entry of the first book, named a, where that is due, else of the second, named b; its name is copied to the
// front of name.
fn choose(
    first: &Book<'_>,
    i: usize,
    a: &[u8],
    second: &Book<'_>,
    j: usize,
    b: &[u8],
    due: bool,
    name: &mut [u8],
) -> Choice
    requires { (due ≡ true → i < length first.now) × (due ≡ false → j < length second.now)
        × (length a.now ≤ length name.old) × (length b.now ≤ length name.old) }
    ensures { Chosen first.now i a.now second.now j b.now due
        name.new result }
{
    if due {
        octets_code::copy(name, 0, a);
        return Choice {
            len: a.len(),
            score: first.score(i),
        };
    }
    octets_code::copy(name, 0, b);
    Choice {
        len: b.len(),
        score: second.score(j),
    }
}

// The entry that comes next of both books, their next names in a and b, if one is left; its name to the front of name.
pub fn next_entry(
    first: &Book<'_>,
    x: NextInBook,
    a: &mut [u8],
    second: &Book<'_>,
    y: NextInBook,
    b: &mut [u8],
    name: &mut [u8],
) -> Option<NextOfBoth>
    requires { Loaded first.now x a.old × Loaded second.now y b.old
        × (length name.old ≡ longest_name) }
    ensures { TookNext first.now x a.new second.now y b.new
        name.new result }
{
    let u = x.len;
    let v = y.len;
    let s = &a[..u];
    let t = &b[..v];
    let first_due = is_due(s, t);
    let second_due = is_due_too(t, s, first_due);
    if !first_due && !second_due {
        return None;
    }
    let e = choose(first, x.index, s, second, y.index, t, first_due, name);
    Some(NextOfBoth {
        first: move_on(first, x, a, first_due),
        second: move_on(second, y, b, second_due),
        len: e.len,
        score: e.score,
    })
}
