// The range machine over a book that was checked: which open range is the best, and what a turn does. The open ranges
// wait in slots that are lent.
#![tactic(auto)]

ghost use Rattle.std.specs.Prelude.{◌≡◌, [], ◌∷◌, ◌<◌, ◌≤◌, length};
ghost use Rattle.entries.specs.Completion.{max_count};
ghost use Rattle.completion.specs.Machine.{open_range};
ghost use Rattle.completion_turn.specs.Slots.{better_range, is_ahead};
ghost use Rattle.completion_turn.specs.Turns.{Put, Turned, Turning, so_far};

use book_held::Book;
use limits::MAX_COUNT;

// The best of some slots: which slot, and its range.
#[derive(Clone, Copy)]
pub struct BestRange {
    pub at: usize,
    pub range: completion::Range,
}

// The machine between two turns.
#[derive(Clone, Copy)]
pub struct Progress {
    // how many may still be offered
    pub turns: usize,
    // how many slots hold an open range
    pub filled: usize,
    // the positions offered so far; an array with a count, as there is no heap
    pub offered: [usize; MAX_COUNT],
    pub count: usize,
    pub looks: usize,
    // the position of the first match, and where its record begins
    pub first: usize,
    pub from: usize,
}

impl Progress {
    // The positions offered so far.
    pub fn so_far(&self) -> &[usize]
        requires { self.now.count ≤ max_count }
        ensures { result.now ≡ so_far self.now }
    {
        &self.offered[..self.count]
    }
}

// Whether the best of one range is ranked before the best of another, as document 01's `outranks` says: higher score
// first, at equal scores the earlier name. Positions stand in name order, so the earlier position is the earlier name.
fn is_ahead(x: completion::Range, y: completion::Range) -> bool
    ensures { result ≡ is_ahead x y }
{
    if x.score == y.score {
        return x.best < y.best;
    }
    y.score < x.score
}

// The better of the best so far and the range in a slot.
pub fn better_range(b: BestRange, i: usize, x: completion::Range) -> BestRange
    ensures { result ≡ better_range b i x }
{
    if is_ahead(b.range, x) {
        return b;
    }
    BestRange { at: i, range: x }
}

// The positions from first to before end as an open range: one look.
pub fn open_range(book: &Book<'_>, first: usize, end: usize) -> completion::Range
    requires { (first < end) × (end ≤ length book.now) }
    ensures { open_range book.now first end ≡ result ∷ [] }
{
    let best = book_best::best_in(book, first, end);
    completion::Range {
        first: first,
        best: best,
        score: book.score(best),
        last: end - 1,
    }
}

// Puts the positions from first to before end, if there are any, as an open range behind the filled slots: how many are
// filled then.
pub fn put(
    book: &Book<'_>,
    first: usize,
    end: usize,
    ranges: &mut [completion::Range],
    filled: usize,
) -> usize
    requires { (end ≤ length book.now) × (filled < length ranges.old) }
    ensures { Put book.now first end ranges.old filled ranges.new result }
{
    if end <= first {
        return filled;
    }
    ranges[filled] = open_range(book, first, end);
    filled + 1
}

// Offers the best of the range that was taken out and, unless it is the last to be offered, puts its parts: the
// positions left and right of its best.
pub fn turn(
    book: &Book<'_>,
    ranges: &mut [completion::Range],
    p: Progress,
    r: completion::Range,
) -> Progress
    requires { Turning book.now ranges.old p r }
    ensures { Turned book.now ranges.old p r ranges.new result }
{
    let count = p.count;
    let behind = p.filled - 1;
    let mut s = p;
    s.offered[count] = r.best;
    s.count = count + 1;
    s.turns = p.turns - 1;
    s.filled = behind;
    if p.turns == 1 {
        return s;
    }
    let left = put(book, r.first, r.best, ranges, behind);
    let both = put(book, r.best + 1, r.last + 1, ranges, left);
    s.filled = both;
    s.looks = p.looks + (both - behind);
    s
}
