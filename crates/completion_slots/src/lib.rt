// The range machine over the lent slots in which its open ranges wait: the best is taken out and its parts are put.
#![tactic(auto)]

ghost use Rattle.std.specs.Prelude.{◌≡◌, ◌<◌, ◌≤◌, length};
ghost use Rattle.completion_turn.specs.Slots.{best_of, without_best};
ghost use Rattle.completion_turn.specs.Turns.{Ran, Runnable};

use book_held::Book;

// The best of the first n slots.
fn best_of(ranges: &[completion::Range], n: usize) -> completion_turn::BestRange
    requires { (0 < n) × (n ≤ length ranges.now) }
    ensures { (result ≡ best_of ranges.now n) × (result.at < n) }
{
    let mut b = completion_turn::BestRange {
        at: 0,
        range: ranges[0],
    };
    for i in 1..n {
        b = completion_turn::better_range(b, i, ranges[i]);
    }
    b
}

// Takes the best of the first n slots out: the last of them comes into its place.
pub fn take_best(ranges: &mut [completion::Range], n: usize) -> completion::Range
    requires { (0 < n) × (n ≤ length ranges.old) }
    ensures { (result ≡ (best_of ranges.old n).range)
        × (ranges.new ≡ without_best ranges.old n) }
{
    let b = best_of(ranges, n);
    let at = b.at;
    ranges[at] = ranges[n - 1];
    b.range
}

// Turns until as many are offered as were asked for, or no range is open.
pub fn run(
    book: &Book<'_>,
    ranges: &mut [completion::Range],
    start: completion_turn::Progress,
) -> completion_turn::Progress
    requires { Runnable book.now ranges.old start }
    ensures { Ran book.now ranges.old start result }
{
    let mut p = start;
    // a queue: each turn takes a range out and may put two
    while 0 < p.turns && 0 < p.filled {
        let r = take_best(ranges, p.filled);
        p = completion_turn::turn(book, ranges, p, r);
    }
    p
}
