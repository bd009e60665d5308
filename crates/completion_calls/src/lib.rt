// Completion from a book whose open ranges wait in a slice that the caller lends.
#![tactic(auto)]

ghost use Rattle.std.specs.Prelude.{length};
ghost use Rattle.completion.specs.Complete.{CompletedOver, complete_book};

use answer::{Offered, Refusal};

// Completion from a book.
pub fn complete(
    book: &[u8],
    prefix: &[u8],
    k: usize,
    dst: &mut [u8],
    ranges: &mut [completion::Range],
) -> Result<Offered, Refusal>
    ensures { CompletedOver (complete_book book.now prefix.now k dst.old
        (length ranges.old))
        result dst.new ranges.old ranges.new }
{
    let c = completion_book::check_asked(book, prefix, k, dst.len(), ranges.len())?;
    let held = c.book();
    let s = completion_book::offers_over(&held, c.seek, k, ranges);
    Ok(completion_book::write_answer(&held, prefix, s, dst))
}
