// The calls on tries: a book's trie written, and completion from a trie.
#![tactic(auto)]

ghost use Rattle.answer.specs.Reports.{Answered};
ghost use Rattle.completion.specs.Complete.{Completed};
ghost use Rattle.trie.specs.Calls.{complete_trie, write_trie};

use answer::{Offered, Refusal, Size};
use limits::{ENTRY_ROOM, MAX_COUNT};

// Writes the trie of a book's entries.
pub fn write_trie(book: &[u8], dst: &mut [u8]) -> Result<Size, Refusal>
    ensures { Answered (write_trie book.now dst.old) result dst.new }
{
    let c = book_check::check(book, &[])?;
    let held = c.book();
    let entries = held.len();
    let bytes = trie_write::write(&held, dst).ok_or(Refusal::TooShort)?;
    Ok(Size { entries, bytes })
}

// Completion from a trie: the entries that the prefix begins, in rank, the first k or all if fewer.
pub fn complete_trie(
    trie: &[u8],
    prefix: &[u8],
    k: usize,
    dst: &mut [u8],
) -> Result<Offered, Refusal>
    ensures { Completed (complete_trie trie.now prefix.now k dst.old) result
        dst.new }
{
    trie_check::check(trie).ok_or(Refusal::NotLaidOut)?;
    if !entries_check::is_prefix(prefix) {
        return Err(Refusal::NotAllowed);
    }
    if k == 0 || MAX_COUNT < k {
        return Err(Refusal::CountOutOfRange);
    }
    if dst.len() < ENTRY_ROOM * k {
        return Err(Refusal::TooShort);
    }
    Ok(trie_find::complete(trie, prefix, k, dst))
}
