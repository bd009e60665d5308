// Lookups by name: where a name is in a book, its entry, and the positions that a prefix begins. The check of the book
// seeks the name or the prefix in the same pass, before it is known whether it is allowed.
#![tactic(auto)]

ghost use Rattle.std.specs.Prelude.{◌≡◌};
ghost use Rattle.lookup.specs.Lookups.{find, name_of, prefix_range};
ghost use Rattle.answer.specs.Reports.{Answered, found_of, span_of};

use answer::{Found, Refusal, Size, Span};

// The position and score of a name, or that it is absent.
pub fn find(book: &[u8], name: &[u8]) -> Result<Option<Found>, Refusal>
    ensures { found_of result ≡ find book.now name.now }
{
    let c = book_check::check(book, name)?;
    if !entries_check::is_name(name) {
        return Err(Refusal::NotAllowed);
    }
    Ok(lookup_find::find_in(book, c.seek))
}

// Writes the given name with its score as one answer entry.
pub fn name_of(book: &[u8], name: &[u8], dst: &mut [u8]) -> Result<Size, Refusal>
    ensures { Answered (name_of book.now name.now dst.old) result
        dst.new }
{
    let Some(found) = find(book, name)? else {
        return Err(Refusal::NotHeld);
    };
    answer_write::write_entry(name, found.score, dst)
}

// The first position that a prefix begins, 0 if there is none, and how many it begins.
pub fn prefix_range(book: &[u8], prefix: &[u8]) -> Result<Span, Refusal>
    ensures { span_of result ≡ prefix_range book.now prefix.now }
{
    let c = book_check::check(book, prefix)?;
    if !entries_check::is_prefix(prefix) {
        return Err(Refusal::NotAllowed);
    }
    let first = c.seek.place;
    let end = c.seek.past;
    if end <= first {
        return Ok(Span { first: 0, count: 0 });
    }
    Ok(Span {
        first,
        count: end - first,
    })
}
