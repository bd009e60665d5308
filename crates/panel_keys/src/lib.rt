// The panel's keys, over a panel by value.
#![tactic(auto)]

ghost use Rattle.std.specs.Prelude.{◌≡◌, length};
ghost use Rattle.entries.specs.Entries.{names};
ghost use Rattle.book.specs.Book.{records_at, today};
ghost use Rattle.book_seek.specs.Seek.{Seeking};
ghost use Rattle.panel.specs.Panel.{panel_of, press, typed_in, typing_after};
ghost use Rattle.panel_keys.specs.Keys.{Ready, SteppedAs};

use answer::Refusal;
use book_held::Book;
use book_seek::Seek;
use limits::LONGEST_NAME;

// The panel after a key. What is offered before it is looked at only where the key depends on it.
// Where the text before it stands in the book was found before.
fn act(book: &Book<'_>, p: panel::Panel, seek: Seek, key: u8) -> panel::Panel
    requires { Ready p key × Seeking (typed_in p) (records_at today (length book.now)) (names book.now) seek }
    ensures { result ≡ panel_of book.now (typing_after book.now p key) }
{
    if panel_typing::changes_text(p.len, key) {
        return panel_show::show_first(book, panel_typing::change_text(p, key));
    }
    let rows = panel_rows::rows_of(book, seek);
    let lowered = panel_typing::lower(p.highlight, rows.count);
    let row = panel_rows::held_row(book, p, rows, lowered);
    if panel_typing::takes(key, rows.count) {
        let taken = panel_show::take_name(book, p, panel_rows::row_at(rows, row));
        return panel_show::show_first(book, taken);
    }
    let to = panel_typing::moved(key, row, rows.count);
    panel_show::show(book, p, panel_rows::row_at(rows, to))
}

// A key, over a panel by value: the checks in the table's order, then what the key does. The text is sought in the book
// before it is checked itself, so no more of it than there is.
pub fn step_in(book: &[u8], p: panel::Panel, key: u8) -> Result<panel::Panel, Refusal>
    ensures { SteppedAs (press book.now p key) result }
{
    let c = book_check::check(book, &p.text[..p.len.min(LONGEST_NAME)])?;
    if !panel_typing::is_typed(p) {
        return Err(Refusal::NotAllowed);
    }
    if !panel_typing::is_held(p) {
        return Err(Refusal::NotAllowed);
    }
    if !panel_typing::is_listed(key) {
        return Err(Refusal::NoSuchKey);
    }
    if panel_typing::is_full(p.len, key) {
        return Err(Refusal::TextFull);
    }
    Ok(act(&c.book(), p, c.seek, key))
}
