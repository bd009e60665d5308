// The panel as a key leaves it: on one of its rows, whose name is held.
#![tactic(auto)]

ghost use Rattle.std.specs.Prelude.{◌≡◌, ℕ, ◌<◌, ◌≤◌, Some, length, take};
ghost use Rattle.entries.specs.Names.{longest_name};
ghost use Rattle.panel.specs.Panel.{highlighted, panel_of, typed_in, typing};
ghost use Rattle.panel_typing.specs.Typing.{Typed};
ghost use Rattle.panel_rows.specs.Rows.{OnRow, row_name};
ghost use Rattle.panel_show.specs.Shown.{TextIs, text_of};

use book_held::Book;
use limits::LONGEST_NAME;

// 48 bytes of which the first `len` are a text: an array with its length, as in the panel that C lends.
#[derive(Clone, Copy)]
struct Text {
    bytes: [u8; LONGEST_NAME],
    len: usize,
}

// The text with zeros behind it.
fn cleared(t: Text) -> Text
    requires { t.len ≤ longest_name }
    ensures { result ≡ text_of (take t.len t.bytes) }
{
    let mut c = t;
    c.bytes[t.len..].fill(0);
    c
}

// The name on a row, with any bytes behind it; without rows the empty one.
fn name_on(book: &Book<'_>, r: panel_rows::Row) -> Text
    requires { (i : ℕ) → r.position ≡ Some i → i < length book.now }
    ensures { TextIs (row_name book.now r.position) result }
{
    let Some(position) = r.position else {
        return Text {
            bytes: [0; LONGEST_NAME],
            len: 0,
        };
    };
    let c = book_name::name_at(book, position);
    let bytes = c.name;
    Text { bytes, len: c.len }
}

// The panel with the name on a row as its text.
pub fn take_name(book: &Book<'_>, p: panel::Panel, r: panel_rows::Row) -> panel::Panel
    requires { OnRow book.now (typed_in p) r }
    ensures { Typed (highlighted book.now (typing (typed_in p) r.number)) result }
{
    let name = name_on(book, r);
    let text = name.bytes;
    let mut q = p;
    q.text = text;
    q.len = name.len;
    q
}

// The panel on one of its rows: the name there held, zeros behind it and behind the text.
pub fn show(book: &Book<'_>, p: panel::Panel, r: panel_rows::Row) -> panel::Panel
    requires { OnRow book.now (typed_in p) r × (p.len ≤ longest_name) }
    ensures { result ≡ panel_of book.now (typing (typed_in p) r.number) }
{
    let typed = p.text;
    let text = cleared(Text {
        bytes: typed,
        len: p.len,
    });
    let name = name_on(book, r);
    let held = cleared(name);
    let text_bytes = text.bytes;
    let held_bytes = held.bytes;
    panel::Panel {
        text: text_bytes,
        len: text.len,
        highlight: r.number,
        rows: r.rows,
        held: held_bytes,
        held_len: held.len,
    }
}

// The panel on its first row.
pub fn show_first(book: &Book<'_>, p: panel::Panel) -> panel::Panel
    requires { p.len ≤ longest_name }
    ensures { result ≡ panel_of book.now (typing (typed_in p) 0) }
{
    show(book, p, panel_rows::first_row(book, p))
}
