// The panel as far as it needs no book: whether its text and held name are allowed, which keys are listed, what they do
// to the text and to a row number.
#![tactic(auto)]

ghost use Rattle.std.specs.Prelude.{◌≡◌, false, true, ◌++◌, length, ◌+◌, ◌-◌, ◌<◌, ◌≤◌, min};
ghost use Rattle.entries.specs.Names.{longest_name};
ghost use Rattle.panel.specs.Panel.{appends, is_held, is_listed, is_typed, key_bytes, typed_in, without_last};
ghost use Rattle.panel_typing.specs.Typing.{Typed, changed_text, changes_text, is_full, moved_row, takes};

use limits::{
    KEY_DOWN, KEY_ERASE, KEY_MICRO, KEY_OHM, KEY_TAKE, KEY_UP, LONGEST_NAME, MICRO_LEAD,
    MICRO_TAIL, OHM_LEAD, OHM_TAIL,
};

// Whether the length is not over 48 and the bytes within it are allowed.
pub fn is_typed(p: panel::Panel) -> bool
    ensures { result ≡ is_typed p }
{
    p.len <= LONGEST_NAME && entries_check::is_prefix(&p.text[..p.len])
}

// Whether the held name has length 0 or is an allowed one.
pub fn is_held(p: panel::Panel) -> bool
    ensures { result ≡ is_held p }
{
    if p.held_len == 0 {
        return true;
    }
    p.held_len <= LONGEST_NAME && entries_check::is_name(&p.held[..p.held_len])
}

// Whether a key appends: 20 to 7E, 80, 81.
fn appends(key: u8) -> bool
    ensures { result ≡ appends key }
{
    entries_check::is_plain(key) || key == KEY_MICRO || key == KEY_OHM
}

// The bytes of the sign that a key appends.
fn sign_length(key: u8) -> usize
    ensures { result ≡ length (key_bytes key) }
{
    match key {
        KEY_MICRO => 2,
        KEY_OHM => 2,
        _ => 1,
    }
}

// Whether a key is listed.
pub fn is_listed(key: u8) -> bool
    ensures { result ≡ is_listed key }
{
    // counted again, up and down are the keys up to `KEY_DOWN`
    appends(key) || key == KEY_ERASE || key == KEY_TAKE || key <= KEY_DOWN
}

// Whether a key appends more bytes than are left of 48.
pub fn is_full(len: usize, key: u8) -> bool
    ensures { result ≡ is_full len key }
{
    appends(key) && LONGEST_NAME - sign_length(key) < len
}

// Whether a key appends a sign, or erases one that is there: whatever the rows, the first is highlighted then.
pub fn changes_text(len: usize, key: u8) -> bool
    ensures { result ≡ changes_text len key }
{
    appends(key) || (key == KEY_ERASE && len != 0)
}

// Appends a sign to the text.
fn append_sign(p: panel::Panel, sign: &[u8]) -> panel::Panel
    requires { p.len + length sign.now ≤ longest_name }
    ensures { Typed (typed_in p ++ sign.now) result }
{
    let mut q = p;
    octets_code::copy(&mut q.text, p.len, sign);
    q.len = p.len + sign.len();
    q
}

// Appends the sign of a key to the text.
fn append(p: panel::Panel, key: u8) -> panel::Panel
    requires { p.len + length (key_bytes key) ≤ longest_name }
    ensures { Typed (typed_in p ++ key_bytes key) result }
{
    match key {
        KEY_MICRO => append_sign(p, &[MICRO_LEAD, MICRO_TAIL]),
        KEY_OHM => append_sign(p, &[OHM_LEAD, OHM_TAIL]),
        _ => append_sign(p, &[key]),
    }
}

// Erases the last sign of the text.
fn erase(p: panel::Panel) -> panel::Panel
    requires { (0 < p.len) × (p.len ≤ longest_name) }
    ensures { Typed (without_last (typed_in p)) result }
{
    let last = entries_check::last_sign(&p.text[..p.len]);
    let mut q = p;
    q.len = p.len - last;
    q
}

// The text after a key that changes it.
pub fn change_text(p: panel::Panel, key: u8) -> panel::Panel
    requires { (changes_text p.len key ≡ true) × (is_full p.len key ≡ false) × (p.len ≤ longest_name) }
    ensures { Typed (changed_text key (typed_in p)) result }
{
    if appends(key) {
        return append(p, key);
    }
    erase(p)
}

// Whether a key takes a name, of which there are as many as rows.
pub fn takes(key: u8, rows: usize) -> bool
    ensures { result ≡ takes key rows }
{
    key == KEY_TAKE && rows != 0
}

// A row number past the last, lowered to it.
pub fn lower(row: usize, rows: usize) -> usize
    ensures { result ≡ min row (rows - 1) }
{
    row.min(rows.saturating_sub(1))
}

// The row that a key moves to from one of the rows: 01 up, 02 down, stopping at the ends; the others stay.
pub fn moved(key: u8, row: usize, rows: usize) -> usize
    requires { row ≤ rows - 1 }
    ensures { (result ≡ moved_row key row rows) × (result ≤ rows - 1) }
{
    match key {
        KEY_UP => row.saturating_sub(1),
        KEY_DOWN => lower(row + 1, rows),
        _ => row,
    }
}
