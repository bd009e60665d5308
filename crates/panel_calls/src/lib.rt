// The panel, lent and updated by each key.
#![tactic(auto)]

ghost use Rattle.panel.specs.Panel.{PressedAs, press};

use answer::Refusal;

// A key of the panel: the lent state is updated in place. The rows are told.
pub fn press(book: &[u8], panel: &mut panel::Panel, key: u8) -> Result<usize, Refusal>
    ensures { PressedAs (press book.now panel.old key) result panel.new }
{
    let after = panel_keys::step_in(book, *panel, key)?;
    *panel = after;
    Ok(after.rows)
}
