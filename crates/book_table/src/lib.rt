// The names and scores of a book that was checked, unpacked into the rows of a table.
#![tactic(auto)]

ghost use Rattle.std.specs.Prelude.{◌≡◌, ◌+◌, ◌≤◌, length};
ghost use Rattle.std.proofs.lemmas.List.Edits.{sets};
ghost use Rattle.entries.specs.Names.{longest_name};
ghost use Rattle.book_table.specs.Table.{TableRoom, Unpacked};

use book_held::Book;
use limits::{BOOK_HEADS, LONGEST_NAME};

// Stores a name's whole array as a row. What stands behind the name does not matter, and 48 bytes are sooner copied
// than as many as a name has.
fn put_row(names: &mut [u8], at: usize, name: &[u8])
    requires { (length name.now ≡ longest_name) × (at + longest_name ≤ length names.old) }
    ensures { names.new ≡ sets names.old at name.now }
{
    names[at..at + LONGEST_NAME].copy_from_slice(name);
}

// Unpacks the entries of a book: names into rows of 48 bytes, their lengths, their scores.
pub fn unpack(book: &Book<'_>, names: &mut [u8], lens: &mut [u8], scores: &mut [u32])
    requires { TableRoom (length book.now) (length names.old) (length lens.old) (length scores.old) }
    ensures { Unpacked book.now names.new lens.new scores.new }
{
    let image = book.image();
    let mut name = [0; LONGEST_NAME];
    let mut at = book.records_start();
    for i in 0..book.len() {
        let p = book_read::read_name(image, at, BOOK_HEADS, i, &mut name);
        let len = p.kept + p.own;
        put_row(names, i * LONGEST_NAME, &name);
        lens[i] = len as u8;
        scores[i] = book.score(i);
        at += p.start + p.own;
    }
}
