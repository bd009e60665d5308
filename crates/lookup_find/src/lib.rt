// Finding a name in a book that was checked, from what the search for it told.
#![tactic(auto)]

ghost use Rattle.std.specs.Prelude.{◌≡◌, ◌≤◌};
ghost use Rattle.entries.specs.Entries.{max_entries};
ghost use Rattle.answer.specs.Reports.{finding};
ghost use Rattle.lookup_find.specs.Finding.{found_at};

use answer::Found;
use book_seek::Seek;

// The position and score of the name that was sought in a book.
pub fn find_in(book: &[u8], s: Seek) -> Option<Found>
    requires { s.place ≤ max_entries }
    ensures { finding result ≡ found_at book.now s }
{
    if !s.same {
        return None;
    }
    Some(Found {
        position: s.place,
        score: book_layout::score_at(book, s.place),
    })
}
