// A book that was checked, and where a key stands in it.

ghost use Rattle.std.specs.Prelude.{◌≡◌};
ghost use Rattle.book.specs.Book.{in_book};
ghost use Rattle.book_laws.specs.Held.{Held};

use book_held::Book;
use book_seek::Seek;

// A buffer at whose front a book was found, how many entries it has, and where the key stands among their names. It may
// be copied; `Book`, which contracts see as its entries, may not, since a model over a borrow has no `Copy`.
#[derive(Clone, Copy)]
pub struct Checked<'a> {
    pub image: &'a [u8],
    pub n: usize,
    pub seek: Seek,
    ghost held: { Held image.now n },
}

impl<'a> Checked<'a> {
    // The book.
    pub fn book(&self) -> Book<'a>
        ensures { result ≡ in_book self.now.image.now }
    {
        Book::new(self.image, self.n)
    }
}
