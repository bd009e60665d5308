// A book that was checked, seen as its entries: what the functions beneath the calls are given in place of a buffer, the
// number of its entries and the fact that the buffer was checked.
#![tactic(auto)]

ghost use Rattle.std.specs.Prelude.{◌≡◌, true, ◌*◌, ◌<◌, ◌≤◌, List, length};
ghost use Rattle.entries.specs.Entries.{Entry, at, max_entries, valid};
ghost use Rattle.book.specs.Book.{block_size, in_book, peak, records_at, today};
ghost use Rattle.book_laws.specs.Held.{Held};

use std::marker::Model;

// The buffer at whose front the book stands, and how many entries it has. Contracts see the entries.
#[derive(Drop)]
pub struct Book<'a> {
    image: &'a [u8],
    count: usize,
}

impl<'a> Model for Book<'a> {
    ghost Value = { List Entry };

    ghost view = { λ b. in_book b.image.now };

    ghost invariant = { λ b. Held b.image.now b.count };
}

impl<'a> Book<'a> {
    // The book of so many entries at the front of a buffer that was checked.
    pub fn new(image: &'a [u8], count: usize) -> Book<'a>
        requires { Held image.now count }
        ensures { result ≡ in_book image.now }
    {
        Book { image, count }
    }

    // How many entries it has: no more than a book may have, and such as a book may have.
    pub fn len(&self) -> usize
        ensures count { result ≡ length self.now }
        ensures few { length self.now ≤ max_entries }
        ensures ok { valid self.now ≡ true }
    {
        self.count
    }

    // The buffer.
    pub fn image(&self) -> &'a [u8]
        ensures held { Held result.now (length self.now) }
        ensures entries { in_book result.now ≡ self.now }
    {
        self.image
    }

    // The score of the entry at a position.
    pub fn score(&self, position: usize) -> u32
        requires { position < length self.now }
        ensures { result ≡ (at self.now position).score }
    {
        book_layout::score_at(self.image, position)
    }

    // The best position of a block.
    pub fn peak(&self, block: usize) -> usize
        requires { block_size * block < length self.now }
        ensures { result ≡ peak self.now block }
    {
        book_layout::peak_at(self.image, book_layout::today(), self.count, block)
    }

    // Where its records begin.
    pub fn records_start(&self) -> usize
        ensures { result ≡ records_at today (length self.now) }
    {
        book_layout::records_at(book_layout::today(), self.count)
    }
}
