// The records of a book that was checked, read without testing them again.
#![tactic(auto)]

ghost use Rattle.std.specs.Prelude.{◌≡◌, ◌≤◌, drop, length};
ghost use Rattle.book_read.specs.Record.{Inside, Read, parts_at};

use book_laws::Parts;
use limits::HEADER_BYTES;

// The parts of the record at the front of s, at a position.
pub fn parts_at(heads: bool, index: usize, s: &[u8]) -> Parts
    requires { 2 ≤ length s.now }
    ensures { result ≡ parts_at heads index s.now }
{
    let first = s[0] as usize;
    if book_layout::is_head(heads, index) {
        return Parts {
            kept: 0,
            start: 1,
            own: first,
        };
    }
    let own = s[1] as usize;
    Parts {
        kept: first,
        start: HEADER_BYTES,
        own: own,
    }
}

// Reads the record at index at, at a position behind the name at the front of name: its own name takes that one's
// place.
pub fn read_name(book: &[u8], at: usize, heads: bool, index: usize, name: &mut [u8]) -> Parts
    requires { Inside heads (drop at book.now) index (length name.old) }
    ensures { Read heads (drop at book.now) index name.old name.new result }
{
    let s = &book[at..];
    let p = parts_at(heads, index, s);
    let start = p.start;
    let end = start + p.own;
    octets_code::copy(name, p.kept, &s[start..end]);
    p
}
