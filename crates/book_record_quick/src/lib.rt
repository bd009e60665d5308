// A record that is no head, read fast: 48 bytes are copied, however many are its own, and which bytes they are is not
// tested. What is told of it is a step of the cursor wherever the name before and the rest are bytes 20 to 7E
// (proofs/Step).
#![tactic(auto)]

ghost use Rattle.std.specs.Prelude.{◌≡◌, ◌≤◌, length};
ghost use Rattle.entries.specs.Names.{longest_name};
ghost use Rattle.book_record_quick.specs.Quick.{ReadAs, name_room};

use limits::{HEADER_BYTES, LONGEST_NAME};

// The bytes of the array that names are read to, 48 of them behind any bytes kept: `name_room`.
pub const NAME_ROOM: usize = 2 * LONGEST_NAME;
// The bytes that are read of a record where as many are left.
const READ_BYTES: usize = HEADER_BYTES + LONGEST_NAME;

// How many bytes a record keeps of the name before, and the number of its own.
#[derive(Clone, Copy)]
pub struct Header {
    pub kept: usize,
    pub own: usize,
}

// Reads the record at index at of an image of so many bytes, behind the name in the first len bytes of an array; its
// name takes that one's place, with a zero behind it. The byte behind the name before counts too: a zero there saves a
// test of its own where all of the name is kept. No byte past the image is read: near its end only the record's own
// bytes are copied.
pub fn read(buf: &[u8], at: usize, total: usize, name: &mut [u8], len: usize) -> Option<Header>
    requires { (at ≤ total) × (total ≤ length buf.now) × (len ≤ longest_name) × (length name.old ≡ name_room) }
    ensures { ReadAs buf.now at total name.old len result name.new }
{
    let left = total - at;
    if left <= HEADER_BYTES {
        return None;
    }
    let kept = buf[at] as usize;
    let own = buf[at + 1] as usize;
    if len < kept {
        return None;
    }
    if own < 1 {
        return None;
    }
    let past = kept + own;
    if LONGEST_NAME < past {
        return None;
    }
    let from = at + HEADER_BYTES;
    if buf[from] <= name[kept] {
        return None;
    }
    if READ_BYTES <= left {
        let far = from + LONGEST_NAME;
        octets_code::copy(name, kept, &buf[from..far]);
    } else {
        let end = from + own;
        if total < end {
            return None;
        }
        octets_code::copy(name, kept, &buf[from..end]);
    }
    name[past] = 0;
    Some(Header {
        kept: kept,
        own: own,
    })
}
