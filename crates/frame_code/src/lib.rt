// The first seven bytes of books, sheets and tries: tested, and stored.
#![tactic(auto)]

ghost use Rattle.std.specs.Prelude.{◌≡◌, ◌<◌, ◌≤◌};
ghost use Rattle.entries.specs.Entries.{max_entries};
ghost use Rattle.frame_code.specs.Image.{frame_as};
ghost use Rattle.frame_code.specs.Stored.{put_frame};

use limits::{COUNT_AT, FRAME_LENGTH, MAX_ENTRIES, TOTAL_AT};

// What the first seven bytes say: how many entries, and how many bytes in all.
#[derive(Clone, Copy, Debug, PartialEq, Eq)]
pub struct Frame {
    pub entries: usize,
    pub total: usize,
}

// Tests the first seven bytes: there, of this version, not more entries than allowed, not cut off by the buffer.
pub fn check_frame(buf: &[u8], version: u8) -> Option<Frame>
    ensures { result ≡ frame_as version buf.now }
{
    if buf.len() < FRAME_LENGTH {
        return None;
    }
    if buf[0] != version {
        return None;
    }
    let entries = octets_code::read_u16(buf, COUNT_AT) as usize;
    if MAX_ENTRIES < entries {
        return None;
    }
    let total = octets_code::read_u32(buf, TOTAL_AT) as usize;
    if buf.len() < total {
        return None;
    }
    Some(Frame { entries, total })
}

// Stores the first seven bytes of an image of so many bytes in all and n entries.
pub fn put_frame(dst: &mut [u8], version: u8, total: usize, n: usize)
    requires { (total < 4294967296) × (n ≤ max_entries) }
    ensures { dst.new ≡ put_frame version total n dst.old }
{
    let first = [version];
    octets_code::copy(dst, 0, &first);
    octets_code::write_u32(dst, TOTAL_AT, total as u32);
    octets_code::write_u16(dst, COUNT_AT, n as u16);
}
