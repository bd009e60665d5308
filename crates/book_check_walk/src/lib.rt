// The walk over a book's records: each is a book's, with each head's offset, and a key is sought among the names on the
// way. Without heads and where no byte of the records is over 7E, names are tested all at once, by counting; else one
// by one.
#![tactic(auto)]

ghost use Rattle.std.specs.Prelude.{◌≡◌, false, ◌<◌, ◌≤◌, length};
ghost use Rattle.entries.specs.Entries.{max_entries};
ghost use Rattle.book_laws.specs.Check.{offset_is};
ghost use Rattle.book_check_walk.specs.Walks.{PassedTo, WalkedTo};

use book::Layout;
use book_record_quick::NAME_ROOM;
use book_seek::{Record, Seek};
use limits::{BUCKET_SIZE, HEADER_BYTES, LAST_PLAIN, LONGEST_NAME};

// Where records end, and where a key stands among their names.
#[derive(Clone, Copy)]
pub struct Walked {
    pub end: usize,
    pub seek: Seek,
}

// Of records that came to the image's end: how many of their common and length bytes are below 20, and where a key
// stands among their names.
#[derive(Clone, Copy)]
struct Passed {
    lows: usize,
    seek: Seek,
}

// Whether the offset of the bucket whose head is at this position says where its record is.
#[tactic(auto, unfolding(book_laws::specs::Check::offset_is))]
fn offset_is(buf: &[u8], l: Layout, n: usize, index: usize, at: usize) -> bool
    requires { (n ≤ max_entries) × (index < max_entries) }
    ensures { result ≡ offset_is l n index at buf.now }
{
    if !book_layout::is_head(l.heads, index) {
        return true;
    }
    book_layout::offset_at(buf, n, index / BUCKET_SIZE) == at
}

// The walk record by record.
fn walk_each(buf: &[u8], l: Layout, n: usize, start: usize, key: &[u8]) -> Option<Walked>
    requires { (n ≤ max_entries) × (start ≤ length buf.now) }
    ensures { WalkedTo l n start buf.now key.now result }
{
    let mut name = [0u8; LONGEST_NAME];
    let mut len = 0;
    let mut at = start;
    let mut s = book_seek::begin(start);
    let mut limit = book_seek::limit(s, key);
    for index in 0..n {
        if !offset_is(buf, l, n, index, at) {
            return None;
        }
        let t = book_record_read::read_record(buf, l.heads, at, index, &mut name, len)?;
        let long = t.kept + t.own;
        let end = at + t.start + t.own;
        let p = Record {
            index: index,
            at: at,
            end: end,
            kept: t.kept,
        };
        if t.kept < limit {
            s = book_seek::pass(s, p, &name[t.kept..long], key);
            limit = book_seek::limit(s, key);
        }
        at = end;
        len = long;
    }
    Some(Walked {
        end: at,
        seek: book_seek::settle(s, n, at),
    })
}

// The records of n names without heads up to the image's end, each a book's but for which bytes its name has: that is
// told by counting, for all names at once.
fn walk_plain(
    buf: &[u8],
    l: Layout,
    n: usize,
    start: usize,
    total: usize,
    key: &[u8],
) -> Option<Passed>
    requires { (n ≤ max_entries) × (start ≤ total) × (total ≤ length buf.now) × (l.heads ≡ false) }
    ensures { PassedTo l n start total buf.now key.now result }
{
    let mut name = [0u8; NAME_ROOM];
    let mut len = 0;
    let mut at = start;
    let mut found = 0;
    let mut s = book_seek::begin(start);
    let mut limit = book_seek::limit(s, key);
    for index in 0..n {
        let h = book_record_quick::read(buf, at, total, &mut name, len)?;
        let from = at + HEADER_BYTES;
        let end = from + h.own;
        let first = octets_count::low(buf[at]) as usize;
        let second = octets_count::low(buf[at + 1]) as usize;
        found = found + first + second;
        if h.kept < limit {
            let p = Record {
                index: index,
                at: at,
                end: end,
                kept: h.kept,
            };
            s = book_seek::pass(s, p, &buf[from..end], key);
            limit = book_seek::limit(s, key);
        }
        at = end;
        len = h.kept + h.own;
    }
    if at != total {
        return None;
    }
    Some(Passed {
        lows: found,
        seek: book_seek::settle(s, n, at),
    })
}

// Where the records of n names end that begin at index start of an image of so many bytes, and where a key stands
// among the names.
pub fn walk(
    buf: &[u8],
    l: Layout,
    n: usize,
    start: usize,
    total: usize,
    key: &[u8],
) -> Option<Walked>
    requires { (n ≤ max_entries) × (start ≤ length buf.now) × (total ≤ length buf.now) }
    ensures { WalkedTo l n start buf.now key.now result }
{
    if !l.heads {
        if start <= total {
            let area = &buf[start..total];
            if octets_count::top(area) <= LAST_PLAIN {
                if let Some(p) = walk_plain(buf, l, n, start, total, key) {
                    if p.lows == octets_count::lows(area) {
                        return Some(Walked {
                            end: total,
                            seek: p.seek,
                        });
                    }
                }
            }
        }
    }
    walk_each(buf, l, n, start, key)
}
