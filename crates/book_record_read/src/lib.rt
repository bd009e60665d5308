// Front-coded records: reading one, with the name before it in a lent array.
#![tactic(auto)]

ghost use Rattle.std.specs.Prelude.{◌≡◌, true, length, take};
ghost use Rattle.entries.specs.Names.{is_prefix, longest_name};
ghost use Rattle.book_record_read.specs.RecordParts.{Keeps, goes_above, head_part, record_part, step_of, tail_part};
ghost use Rattle.book_laws.specs.Cursor.{Sound, Stepped, cursor_of};

use book_laws::Parts;
use limits::{LONGEST_NAME, MICRO_TAIL, OHM_TAIL};

// The parts of a head: a length byte, and a name above the one before.
#[tactic(auto, unfolding(crate::specs::RecordParts::head_test))]
fn head_part(prev: &[u8], s: &[u8]) -> Option<Parts>
    ensures { result ≡ head_part prev.now s.now }
{
    if s.len() < 1 {
        return None;
    }
    let n = s[0] as usize;
    if s.len() - 1 < n {
        return None;
    }
    let name = &s[1..1 + n];
    if !entries_check::is_name(name) {
        return None;
    }
    if !octets_code::is_below(prev, name) {
        return None;
    }
    Some(Parts {
        kept: 0,
        start: 1,
        own: n,
    })
}

// Whether a name that keeps the first bytes of prev and goes on with next shares no more with it, and is above it; no
// longest common prefix ends inside a pair, where prev goes on with the pair's other half.
#[tactic(auto, unfolding(crate::specs::RecordParts::goes_above))]
fn goes_above(prev: &[u8], kept: usize, next: u8) -> bool
    ensures { result ≡ goes_above prev.now kept next }
{
    if prev.len() <= kept {
        return true;
    }
    let x = prev[kept];
    if next <= x {
        return false;
    }
    if x == MICRO_TAIL {
        return false;
    }
    x != OHM_TAIL
}

// The parts of another record: the common byte, the length of the rest, the rest.
#[tactic(auto, unfolding(crate::specs::RecordParts::tail_test))]
fn tail_part(prev: &[u8], s: &[u8]) -> Option<Parts>
    ensures { result ≡ tail_part prev.now s.now }
{
    if s.len() < 2 {
        return None;
    }
    let kept = s[0] as usize;
    let n = s[1] as usize;
    if prev.len() < kept {
        return None;
    }
    if n < 1 {
        return None;
    }
    if s.len() - 2 < n {
        return None;
    }
    if LONGEST_NAME < kept + n {
        return None;
    }
    let rest = &s[2..2 + n];
    if !entries_check::is_prefix(rest) {
        return None;
    }
    if !goes_above(prev, kept, rest[0]) {
        return None;
    }
    Some(Parts {
        kept: kept,
        start: 2,
        own: n,
    })
}

// The parts of the record at the front of s, at a position behind the name prev.
fn part_at(heads: bool, index: usize, prev: &[u8], s: &[u8]) -> Option<Parts>
    requires { is_prefix prev.now ≡ true }
    ensures { result ≡ record_part heads index prev.now s.now }
{
    if book_layout::is_head(heads, index) {
        head_part(prev, s)
    } else {
        tail_part(prev, s)
    }
}

// Reads the record at index at, at a position behind the name in the first len bytes of a lent array; its name takes
// that one's place. For a pass over a whole book: the name stays where it is.
pub fn read_record(
    src: &[u8],
    heads: bool,
    at: usize,
    index: usize,
    name: &mut [u8],
    len: usize,
) -> Option<Parts>
    requires { Sound src.now (cursor_of at index name.old len) × (length name.old ≡ longest_name) }
    ensures { Stepped heads src.now (cursor_of at index name.old len)
        (step_of at index result name.new)
        × Keeps heads index (take len name.old) result name.new }
{
    let s = &src[at..];
    let p = part_at(heads, index, &name[..len], s)?;
    let end = p.start + p.own;
    octets_code::copy(name, p.kept, &s[p.start..end]);
    Some(p)
}
