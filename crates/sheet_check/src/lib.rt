// The check of a sheet image in one pass.
#![tactic(auto)]

ghost use Rattle.std.specs.Prelude.{◌≡◌, [], ◌≤◌, length};
ghost use Rattle.entries.specs.Entries.{max_entries};
ghost use Rattle.frame_code.specs.Image.{ended_as, image_as};
ghost use Rattle.sheet_check.specs.Check.{row_is, rows_end};
ghost use Rattle.sheet.specs.Sheet.{read_sheet};

use frame_code::Frame;
use limits::{ENTRY_OVERHEAD, FRAME_LENGTH, SCORE_BYTES, SHEET_VERSION};

// Whether the entry at the front of s is one of a sheet, behind the name prev.
fn row_is(prev: &[u8], s: &[u8]) -> bool
    ensures { result ≡ row_is prev.now s.now }
{
    if s.len() < ENTRY_OVERHEAD {
        return false;
    }
    let len = s[0] as usize;
    if s.len() - ENTRY_OVERHEAD < len {
        return false;
    }
    let end = 1 + len;
    let name = &s[1..end];
    if !entries_check::is_name(name) {
        return false;
    }
    octets_code::is_below(prev, name)
}

// Where the n entries behind the frame end.
fn rows_end(buf: &[u8], n: usize) -> Option<usize>
    requires { (n ≤ max_entries) × (7 ≤ length buf.now) }
    ensures { result ≡ ended_as (rows_end n [] 7 buf.now) }
{
    let mut at = FRAME_LENGTH;
    let mut prev: &[u8] = &[];
    for _ in 0..n {
        if !row_is(prev, &buf[at..]) {
            return None;
        }
        let start = at + 1;
        let end = start + buf[at] as usize;
        prev = &buf[start..end];
        at = end + SCORE_BYTES;
    }
    Some(at)
}

// Checks the sheet at the front of a buffer: how many entries it has.
pub fn check(buf: &[u8]) -> Option<usize>
    ensures { result ≡ image_as (read_sheet buf.now) }
{
    let Frame { entries, total } = frame_code::check_frame(buf, SHEET_VERSION)?;
    let end = rows_end(buf, entries)?;
    if end != total {
        return None;
    }
    Some(entries)
}
