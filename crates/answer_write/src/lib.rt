// Answer entries: what name-at, completion and sheets write for an entry.
#![tactic(auto)]

ghost use Rattle.std.specs.Prelude.{◌≡◌, ◌+◌, ◌≤◌, length};
ghost use Rattle.std.proofs.lemmas.List.Edits.{sets};
ghost use Rattle.entries.specs.Entries.{entry};
ghost use Rattle.entries.specs.Names.{longest_name};
ghost use Rattle.answer.specs.Answers.{entry_bytes};
ghost use Rattle.answer.specs.Reports.{Answered};
ghost use Rattle.answer_write.specs.Entry.{one_entry};

use answer::{Refusal, Size};
use limits::{ENTRY_OVERHEAD, SCORE_BYTES};

// Writes one entry, length byte, name and 4-byte score, for which there is room: where it ends.
pub fn put_entry(dst: &mut [u8], at: usize, name: &[u8], score: u32) -> usize
    requires { (length name.now ≤ longest_name) × (at + 5 + length name.now ≤ length dst.old) }
    ensures { (dst.new ≡ sets dst.old at (entry_bytes (entry name.now score)))
        × (result ≡ at + 5 + length name.now) }
{
    dst[at] = name.len() as u8;
    octets_code::copy(dst, at + 1, name);
    let end = at + 1 + name.len();
    octets_code::write_u32(dst, end, score);
    end + SCORE_BYTES
}

// Writes one answer entry, where the destination has room.
pub fn write_entry(name: &[u8], score: u32, dst: &mut [u8]) -> Result<Size, Refusal>
    requires { length name.now ≤ longest_name }
    ensures { Answered (one_entry (entry name.now score) dst.old) result dst.new }
{
    let bytes = name.len() + ENTRY_OVERHEAD;
    if dst.len() < bytes {
        return Err(Refusal::TooShort);
    }
    put_entry(dst, 0, name, score);
    Ok(Size { entries: 1, bytes })
}
