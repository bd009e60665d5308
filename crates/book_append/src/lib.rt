// A pass over entries that are to stand in a book one after the other: it puts each, or only measures its record.
#![tactic(auto)]

ghost use Rattle.std.specs.Prelude.{◌≡◌, [], ◌∷◌, ◌+◌, length};
ghost use Rattle.entries.specs.Entries.{entry};
ghost use Rattle.entries.specs.Names.{longest_name};
ghost use Rattle.book_laws.specs.Cursor.{cursor_of};
ghost use Rattle.book_write.specs.Calls.{InImage};
ghost use Rattle.book_append.specs.Append.{AppendDone, Fits, after_given, cursor_behind};

use book_write::Slot;

// Where an entry is put; without `store` it is only measured. The flag stays: one pass both measures and puts, so that
// the two end alike, and a closure or an Option of the buffer in its place would have to be lent anew for each entry,
// with the same two cases in every contract.
#[derive(Clone, Copy)]
pub struct EntryTarget {
    pub slot: Slot,
    pub store: bool,
}

// Passes an entry behind the name prev: puts it, or only measures its record. Where the record ends.
pub fn pass_entry(dst: &mut [u8], to: EntryTarget, prev: &[u8], name: &[u8], score: u32) -> usize
    requires { Fits to.slot.layout to.store to.slot.n
        (cursor_behind to.slot.at to.slot.index prev.now)
        (entry name.now score ∷ []) dst.old }
    ensures { AppendDone to.slot.layout to.store to.slot.n
        (cursor_behind to.slot.at to.slot.index prev.now)
        (entry name.now score ∷ []) dst.old
        (cursor_behind result (to.slot.index + 1) name.now) dst.new }
{
    let slot = to.slot;
    if to.store {
        return book_write::put_entry(dst, slot, prev, name, score);
    }
    let l = slot.layout;
    slot.at + book_record_write::record_size(l.heads, slot.index, prev, name)
}

// Passes an entry whose record is given: puts it, or only measures it. Where the record ends.
pub fn pass_given(dst: &mut [u8], to: EntryTarget, coded: &[u8], score: u32) -> usize
    requires { InImage to.slot }
    ensures { (dst.new ≡ after_given to coded.now score dst.old)
        × (result ≡ to.slot.at + length coded.now) }
{
    let slot = to.slot;
    if to.store {
        return book_write::put_given(dst, slot, coded, score);
    }
    slot.at + coded.len()
}

// Passes an entry behind the name before, the first len bytes of prev; the entry's own name takes its place. Where the
// record ends.
pub fn pass_next(
    dst: &mut [u8],
    to: EntryTarget,
    prev: &mut [u8],
    len: usize,
    name: &[u8],
    score: u32,
) -> usize
    requires { Fits to.slot.layout to.store to.slot.n
        (cursor_of to.slot.at to.slot.index prev.old len)
        (entry name.now score ∷ []) dst.old
        × (length prev.old ≡ longest_name) }
    ensures { AppendDone to.slot.layout to.store to.slot.n
        (cursor_of to.slot.at to.slot.index prev.old len)
        (entry name.now score ∷ []) dst.old
        (cursor_of result (to.slot.index + 1) prev.new (length name.now)) dst.new }
{
    let end = pass_entry(dst, to, &prev[..len], name, score);
    octets_code::copy(prev, 0, name);
    end
}
