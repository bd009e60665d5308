// Records written one by one, and their sizes.
#![tactic(auto)]

ghost use Rattle.std.specs.Prelude.{◌≤◌, length};
ghost use Rattle.entries.specs.Names.{longest_name};
ghost use Rattle.book.specs.Records.{record_of};
ghost use Rattle.book_record_write.specs.Written.{RecordPut, RecordRoom, Sized, head_record, tail_record};

use limits::HEADER_BYTES;

// Writes a head at index at, and answers where it ends: the name's length, the name.
fn put_head(dst: &mut [u8], at: usize, name: &[u8]) -> usize
    requires { RecordRoom dst.old at (head_record name.now) name.now }
    ensures { RecordPut dst.old dst.new at (head_record name.now) result }
{
    dst[at] = name.len() as u8;
    octets_code::copy(dst, at + 1, name);
    at + 1 + name.len()
}

// Writes another record: the number of bytes shared with the name before, the length of the rest, the rest.
fn put_tail(dst: &mut [u8], at: usize, prev: &[u8], name: &[u8]) -> usize
    requires { RecordRoom dst.old at (tail_record prev.now name.now) name.now }
    ensures { RecordPut dst.old dst.new at
        (tail_record prev.now name.now) result }
{
    let kept = octets_code::common_prefix(prev, name);
    let rest = &name[kept..];
    dst[at] = kept as u8;
    dst[at + 1] = rest.len() as u8;
    octets_code::copy(dst, at + HEADER_BYTES, rest);
    at + HEADER_BYTES + rest.len()
}

// Writes the record of a name, at a position behind the name prev, and answers where it ends.
pub fn put_record(
    dst: &mut [u8],
    at: usize,
    heads: bool,
    index: usize,
    prev: &[u8],
    name: &[u8],
) -> usize
    requires { RecordRoom dst.old at (record_of heads index prev.now name.now) name.now }
    ensures { RecordPut dst.old dst.new at
        (record_of heads index prev.now name.now) result }
{
    if book_layout::is_head(heads, index) {
        put_head(dst, at, name)
    } else {
        put_tail(dst, at, prev, name)
    }
}

// How many bytes the record of a name takes.
pub fn record_size(heads: bool, index: usize, prev: &[u8], name: &[u8]) -> usize
    requires { length name.now ≤ longest_name }
    ensures { Sized (record_of heads index prev.now name.now) result }
{
    if book_layout::is_head(heads, index) {
        1 + name.len()
    } else {
        HEADER_BYTES + (name.len() - octets_code::common_prefix(prev, name))
    }
}
