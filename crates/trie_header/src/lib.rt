// A trie node: its header byte and the sizes of its fields, written and read by shifts and masks; a field and the label
// read where they lie.
#![tactic(auto)]

ghost use Rattle.std.specs.Prelude.{◌≡◌, ◌+◌, ◌<◌, ◌≤◌, drop, length, take};
ghost use Rattle.octets.specs.Octets.{number_at};
ghost use Rattle.trie.specs.Reading.{child_size, label_length, last_mark, score_size, size_at};
ghost use Rattle.trie.specs.Trie.{code_of, header_byte, own_size, size_of};

// Where the fields stand in a header byte: the score size in bits 7 and 6, the child size in 5 and 4, the last-sibling
// mark in bit 3, the label length below.
const SCORE_SHIFT: u8 = 6;

const CHILD_SHIFT: u8 = 4;

const MARK_SHIFT: u8 = 3;

const SIZE_MASK: u8 = 3;

const LABEL_MASK: u8 = 7;

// The smallest size that holds a value. A size is a number of bytes, 0, 1, 2 or 4: it goes into sums as it stands.
pub fn size_of(v: usize) -> usize
    ensures { result ≡ size_of v }
{
    match v {
        0 => 0,
        1..=255 => 1,
        256..=65535 => 2,
        _ => 4,
    }
}

// The smallest size of a field that counts its own bytes, with so many other bytes in the group.
pub fn own_size(rest: usize) -> usize
    ensures { result ≡ own_size rest }
{
    if rest < 255 {
        return 1;
    }
    if rest < 65534 {
        return 2;
    }
    4
}

// Sizes 0, 1, 2, 4 have the codes 0, 1, 2, 3.
fn code_of(size: usize) -> u8
    requires { size ≤ 4 }
    ensures { result ≡ code_of size }
{
    if size == 4 {
        return 3;
    }
    size as u8
}

// The header byte of a node with a score field and a child field of these sizes and a label of so many bytes.
pub fn header(score: usize, child: usize, last: bool, label: usize) -> u8
    requires { (score ≤ 4) × (child ≤ 4) × (label < 8) }
    ensures { result ≡ header_byte score child last label }
{
    let high = code_of(score);
    let low = code_of(child);
    let mark = u8::from(last);
    let len = label as u8;
    (high << SCORE_SHIFT) | ((low << CHILD_SHIFT) | ((mark << MARK_SHIFT) | (len & LABEL_MASK)))
}

// Size codes 0, 1, 2, 3 mean 0, 1, 2, 4 bytes.
fn size_at(code: u8) -> usize
    ensures { result ≡ size_at code }
{
    if code == 3 {
        return 4;
    }
    code as usize
}

// The score size in bits 7 and 6.
pub fn score_size(h: u8) -> usize
    ensures { result ≡ score_size h }
{
    size_at(h >> SCORE_SHIFT)
}

// The child size in bits 5 and 4.
pub fn child_size(h: u8) -> usize
    ensures { result ≡ child_size h }
{
    size_at((h >> CHILD_SHIFT) & SIZE_MASK)
}

// The last-sibling mark in bit 3.
pub fn last_mark(h: u8) -> bool
    ensures { result ≡ last_mark h }
{
    (h >> MARK_SHIFT) & 1 == 1
}

// The label length in bits 2 to 0.
pub fn label_length(h: u8) -> usize
    ensures { result ≡ label_length h }
{
    (h & LABEL_MASK) as usize
}

// The number in a field of 0, 1, 2 or 4 bytes.
pub fn field_at(buf: &[u8], at: usize, size: usize) -> u32
    requires { (at + size ≤ length buf.now) × (size ≤ 4) × (size ≡ 3 → ⊥) }
    ensures { result ≡ number_at size buf.now at }
{
    match size {
        0 => 0,
        1 => u32::from(buf[at]),
        2 => u32::from(octets_code::read_u16(buf, at)),
        _ => octets_code::read_u32(buf, at),
    }
}

// The label of so many bytes at an index, a part of the buffer.
pub fn label_part<'a>(buf: &'a [u8], at: usize, len: usize) -> &'a [u8]
    requires { at + len ≤ length buf.now }
    ensures { result.now ≡ take len (drop at buf.now) }
{
    let end = at + len;
    &buf[at..end]
}
