// One node of a trie read where it lies: its fields, its label as a part of the buffer, the end of its group.
#![tactic(auto)]

ghost use Rattle.std.specs.Prelude.{◌≡◌, length, ◌≤◌};
ghost use Rattle.trie_laws.specs.Keys.{key};
ghost use Rattle.entries_laws.specs.Halves.{half_behind};
ghost use Rattle.trie_check_laws.specs.Walk.{head_of, label_at};
ghost use Rattle.trie_check_fields.specs.Known.{EndIs, EndKnown, HeadKnown};

use entries_laws::Half;
use trie_check_laws::Fields;

// The key of a label: 0 for the empty one, else one more than its first byte.
fn key_of(label: &[u8]) -> usize
    ensures { result ≡ key label.now }
{
    if label.len() == 0 {
        return 0;
    }
    label[0] as usize + 1
}

// The node at an offset, if its bytes are there and its score field has the smallest size.
pub fn head_at(buf: &[u8], at: usize) -> Option<Fields>
    ensures is { result ≡ head_of buf.now at }
    ensures known { HeadKnown result at (length buf.now) }
{
    if buf.len() <= at {
        return None;
    }
    let h = buf[at];
    let score_size = trie_header::score_size(h);
    let child_size = trie_header::child_size(h);
    let len = trie_header::label_length(h);
    let body = score_size + child_size + len;
    if buf.len() - at - 1 < body {
        return None;
    }
    let from = at + 1;
    let field = trie_header::field_at(buf, from, score_size) as usize;
    if trie_header::size_of(field) != score_size {
        return None;
    }
    let mid = from + score_size;
    let label = trie_header::label_part(buf, mid + child_size, len);
    let child = trie_header::field_at(buf, mid, child_size) as usize;
    Some(Fields {
        end: from + body,
        last: trie_header::last_mark(h),
        field,
        size: child_size,
        child,
        key: key_of(label),
        len,
    })
}

// The half of a pair that is open behind the label of a node, where `half` is open in front of it.
pub fn half_behind(buf: &[u8], half: Half, n: Fields) -> Half
    requires { (n.len ≤ n.end) × (n.end ≤ length buf.now) }
    ensures { result ≡ half_behind half (label_at buf.now n) }
{
    let len = n.len;
    let label = trie_header::label_part(buf, n.end - len, len);
    entries_check::half_after(half, label)
}

// Where the group at an offset ends: past its first node with the last mark. The loop walks by nodes, each of which
// says where the next begins.
pub fn group_end(buf: &[u8], at: usize) -> Option<usize>
    ensures is { EndIs buf.now at result }
    ensures known { EndKnown result at (length buf.now) }
{
    let mut from = at;
    loop {
        let n = head_at(buf, from)?;
        if n.last {
            return Some(n.end);
        }
        from = n.end;
    }
}
