// The check of a trie image: group and node call each other down the tree, and each rule of the layout is tested where
// it applies.
#![tactic(auto)]

ghost use Rattle.std.specs.Prelude.{◌≡◌, true, ◌≤◌, length};
ghost use Rattle.frame_code.specs.Image.{image_as};
ghost use Rattle.trie.specs.Reading.{read_trie};
ghost use Rattle.trie_check_laws.specs.Walk.{stands};
ghost use Rattle.trie_check.specs.Known.{GroupIs, GroupKnown, NodeIs, NodeKnown};

use entries_laws::Half;
use frame_code::Frame;
use limits::{FRAME_LENGTH, LONGEST_LABEL, TRIE_VERSION};
use trie_check_laws::{Above, Among, Fields, WalkEnd};
use trie_check_rules::MARK_COUNT;

// A node that stands in its place, with all that stands below it: the place behind it. Its label may end inside a pair,
// if the labels below go on with the pair's other half.
#[cycle(group_node)]
fn node(buf: &[u8], p: Among, n: Fields) -> Option<Among>
    requires { (p.next ≤ length buf.now) × (stands p n ≡ true) × (n.len ≤ n.end)
        × (n.end ≤ length buf.now) }
    ensures is { NodeIs buf.now p n result }
    ensures known { NodeKnown result p.next (length buf.now) }
{
    let half = trie_check_fields::half_behind(buf, p.half, n);
    if n.size == 0 {
        if half != Half::None {
            return None;
        }
        return Some(trie_check_rules::after_node(p, n, p.next, p.back, p.own, p.left - 1));
    }
    let path = p.path + n.len;
    let score = trie_check_rules::new_score(p, n);
    let above = Above {
        path,
        half,
        score,
        full: n.len == LONGEST_LABEL,
    };
    let WalkEnd { end, left } = group(buf, p.next, above, p.left)?;
    Some(trie_check_rules::after_node(p, n, end, end - p.next, false, left))
}

// The group at an offset, with all its descendants. `seen` has the marks of the keys of the siblings before, numbers as
// in `walk_of`. The loop walks by siblings, each of which says where the next begins.
#[cycle(group_node)]
fn group(buf: &[u8], at: usize, a: Above, left: usize) -> Option<WalkEnd>
    ensures is { GroupIs buf.now at a left result }
    ensures known { GroupKnown result at (length buf.now) }
{
    let next = trie_check_fields::group_end(buf, at)?;
    let mut p = trie_check_rules::begin_at(at, next, a, left);
    let mut seen = [0u8; MARK_COUNT];
    loop {
        let n = trie_check_fields::head_at(buf, p.at)?;
        if !trie_check_rules::fits_here(p, n) {
            return None;
        }
        let place = trie_check_rules::mark_place(n.key);
        if seen[place] != 0 {
            return None;
        }
        seen[place] = 1;
        let q = node(buf, p, n)?;
        if n.last {
            return Some(WalkEnd {
                end: q.next,
                left: q.left,
            });
        }
        p = q;
    }
}

// Checks the trie at the front of a buffer: how many entries it has.
pub fn check(buf: &[u8]) -> Option<usize>
    ensures { result ≡ image_as (read_trie buf.now) }
{
    let Frame { entries, total } = frame_code::check_frame(buf, TRIE_VERSION)?;
    if entries == 0 {
        if total != FRAME_LENGTH {
            return None;
        }
        return Some(0);
    }
    let above = Above {
        path: 0,
        half: Half::None,
        score: 0,
        full: true,
    };
    let WalkEnd { end, left } = group(buf, FRAME_LENGTH, above, entries)?;
    if end != total {
        return None;
    }
    if left != 0 {
        return None;
    }
    Some(entries)
}
