// The nodes of a trie where they stand, and the steps from one that waits to its first child and to its next sibling.
#![tactic(auto)]

ghost use Rattle.std.specs.Prelude.{◌≡◌, false, ◌+◌, ◌≤◌, length};
ghost use Rattle.trie_find_laws.specs.Places.{behind_at, children_at, from_behind, is_leaf_at, label_at, score_field_at};
ghost use Rattle.trie_find_steps.specs.Steps.{ChildRoom, FitsPath, NextRoom, NodeInside, arrive_at, first_child};
ghost use Rattle.trie_find_steps.specs.Steps.{next_sibling};

use limits::LONGEST_NAME;
use trie_find_queue::WaitingNode;

// The score field of the node at an index.
pub fn score_field(trie: &[u8], at: usize) -> u32
    requires { NodeInside trie.now at }
    ensures { result ≡ score_field_at trie.now at }
{
    let size = trie_header::score_size(trie[at]);
    trie_header::field_at(trie, at + 1, size)
}

// Where the first child of the node at an index stands, if its child field counts from `from`.
fn children_at(trie: &[u8], at: usize, from: usize) -> usize
    requires { NodeInside trie.now at × (children_at trie.now at from ≤ length trie.now) }
    ensures { result ≡ children_at trie.now at from }
{
    let h = trie[at];
    let start = at + 1 + trie_header::score_size(h);
    let size = trie_header::child_size(h);
    let field = trie_header::field_at(trie, start, size);
    from + field as usize
}

// The label of the node at an index, a part of the trie.
fn label_at<'a>(trie: &'a [u8], at: usize) -> &'a [u8]
    requires { NodeInside trie.now at }
    ensures { result.now ≡ label_at trie.now at }
{
    let h = trie[at];
    let start = at + 1 + trie_header::score_size(h) + trie_header::child_size(h);
    let len = trie_header::label_length(h);
    trie_header::label_part(trie, start, len)
}

// The index behind the node at an index.
fn behind(trie: &[u8], at: usize) -> usize
    requires { NodeInside trie.now at }
    ensures { result ≡ behind_at trie.now at }
{
    let h = trie[at];
    at + 1 + trie_header::score_size(h) + trie_header::child_size(h) + trie_header::label_length(h)
}

// Whether the node at an index has no children.
pub fn is_leaf(trie: &[u8], at: usize) -> bool
    requires { NodeInside trie.now at }
    ensures { result ≡ is_leaf_at trie.now at }
{
    trie_header::child_size(trie[at]) == 0
}

// From where the child field of the next sibling counts.
fn from_behind(trie: &[u8], at: usize, from: usize) -> usize
    requires { NodeInside trie.now at
        × (is_leaf_at trie.now at ≡ false → children_at trie.now at from ≤ length trie.now) }
    ensures { result ≡ from_behind trie.now at from }
{
    if is_leaf(trie, at) {
        return from;
    }
    children_at(trie, at, from)
}

// The node at an index behind a path, the first `len` bytes of the array, with its score.
pub fn arrive(
    trie: &[u8],
    path: [u8; LONGEST_NAME],
    len: usize,
    score: u32,
    at: usize,
    from: usize,
) -> WaitingNode
    requires { FitsPath trie.now len at }
    ensures { result ≡ arrive_at trie.now path len score at from }
{
    let own = label_at(trie, at);
    let mut whole = path;
    octets_code::copy(&mut whole, len, own);
    let h = trie[at];
    WaitingNode {
        path: whole,
        len: len + trie_header::label_length(h),
        score,
        at,
        from,
        last: trie_header::last_mark(h),
    }
}

// The first child of a node: it has the node's score.
pub fn first_child(trie: &[u8], x: WaitingNode) -> WaitingNode
    requires { ChildRoom trie.now x }
    ensures { result ≡ first_child trie.now x }
{
    let at = children_at(trie, x.at, x.from);
    arrive(trie, x.path, x.len, x.score, at, at)
}

// The next sibling of a node: it has the path in front of the node's label, and its score is lower by its field.
pub fn next_sibling(trie: &[u8], x: WaitingNode) -> WaitingNode
    requires { NextRoom trie.now x }
    ensures { result ≡ next_sibling trie.now x }
{
    let own = x.at;
    let at = behind(trie, own);
    let from = from_behind(trie, own, x.from);
    let len = x.len - trie_header::label_length(trie[own]);
    let score = x.score - score_field(trie, at);
    arrive(trie, x.path, len, score, at, from)
}
