// A node in its place among siblings: the rules that it is tested for, and the place behind it.
#![tactic(auto)]

ghost use Rattle.std.specs.Prelude.{◌≡◌, false, ◌-◌, ◌<◌, ◌≤◌};
ghost use Rattle.trie_check_laws.specs.Walk.{after_node, begin_group, child_stands, label_stands, lonely, mark_count};
ghost use Rattle.trie_check_laws.specs.Walk.{mark_place, score_of, score_stands, stands};

use limits::LONGEST_NAME;
use trie_check_laws::{Above, Among, Fields};

// The places for the marks of keys: `mark_count`; the low ones, where no byte of 20 to 7E has its own: `low_places`.
pub const MARK_COUNT: usize = 128;

const LOW_PLACES: usize = 32;

// Where the mark of a key stands: in its own place, or for a byte past 7E in a low one.
pub fn mark_place(key: usize) -> usize
    ensures { (result ≡ mark_place key) × (result < mark_count) }
{
    if key < MARK_COUNT {
        return key;
    }
    key % LOW_PLACES
}

// Whether a first sibling may be the last: it has a label, and stands under one of 7 bytes or at the top.
fn is_lonely(p: Among, n: Fields) -> bool
    ensures { result ≡ lonely p n }
{
    if !n.last {
        return true;
    }
    if !p.full {
        return false;
    }
    n.len != 0
}

// Whether the score field stands: 0 for a first sibling but the first of all. Siblings stand in rank (document 01:
// "higher score first, at equal scores the earlier name"; `outranks`): falling scores, at equal ones rising keys of
// their labels.
fn score_stands(p: Among, n: Fields) -> bool
    ensures { result ≡ score_stands p n }
{
    if p.first {
        if p.path == 0 {
            return is_lonely(p, n);
        }
        if n.field == 0 {
            return is_lonely(p, n);
        }
        return false;
    }
    if p.score < n.field {
        return false;
    }
    if n.field != 0 {
        return true;
    }
    p.key < n.key
}

// Whether the label stands: names of at most 48 bytes, an empty label only on a leaf that is not in the first group.
fn label_stands(p: Among, n: Fields) -> bool
    ensures { result ≡ label_stands p n }
{
    if LONGEST_NAME < p.path {
        return false;
    }
    if LONGEST_NAME - p.path < n.len {
        return false;
    }
    if n.len != 0 {
        return true;
    }
    if p.path == 0 {
        return false;
    }
    n.size == 0
}

// Whether the child field stands: a leaf is one of the entries to come; else it says where the next group is, in the
// smallest size.
fn child_stands(p: Among, n: Fields) -> bool
    ensures { result ≡ child_stands p n }
{
    if n.size == 0 {
        return p.left != 0;
    }
    if n.child != p.back {
        return false;
    }
    if !p.own {
        return n.size == trie_header::size_of(n.child);
    }
    n.size == trie_header::own_size(n.child.saturating_sub(n.size))
}

// The tests of a node in its place.
pub fn fits_here(p: Among, n: Fields) -> bool
    ensures { result ≡ stands p n }
{
    if !score_stands(p, n) {
        return false;
    }
    if !label_stands(p, n) {
        return false;
    }
    child_stands(p, n)
}

// A node's score: the whole field for the first node of all, the score above for another first sibling.
pub fn new_score(p: Among, n: Fields) -> usize
    requires { p.first ≡ false → n.field ≤ p.score }
    ensures { result ≡ score_of p n }
{
    if !p.first {
        return p.score - n.field;
    }
    if p.path == 0 {
        return n.field;
    }
    p.score
}

// Behind a node: where the next group is to begin, how the next child field says so, and the entries still to
// come.
pub fn after_node(p: Among, n: Fields, next: usize, back: usize, own: bool, left: usize) -> Among
    requires { p.first ≡ false → n.field ≤ p.score }
    ensures { result ≡ after_node p n next back own left }
{
    Among {
        at: n.end,
        next,
        back,
        own,
        first: false,
        score: new_score(p, n),
        key: n.key,
        path: p.path,
        half: p.half,
        full: p.full,
        left,
    }
}

// Before the group at an offset, whose siblings end at next.
pub fn begin_at(at: usize, next: usize, a: Above, left: usize) -> Among
    requires { at ≤ next }
    ensures { result ≡ begin_group at next a left }
{
    Among {
        at,
        next,
        back: next - at,
        own: true,
        first: true,
        score: a.score,
        key: 0,
        path: a.path,
        half: a.half,
        full: a.full,
        left,
    }
}
