// What the check of a trie carries through its walk. The rest of this crate is definitions and laws.
#![tactic(auto)]

use entries_laws::Half;

// What a node's header and fields say: where it ends, the last-sibling mark, the score field, the child field's size
// and value, the key of its label (0 for the empty label, else one more than the first byte) and the label's length.
#[derive(Clone, Copy)]
pub struct Fields {
    pub end: usize,
    pub last: bool,
    pub field: usize,
    pub size: usize,
    pub child: usize,
    pub key: usize,
    pub len: usize,
}

// Where the check stands among siblings: the node at `at`; the next group is to begin at `next`, which the next child
// field gives as `back`, and that field counts its own bytes if `own`; score and key are those of the sibling before,
// or the score above for the first; `path` bytes of names stand above, behind which a half of a pair may be open,
// `full` if the label above has 7 bytes or there is none; `left` entries are still to come.
#[derive(Clone, Copy)]
pub struct Among {
    pub at: usize,
    pub next: usize,
    pub back: usize,
    pub own: bool,
    pub first: bool,
    pub score: usize,
    pub key: usize,
    pub path: usize,
    pub half: Half,
    pub full: bool,
    pub left: usize,
}

// What stands above a group: how many bytes of names, which half of a pair is open behind them, the score above, and
// whether the label above has 7 bytes or there is none.
#[derive(Clone, Copy)]
pub struct Above {
    pub path: usize,
    pub half: Half,
    pub score: usize,
    pub full: bool,
}

// Where a group ends with all its descendants, and how many entries are still to come.
#[derive(Clone, Copy)]
pub struct WalkEnd {
    pub end: usize,
    pub left: usize,
}
