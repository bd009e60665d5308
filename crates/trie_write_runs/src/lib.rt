// One node of a sibling group: the rows that it stands for, as a run, its fields and its size.
#![tactic(auto)]

ghost use Rattle.std.specs.Prelude.{◌≡◌, ◌<◌, ◌≤◌, drop};
ghost use Rattle.trie.specs.Trie.{longest_label};
ghost use Rattle.trie_write_runs.specs.Runs.{first_high};
ghost use Rattle.trie_write_runs.specs.Fields.{after, child_part, first_fields, node_length, plain_fields};

// The most runs of a group: `most_runs`.
pub const MOST_RUNS: usize = 98;

// A node: rows lo to before hi, their highest score, the label's length, the bytes of what stands under it.
#[derive(Clone, Copy)]
pub struct Run {
    pub lo: u32,
    pub hi: u32,
    pub high: u32,
    pub len: u32,
    pub under: u32,
}

// What stands where a group has no run: `no_run`.
pub const NO_RUN: Run = Run {
    lo: 0,
    hi: 0,
    high: 0,
    len: 0,
    under: 0,
};

// What the fields of the next sibling say: its score field, and its child field if it has children.
#[derive(Clone, Copy)]
pub struct NodeFields {
    pub score: usize,
    pub child: usize,
    pub size: usize,
}

// A run with the bytes of what stands under it.
pub fn with_under(r: Run, n: u32) -> Run
    ensures { result ≡ record { lo = r.lo; hi = r.hi; high = r.high; len = r.len; under = n } }
{
    Run { under: n, ..r }
}

// The score of the sibling at an index; 0 behind the last.
pub fn score_at(runs: &[Run], i: usize) -> usize
    ensures { result ≡ first_high (drop i runs.now) }
{
    if i < runs.len() {
        return runs[i].high as usize;
    }
    0
}

// The fields of the sibling after r, whose score is given: the difference, and where its children are counted from.
pub fn next_after(r: Run, f: NodeFields, score: usize) -> NodeFields
    requires { score ≤ r.high }
    ensures { result ≡ after r f score }
{
    let high = r.high as usize;
    let under = r.under as usize;
    if under == 0 {
        return NodeFields {
            score: high - score,
            ..f
        };
    }
    NodeFields {
        score: high - score,
        child: under,
        size: trie_header::size_of(under),
    }
}

// A part of a node's child field, its size or its value: 0 for a leaf, which has no child field.
pub fn child_part(r: Run, part: usize) -> usize
    ensures { result ≡ child_part r part }
{
    if r.under == 0 {
        return 0;
    }
    part
}

// The bytes of a node: header, score field, child field, label.
pub fn node_size(r: Run, f: NodeFields) -> usize
    requires { (r.len ≤ longest_label) × (f.size ≤ 4) }
    ensures { (result ≡ node_length r f) × (result ≤ 16) }
{
    let score = trie_header::size_of(f.score);
    let child = child_part(r, f.size);
    1 + score + child + r.len as usize
}

// The fields of a group's first sibling without a child field.
pub fn plain_fields(s: usize) -> NodeFields
    ensures { result ≡ plain_fields s }
{
    NodeFields {
        score: s,
        child: 0,
        size: 0,
    }
}

// The fields of a group's first sibling, with so many bytes in the group besides the child field that counts its own.
pub fn first_fields(s: usize, other: usize) -> NodeFields
    requires { other < 65536 }
    ensures { result ≡ first_fields s other }
{
    let own = trie_header::own_size(other);
    NodeFields {
        score: s,
        child: other + own,
        size: own,
    }
}
