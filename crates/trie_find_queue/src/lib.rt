// The nodes of a trie that wait in a search, by value and in rank: the best first, at most one for each entry that can
// be asked for.
#![tactic(auto)]

ghost use Rattle.std.specs.Prelude.{◌≡◌, ◌-◌, ◌<◌, ◌≤◌, drop};
ghost use Rattle.entries.specs.Completion.{max_count};
ghost use Rattle.entries.specs.Names.{longest_name};
ghost use Rattle.trie_find_queue.specs.Waits.{QueueReady, Queued, node_outranks, rank_among, put_at, put_in_rank};
ghost use Rattle.trie_find_queue.specs.Waits.{waits};

use limits::{LONGEST_NAME, MAX_COUNT};

// A node that waits: the path down to it with its own label, and its score; where it stands in the trie; from where its
// child field counts; whether no later sibling waits with it. The path is an array, with its length beside, since there
// is no heap.
#[derive(Clone, Copy)]
pub struct WaitingNode {
    pub path: [u8; LONGEST_NAME],
    pub len: usize,
    pub score: u32,
    pub at: usize,
    pub from: usize,
    pub last: bool,
}

// The nodes that wait, the best first: an array and how many wait in it, since there is no heap.
#[derive(Clone, Copy)]
pub struct NodeQueue {
    pub nodes: [WaitingNode; MAX_COUNT],
    pub count: usize,
}

// Whether a comes before b in rank, by path and score.
fn node_outranks(a: WaitingNode, b: WaitingNode) -> bool
    requires { (a.len ≤ longest_name) × (b.len ≤ longest_name) }
    ensures { result ≡ node_outranks a b }
{
    entries_rank::outranks(&a.path[..a.len], a.score, &b.path[..b.len], b.score)
}

// How many nodes come before x.
fn rank_among(q: NodeQueue, x: WaitingNode) -> usize
    requires { QueueReady q × (x.len ≤ longest_name) }
    ensures { result ≡ rank_among x (waits q) }
{
    for (i, y) in q.nodes[..q.count].iter().enumerate() {
        if !node_outranks(*y, x) {
            return i;
        }
    }
    q.count
}

// Puts x at index i; if there are then more than `most`, the last is dropped.
fn put_at(q: NodeQueue, i: usize, x: WaitingNode, most: usize) -> NodeQueue
    requires { (i ≤ q.count) × (q.count ≤ most) × (most ≤ max_count) }
    ensures { Queued most (put_at i x (waits q)) result }
{
    let count = most.min(q.count + 1);
    let mut nodes = q.nodes;
    if i < count {
        nodes.copy_within(i..count - 1, i + 1);
        nodes[i] = x;
    }
    NodeQueue { nodes, count }
}

// Puts x in its place; if there are then more than `most`, the last is dropped.
pub fn put(q: NodeQueue, x: WaitingNode, most: usize) -> NodeQueue
    requires { QueueReady q × (x.len ≤ longest_name) × (q.count ≤ most) × (most ≤ max_count) }
    ensures { Queued most (put_in_rank x (waits q)) result }
{
    let i = rank_among(q, x);
    put_at(q, i, x, most)
}

// The nodes that wait behind the first.
pub fn rest(q: NodeQueue) -> NodeQueue
    requires { (0 < q.count) × (q.count ≤ max_count) }
    ensures { (waits result ≡ drop 1 (waits q)) × (result.count ≡ q.count - 1) }
{
    let count = q.count;
    let mut nodes = q.nodes;
    nodes.copy_within(1..count, 0);
    NodeQueue {
        nodes,
        count: count - 1,
    }
}
