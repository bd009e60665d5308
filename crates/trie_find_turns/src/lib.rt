// The turns of a search in a trie: from a node that waits down its first children to a leaf; and the way to where a
// prefix leads.
#![tactic(auto)]

ghost use Rattle.std.specs.Prelude.{◌≡◌, [], ◌∷◌, ◌≤◌};
ghost use Rattle.octets.specs.Octets.{begins};
ghost use Rattle.entries.specs.Names.{longest_name};
ghost use Rattle.trie_find_queue.specs.Waits.{Queued, path_of, waits};
ghost use Rattle.trie_find_steps.specs.Steps.{NodeInside};
ghost use Rattle.trie_find_turns.specs.Turns.{Led, NextReady, OnWay, SomeTodo, SomeToward, TurnIs, goes_down};
ghost use Rattle.trie_find_turns.specs.Turns.{is_stuck, next_on_way, with_last, with_next};

use limits::{LONGEST_NAME, MAX_COUNT};
use trie_find_queue::{NodeQueue, WaitingNode};

// What a turn gives: the leaf that it offers, and the nodes that wait then.
#[derive(Clone, Copy)]
pub struct TrieTurn {
    pub leaf: WaitingNode,
    pub queue: NodeQueue,
}

// The nodes that wait, with the next sibling of a node if it has one.
fn put_next(trie: &[u8], q: NodeQueue, x: WaitingNode, most: usize) -> NodeQueue
    requires { NextReady trie.now q x most }
    ensures { Queued most (with_next trie.now x (waits q)) result }
{
    if x.last {
        return q;
    }
    let y = trie_find_steps::next_sibling(trie, x);
    trie_find_queue::put(q, y, most)
}

// From a node down its first children to a leaf; the next sibling of each node on the way comes to wait, with at most
// `most` in all.
pub fn follow(trie: &[u8], x: WaitingNode, q: NodeQueue, most: usize) -> TrieTurn
    requires { SomeTodo trie.now most x q }
    ensures { TurnIs trie.now most x q result }
{
    let mut node = x;
    let mut queue = q;
    while !trie_find_steps::is_leaf(trie, node.at) {
        queue = put_next(trie, queue, node, most);
        node = trie_find_steps::first_child(trie, node);
    }
    let left = put_next(trie, queue, node, most);
    TrieTurn {
        leaf: node,
        queue: left,
    }
}

// Whether the prefix begins the node's path.
fn is_begun(x: WaitingNode, prefix: &[u8]) -> bool
    requires { x.len ≤ longest_name }
    ensures { result ≡ begins prefix.now (path_of x) }
{
    octets_code::starts_with(&x.path[..x.len], prefix)
}

// Whether the way to the prefix goes down from a node: it has children, and its path begins the prefix.
fn goes_down(trie: &[u8], x: WaitingNode, prefix: &[u8]) -> bool
    requires { NodeInside trie.now x.at × (x.len ≤ longest_name) }
    ensures { result ≡ goes_down trie.now x prefix.now }
{
    !trie_find_steps::is_leaf(trie, x.at) && octets_code::starts_with(prefix, &x.path[..x.len])
}

// Whether the way to the prefix ends at a node: it goes neither down nor to a next sibling.
fn is_stuck(trie: &[u8], x: WaitingNode, prefix: &[u8]) -> bool
    requires { NodeInside trie.now x.at × (x.len ≤ longest_name) }
    ensures { result ≡ is_stuck trie.now x prefix.now }
{
    x.last && !goes_down(trie, x, prefix)
}

// The next node on the way to the prefix.
fn next_on_way(trie: &[u8], x: WaitingNode, prefix: &[u8]) -> WaitingNode
    requires { OnWay trie.now x prefix.now }
    ensures { result ≡ next_on_way trie.now x prefix.now }
{
    if goes_down(trie, x, prefix) {
        return trie_find_steps::first_child(trie, x);
    }
    trie_find_steps::next_sibling(trie, x)
}

// No node waits.
pub fn nobody() -> NodeQueue
    ensures { result.count ≡ 0 }
{
    let x = WaitingNode {
        path: [0; LONGEST_NAME],
        len: 0,
        score: 0,
        at: 0,
        from: 0,
        last: true,
    };
    NodeQueue {
        nodes: [x; MAX_COUNT],
        count: 0,
    }
}

// One node waits, with or without its later siblings.
pub fn only(x: WaitingNode, alone: bool) -> NodeQueue
    ensures { (waits result ≡ with_last x alone ∷ []) × (result.count ≡ 1) }
{
    let y = WaitingNode { last: alone, ..x };
    NodeQueue {
        nodes: [y; MAX_COUNT],
        count: 1,
    }
}

// From a first sibling to the node that the prefix leads to: it waits alone, or none does.
pub fn descend(trie: &[u8], x: WaitingNode, prefix: &[u8]) -> NodeQueue
    requires { SomeToward trie.now prefix.now x }
    ensures { Led trie.now prefix.now x result }
{
    let mut node = x;
    while !is_begun(node, prefix) {
        if is_stuck(trie, node, prefix) {
            return nobody();
        }
        node = next_on_way(trie, node, prefix);
    }
    only(node, true)
}
