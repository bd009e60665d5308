// Completion from a trie that was checked: best-first over at most k nodes that wait.
#![tactic(auto)]

ghost use Rattle.std.specs.Prelude.{◌≡◌, true, ◌*◌, ◌+◌, ◌≤◌, length};
ghost use Rattle.std.proofs.lemmas.List.Edits.{sets};
ghost use Rattle.entries.specs.Completion.{completion, max_count};
ghost use Rattle.entries.specs.Names.{longest_name};
ghost use Rattle.answer.specs.Answers.{entry_bytes};
ghost use Rattle.completion.specs.Complete.{entry_room};
ghost use Rattle.trie_find_queue.specs.Waits.{known_of};
ghost use Rattle.trie_find_turns.specs.Turns.{Reaches};
ghost use Rattle.trie_find.specs.Offers.{OffersWritten, TurnGiven, TurnReady, first_waits, in_trie, is_trie};
ghost use Rattle.trie_find.specs.Offers.{offer_of};

use answer::Offered;
use limits::{COUNT_AT, FRAME_LENGTH, LONGEST_NAME};
use trie_find_queue::{NodeQueue, WaitingNode};
use trie_find_turns::TrieTurn;

// The nodes that wait at first: those of the first group for the empty prefix, else the one that the prefix leads to.
fn start(trie: &[u8], prefix: &[u8]) -> NodeQueue
    requires { is_trie trie.now ≡ true }
    ensures { Reaches trie.now (first_waits trie.now prefix.now) result }
{
    if octets_code::read_u16(trie, COUNT_AT) == 0 {
        return trie_find_turns::nobody();
    }
    let none = [0; LONGEST_NAME];
    let score = trie_find_steps::score_field(trie, FRAME_LENGTH);
    let first = trie_find_steps::arrive(trie, none, 0, score, FRAME_LENGTH, FRAME_LENGTH);
    if prefix.len() == 0 {
        return trie_find_turns::only(first, first.last);
    }
    trie_find_turns::descend(trie, first, prefix)
}

// One turn, from the first of the nodes that wait.
fn next_turn(trie: &[u8], q: NodeQueue, most: usize) -> TrieTurn
    requires { TurnReady trie.now q most }
    ensures { TurnGiven trie.now q most result }
{
    let others = trie_find_queue::rest(q);
    trie_find_turns::follow(trie, q.nodes[0], others, most)
}

// Writes the entry of a leaf, for which there is room: where it ends.
fn put_leaf(dst: &mut [u8], at: usize, x: WaitingNode) -> usize
    requires { (x.len ≤ longest_name) × (at + entry_room ≤ length dst.old) }
    ensures { (dst.new ≡ sets dst.old at (entry_bytes (known_of x)))
        × (result ≡ at + length (entry_bytes (known_of x))) }
{
    answer_write::put_entry(dst, at, &x.path[..x.len], x.score)
}

// The answer of a completion from a trie, which takes no looks.
fn offer(offered: usize, bytes: usize) -> Offered
    ensures { result ≡ offer_of offered bytes }
{
    Offered {
        offered,
        bytes,
        looks: 0,
    }
}

// Completion from a trie that was checked, for a count from 1 to the limit and a destination with room for as many
// entries.
pub fn complete(trie: &[u8], prefix: &[u8], k: usize, dst: &mut [u8]) -> Offered
    requires { (is_trie trie.now ≡ true) × (1 ≤ k) × (k ≤ max_count) × (entry_room * k ≤ length dst.old) }
    ensures { OffersWritten (completion (in_trie trie.now) prefix.now k) dst.old
        result dst.new }
{
    let mut queue = start(trie, prefix);
    let mut bytes = 0;
    for offered in 0..k {
        if queue.count == 0 {
            return offer(offered, bytes);
        }
        let turn = next_turn(trie, queue, k - offered - 1);
        bytes = put_leaf(dst, bytes, turn.leaf);
        queue = turn.queue;
    }
    offer(k, bytes)
}
