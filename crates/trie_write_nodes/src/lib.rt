// The nodes of a sibling group: their size, their bytes.
#![tactic(auto)]

ghost use Rattle.std.specs.Prelude.{◌≡◌, ◌*◌, ◌≤◌, length};
ghost use Rattle.std.proofs.lemmas.List.Edits.{sets};
ghost use Rattle.octets.specs.Octets.{be};
ghost use Rattle.trie_write_runs.specs.Runs.{most_runs};
ghost use Rattle.trie_write_nodes.specs.Nodes.{AllFit, Finished, Finishing, Measurable, OneFits, nodes_bytes};
ghost use Rattle.trie_write_nodes.specs.Nodes.{nodes_length, one_node};

use limits::LONGEST_NAME;
use trie_write_runs::{NodeFields, Run};

// Where nodes are put: in front of the `back` bytes that end the first `total` of a destination. Without `store` they
// are only measured: both passes are one function, so that they agree, and the flag is tested once a group.
#[derive(Clone, Copy)]
pub struct Target {
    pub total: usize,
    pub back: usize,
    pub store: bool,
}

// The bytes of a group's own nodes, where the fields of the first are given.
#[inline(always)]
fn nodes_size(runs: &[Run], first: NodeFields) -> usize
    requires { (length runs.now ≤ most_runs) × Measurable runs.now first }
    ensures { (result ≡ nodes_length first runs.now) × (result ≤ most_runs * 16) }
{
    let mut f = first;
    let mut sum = 0;
    for (i, r) in runs.iter().enumerate() {
        let m = trie_write_runs::node_size(*r, f);
        let score = trie_write_runs::score_at(runs, i + 1);
        sum += m;
        f = trie_write_runs::next_after(*r, f, score);
    }
    sum
}

// Stores v as k bytes from index at, the high byte first.
fn put_be(dst: &mut [u8], at: usize, k: usize, v: usize)
    requires { k ≤ 4 }
    ensures { dst.new ≡ sets dst.old at (be k v) }
{
    octets_code::copy(dst, at, &v.to_be_bytes()[8 - k..]);
}

// One node at index at, of names that go on behind their first d bytes.
#[inline(never)]
fn put_node(names: &[u8], d: usize, r: Run, f: NodeFields, last: bool, dst: &mut [u8], at: usize)
    requires { OneFits (length names.now) d r f (length dst.old) at }
    ensures { dst.new ≡ sets dst.old at (one_node names.now d r f last) }
{
    let score = trie_header::size_of(f.score);
    let child = trie_write_runs::child_part(r, f.size);
    let value = trie_write_runs::child_part(r, f.child);
    let len = r.len as usize;
    let from = r.lo as usize * LONGEST_NAME + d;
    dst[at] = trie_header::header(score, child, last, len);
    put_be(dst, at + 1, score, f.score);
    put_be(dst, at + 1 + score, child, value);
    octets_code::copy(dst, at + 1 + score + child, &names[from..from + len]);
}

// The group's own nodes from index start on.
#[inline(always)]
fn put_nodes(names: &[u8], d: usize, runs: &[Run], first: NodeFields, dst: &mut [u8], start: usize)
    requires { AllFit (length names.now) d runs.now first (length dst.old) start }
    ensures { dst.new ≡ sets dst.old start (nodes_bytes names.now d first runs.now) }
{
    let mut f = first;
    let mut at = start;
    for (i, r) in runs.iter().enumerate() {
        let m = trie_write_runs::node_size(*r, f);
        let score = trie_write_runs::score_at(runs, i + 1);
        put_node(names, d, *r, f, i + 1 == runs.len(), dst, at);
        at += m;
        f = trie_write_runs::next_after(*r, f, score);
    }
}

// Puts the group's own nodes, with the score field s first. How many bytes of the first `total` stand from where the
// group begins. Inlined, for far down nearly every group is of one node: its run then stays in registers.
#[inline(always)]
pub fn finish(names: &[u8], d: usize, runs: &[Run], s: usize, dst: &mut [u8], to: Target) -> usize
    requires { (length runs.now ≤ most_runs)
        × Finishing names.now d runs.now s (length dst.old) to.total to.back to.store }
    ensures { Finished names.now d runs.now s dst.old dst.new to.total to.back to.store result }
{
    let other = nodes_size(runs, trie_write_runs::plain_fields(s));
    let first = trie_write_runs::first_fields(s, other);
    let full = nodes_size(runs, first);
    if to.store {
        put_nodes(names, d, runs, first, dst, to.total - to.back - full);
    }
    to.back + full
}
