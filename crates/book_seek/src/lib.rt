// The place of a key among the names of records, found while they are read one by one: names are not compared as a
// whole, only where a record keeps as many bytes of the name before as that name shares with the key.
#![tactic(auto)]

ghost use Rattle.std.specs.Prelude.{◌≡◌, ◌+◌, ◌≤◌, length};
ghost use Rattle.entries.specs.Entries.{max_entries};
ghost use Rattle.entries.specs.Names.{longest_name};
ghost use Rattle.octets.specs.Octets.{common};
ghost use Rattle.book_seek.specs.Seek.{Compares, GoesOn, Ordered, Quiet, early, none, settled};

// How a name stands to a key: it is below it, it is begun by it, or it is neither and so past it.
#[derive(Clone, Copy, PartialEq, Eq)]
pub enum Order {
    Below,
    Begun,
    Past,
}

// How a name stands to a key, and how many bytes they share.
#[derive(Clone, Copy)]
pub struct Compared {
    pub order: Order,
    pub shared: usize,
}

// Where a record stands: its position, the index where it begins, the one behind it; and how many bytes its name keeps
// of the name before.
#[derive(Clone, Copy)]
pub struct Record {
    pub index: usize,
    pub at: usize,
    pub end: usize,
    pub kept: usize,
}

// Where a key stands among the names read so far.
#[derive(Clone, Copy)]
pub struct Seek {
    // How the last name stands to the key; below it before the first.
    pub order: Order,
    // How many names are below the key, and how many are below it or begun by it.
    pub place: usize,
    pub past: usize,
    // Where the record at the place begins.
    pub at: usize,
    // The bytes that the key shares with the name before the place, and with the name at it.
    pub below: usize,
    pub above: usize,
    // Whether the name there is the key.
    pub same: bool,
}

// How a rest stands to what is left of the key, with which it shares so many bytes and no more: the next bytes decide,
// so that both are looked through once.
fn order_of(rest: &[u8], tail: &[u8], more: usize) -> Order
    requires { more ≡ common rest.now tail.now }
    ensures { Ordered rest.now tail.now result }
{
    if tail.len() <= more {
        return Order::Begun;
    }
    if rest.len() <= more {
        return Order::Below;
    }
    if rest[more] < tail[more] {
        Order::Below
    } else {
        Order::Past
    }
}

// How a name stands to a key, where the name before is below the key and shares that many bytes with it: the name keeps
// so many bytes of the name before and goes on with the rest.
fn compare(kept: usize, rest: &[u8], key: &[u8], shared: usize) -> Compared
    requires { shared ≤ length key.now }
    ensures { Compares key.now kept rest.now shared result.order result.shared
        × (result.shared ≤ length key.now) }
{
    if shared < kept {
        return Compared {
            order: Order::Below,
            shared: shared,
        };
    }
    if kept < shared {
        return Compared {
            order: Order::Past,
            shared: kept,
        };
    }
    let tail = &key[shared..];
    let more = octets_code::common_prefix(rest, tail);
    Compared {
        order: order_of(rest, tail, more),
        shared: shared + more,
    }
}

// Before the first name, whose record begins at index at.
pub fn begin(at: usize) -> Seek
    ensures { result ≡ none at }
{
    early(0, at, 0)
}

// Before the record at a position and an index, where all names so far are below the key and the last shares so many
// bytes with it.
fn early(index: usize, at: usize, below: usize) -> Seek
    ensures { result ≡ early index at below }
{
    Seek {
        order: Order::Below,
        place: index,
        past: index,
        at: at,
        below: below,
        above: 0,
        same: false,
    }
}

// The name of that record, which goes on with the rest behind the bytes that it keeps: what a loop keeps of it.
fn meet(below: usize, p: Record, rest: &[u8], key: &[u8]) -> Seek
    requires { (below ≤ length key.now) × (p.index ≤ max_entries) × (length rest.now ≤ longest_name)
        × (p.kept ≤ longest_name) }
    ensures { GoesOn key.now (early p.index p.at below) p.at p.end p.kept
        rest.now (settled result (p.index + 1) p.end) × (result.below ≤ length key.now) }
{
    let c = compare(p.kept, rest, key, below);
    let next = p.index + 1;
    match c.order {
        Order::Below => early(next, p.end, c.shared),
        Order::Begun => Seek {
            order: Order::Begun,
            place: p.index,
            past: next,
            at: p.at,
            below: below,
            above: c.shared,
            same: p.kept + rest.len() == key.len(),
        },
        Order::Past => Seek {
            order: Order::Past,
            place: p.index,
            past: p.index,
            at: p.at,
            below: below,
            above: c.shared,
            same: false,
        },
    }
}

// One more name, that of the record p, which goes on with the rest behind the bytes that it keeps. What the position
// and the index tell is not kept, so that most names change nothing.
pub fn pass(s: Seek, p: Record, rest: &[u8], key: &[u8]) -> Seek
    requires { (s.below ≤ length key.now) × (p.index ≤ max_entries) × (length rest.now ≤ longest_name)
        × (p.kept ≤ longest_name) }
    ensures { GoesOn key.now (settled s p.index p.at) p.at p.end p.kept
        rest.now (settled result (p.index + 1) p.end) × (result.below ≤ length key.now) }
{
    match s.order {
        Order::Below => {
            if s.below < p.kept {
                return s;
            }
            meet(s.below, p, rest, key)
        }
        Order::Begun => {
            if p.kept < key.len() {
                return Seek {
                    order: Order::Past,
                    past: p.index,
                    ..s
                };
            }
            s
        }
        Order::Past => s,
    }
}

// Where the key stands before the record at a position and an index, of what a loop keeps.
pub fn settle(s: Seek, index: usize, at: usize) -> Seek
    ensures { result ≡ settled s index at }
{
    match s.order {
        Order::Below => early(index, at, s.below),
        Order::Begun => Seek { past: index, ..s },
        Order::Past => s,
    }
}

// A record that keeps so many bytes of the name before, or more, changes nothing that is kept of the search.
pub fn limit(s: Seek, key: &[u8]) -> usize
    requires { s.below ≤ length key.now }
    ensures { Quiet key.now s result }
{
    match s.order {
        Order::Below => s.below + 1,
        Order::Begun => key.len(),
        Order::Past => 0,
    }
}
