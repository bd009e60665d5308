// What the functions of a book share beneath its definitions: a cursor over its records, and the parts of a record. The
// rest of this crate is inner definitions and laws.
#![tactic(auto)]

use limits::LONGEST_NAME;

// A place between records: where the next record starts, its position, and the name before it, an array with a length,
// as there is no heap.
#[derive(Clone, Copy)]
pub struct Cursor {
    pub at: usize,
    pub index: usize,
    pub name: [u8; LONGEST_NAME],
    pub len: usize,
}

// The parts of a record: the bytes kept of the name before, where the record's own bytes start in it, their number.
#[derive(Clone, Copy)]
pub struct Parts {
    pub kept: usize,
    pub start: usize,
    pub own: usize,
}
