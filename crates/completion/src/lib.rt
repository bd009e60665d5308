// Completion's open ranges. The rest of this crate is definitions and laws: completion from a book, the range machine.
#![tactic(auto)]

// An open range of positions: its first, the position and the score of its best, its last.
#[repr(C)]
#[derive(Clone, Copy)]
pub struct Range {
    pub first: usize,
    pub best: usize,
    pub score: u32,
    pub last: usize,
}
