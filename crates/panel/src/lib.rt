// The panel's typing state. The rest of this crate is definitions and laws.
#![tactic(auto)]

use limits::LONGEST_NAME;

// 48 bytes of text of which the first `len` are typed, the highlighted row, the rows; 48 bytes of which the first
// `held_len` are the highlighted name, none without rows. Arrays with a length, as document 01 has it: C lends the panel.
#[repr(C)]
#[derive(Clone, Copy)]
pub struct Panel {
    pub text: [u8; LONGEST_NAME],
    pub len: usize,
    pub highlight: usize,
    pub rows: usize,
    pub held: [u8; LONGEST_NAME],
    pub held_len: usize,
}
