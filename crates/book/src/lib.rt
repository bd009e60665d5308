// The book image: definitions in specs/, laws in proofs/. What differs between its versions is a value.
#![tactic(auto)]

#[derive(Clone, Copy)]
pub struct Layout {
    // Byte 0.
    pub version: u8,
    // Whether every eighth name is a bucket's head, written whole, and each bucket has an offset.
    pub heads: bool,
}
