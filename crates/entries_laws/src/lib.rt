// Which half of a pair is open behind a part of a text; the place of a key among entries, and entries spliced: inner
// definitions in specs/, laws in proofs/.
#![tactic(auto)]

// None is open between two signs; behind C2 that of µ is, whose other half is B5, and behind CE that of Ω, whose other
// half is A9; past a byte that cannot stand in its place no text goes on.
#[derive(Clone, Copy, PartialEq, Eq)]
pub enum Half {
    None,
    Micro,
    Ohm,
    Broken,
}
