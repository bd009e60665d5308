// The answers of the public calls: what a call gives, or why it declines. How each is read as the number and counts of
// document 01 stands in specs/Reports.antt. The rest of this crate is definitions and laws.
#![tactic(auto)]

ghost use Rattle.std.specs.Prelude.{◌≡◌};
ghost use Rattle.answer.specs.Reports.{number_of};

// Why a call declines; each has its number, `number_of`.
#[derive(Clone, Copy, Debug, PartialEq, Eq)]
pub enum Refusal {
    // 1: an image is not laid out as it must be, or cut off by its buffer.
    NotLaidOut,
    // 2: a name or a prefix is not allowed.
    NotAllowed,
    // 3: a completion is asked for no entry, or for more than it offers.
    CountOutOfRange,
    // 4: the name is not held.
    NotHeld,
    // 5: as many entries are held as a book can have.
    Full,
    // 6: no such position, or no such bucket.
    NoSuchPlace,
    // 7: a destination is shorter than what it is to hold, or too few ranges are lent.
    TooShort,
    // 8: no such key.
    NoSuchKey,
    // 9: no byte more can be typed.
    TextFull,
    // 10: a book of the version before, which has to be converted first.
    OldVersion,
}

impl From<Refusal> for u8 {
    ghost from_gives = { λ r n. n ≡ number_of r };

    fn from(r: Refusal) -> u8 {
        match r {
            Refusal::NotLaidOut => 1,
            Refusal::NotAllowed => 2,
            Refusal::CountOutOfRange => 3,
            Refusal::NotHeld => 4,
            Refusal::Full => 5,
            Refusal::NoSuchPlace => 6,
            Refusal::TooShort => 7,
            Refusal::NoSuchKey => 8,
            Refusal::TextFull => 9,
            Refusal::OldVersion => 10,
        }
    }
}

// What was written, a book, a trie, a sheet, a page or an entry, or what was checked: how many entries are in it, and
// how many bytes it has.
#[derive(Clone, Copy, Debug, PartialEq, Eq)]
pub struct Size {
    pub entries: usize,
    pub bytes: usize,
}

// A name that is held: its position and its score.
#[derive(Clone, Copy, Debug, PartialEq, Eq)]
pub struct Found {
    pub position: usize,
    pub score: u32,
}

// The positions that a prefix begins: the first, and how many.
#[derive(Clone, Copy, Debug, PartialEq, Eq)]
pub struct Span {
    pub first: usize,
    pub count: usize,
}

// A completion: the entries offered, the bytes written and the looks.
#[derive(Clone, Copy, Debug, PartialEq, Eq)]
pub struct Offered {
    pub offered: usize,
    pub bytes: usize,
    pub looks: usize,
}

// A history's run: the calls made, and whether the second buffer holds the book.
#[derive(Clone, Copy, Debug, PartialEq, Eq)]
pub struct Played {
    pub calls: usize,
    pub turned: bool,
}
