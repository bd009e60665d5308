// Rank, in one place: document 01, "Names and rank": higher score first, at equal scores the earlier name.
#![tactic(auto)]

ghost use Rattle.std.specs.Prelude.{◌≡◌};
ghost use Rattle.entries.specs.Entries.{entry, outranks};

// Whether a name with its score comes before another with theirs. The higher score is first, so that no derived order is
// this one.
pub fn outranks(name: &[u8], score: u32, other: &[u8], theirs: u32) -> bool
    ensures { result ≡ outranks (entry name.now score) (entry other.now theirs) }
{
    if score != theirs {
        return theirs < score;
    }
    octets_code::is_below(name, other)
}
