// Bytes looked at all together, in loops that take the same steps whichever bytes they are: how many are below 20, and
// which is the largest.
#![tactic(auto)]

ghost use Rattle.std.specs.Prelude.{◌≡◌, ◌≤◌, length};
ghost use Rattle.octets_count.specs.Counts.{Tops, low_count, low_of, stretch};

use limits::FIRST_PLAIN;

// How many bytes are counted in one byte: `stretch`.
const STRETCH: usize = 128;

// 1 for a byte below 20, else 0.
pub fn low(x: u8) -> u8
    ensures { (result ≡ low_of x) × (result ≤ 1) }
{
    u8::from(x < FIRST_PLAIN)
}

// How many bytes of a stretch are below 20: a count that fits a byte, so that 16 are counted at once.
fn lows_of_stretch(s: &[u8]) -> u8
    requires { length s.now ≤ stretch }
    ensures { result ≡ low_count s.now }
{
    let mut count = 0;
    for x in s {
        count += low(*x);
    }
    count
}

// How many bytes are below 20.
pub fn lows(s: &[u8]) -> usize
    ensures { result ≡ low_count s.now }
{
    let (stretches, rest) = s.as_chunks::<STRETCH>();
    let mut count = lows_of_stretch(rest) as usize;
    for one in stretches {
        count += lows_of_stretch(one) as usize;
    }
    count
}

// A byte that none is over: the largest, 0 where there is none.
pub fn top(s: &[u8]) -> u8
    ensures { Tops s.now result }
{
    let mut most = 0;
    for x in s {
        most = most.max(*x);
    }
    most
}
