// A number's decimal digits, stored where they end.
#![tactic(auto)]

ghost use Rattle.std.specs.Prelude.{◌≤◌, length};
ghost use Rattle.octets_decimal.specs.Digits.{Numbered};

// Stores a number in decimal, in front of an index that ten digits have room before: where it begins.
pub fn put_decimal(dst: &mut [u8], end: usize, v: u32) -> usize
    requires { (10 ≤ end) × (end ≤ length dst.old) }
    ensures { Numbered dst.old end v result dst.new }
{
    let mut at = end - 1;
    let mut rest = v;
    // A `while`: it walks down the number that is left, and no library method writes digits that end at an index.
    while 10 <= rest {
        dst[at] = b'0' + (rest % 10) as u8;
        rest /= 10;
        at -= 1;
    }
    dst[at] = b'0' + rest as u8;
    at
}
