// Names and prefixes: which signs, and how many bytes of them, are allowed.
#![tactic(auto)]

ghost use Rattle.std.specs.Prelude.{◌<◌, ◌≤◌, ◌≡◌, drop, length, eqb};
ghost use Rattle.entries.specs.Names.{is_name, is_pair, is_plain, is_prefix, last_sign};
ghost use Rattle.entries_laws.specs.Halves.{half_number, half_numbered};
ghost use Rattle.entries_laws.specs.Signs.{half_after, half_step, no_half};
ghost use Rattle.entries_check.specs.Signs.{NoSign, PastPlain, pair_first};

use entries_laws::Half;
use limits::{FIRST_PLAIN, LAST_PLAIN, LONGEST_NAME, MICRO_LEAD, MICRO_TAIL, OHM_LEAD, OHM_TAIL};

// Whether a byte is a sign by itself: 20 to 7E.
pub fn is_plain(b: u8) -> bool
    ensures { result ≡ is_plain b }
{
    if b < FIRST_PLAIN {
        return false;
    }
    b <= LAST_PLAIN
}

// Whether two bytes are a sign together, µ or Ω.
fn is_pair(a: u8, b: u8) -> bool
    ensures { result ≡ is_pair a b }
{
    if a == MICRO_LEAD {
        return b == MICRO_TAIL;
    }
    if a != OHM_LEAD {
        return false;
    }
    b == OHM_TAIL
}

// Whether a sign of two bytes stands at an index.
fn pair_at(w: &[u8], i: usize) -> bool
    requires { i < length w.now }
    ensures { result ≡ pair_first (drop i w.now) }
{
    if w.len() - i < 2 {
        return false; // the text ends here, in half a sign or in no sign's byte
    }
    is_pair(w[i], w[i + 1])
}

// The half of a pair that is open behind a text from an index on at which no sign stands: if the text ends there in the
// first half of a pair, that half; else no text goes on.
fn cut_at(w: &[u8], i: usize) -> Half
    requires { (i < length w.now) × NoSign (drop i w.now) }
    ensures { half_number result ≡ half_after no_half (drop i w.now) }
{
    if 1 < w.len() - i {
        return Half::Broken;
    }
    match w[i] {
        MICRO_LEAD => Half::Micro,
        OHM_LEAD => Half::Ohm,
        _ => Half::Broken,
    }
}

// The first index from one on at which no sign of one byte stands, or the end.
fn past_plain(w: &[u8], from: usize) -> usize
    requires { from ≤ length w.now }
    ensures { PastPlain w.now from result }
{
    for i in from..w.len() {
        if !is_plain(w[i]) {
            return i;
        }
    }
    w.len()
}

// The half of a pair that is open behind the signs from an index on. The loop walks by signs, of one byte or two.
fn half_from(w: &[u8], from: usize) -> Half
    requires { from ≤ length w.now }
    ensures { half_number result ≡ half_after no_half (drop from w.now) }
{
    let mut i = past_plain(w, from);
    while i < w.len() {
        if !pair_at(w, i) {
            return cut_at(w, i);
        }
        i = past_plain(w, i + 2);
    }
    Half::None
}

// Whether w is an allowed prefix: 0 to 48 such bytes.
pub fn is_prefix(w: &[u8]) -> bool
    ensures { result ≡ is_prefix w.now }
{
    if LONGEST_NAME < w.len() {
        return false;
    }
    half_from(w, 0) == Half::None
}

// Whether w is an allowed name: 1 to 48 such bytes.
pub fn is_name(w: &[u8]) -> bool
    ensures { result ≡ is_name w.now }
{
    if w.len() < 1 {
        return false;
    }
    is_prefix(w)
}

// The bytes of a text's last sign.
pub fn last_sign(w: &[u8]) -> usize
    ensures { result ≡ last_sign w.now }
{
    let n = w.len();
    if n < 2 {
        return 1;
    }
    if is_pair(w[n - 2], w[n - 1]) {
        return 2;
    }
    1
}

// Whether the next byte is the other half of the one that is open.
fn closes(half: Half, next: u8) -> bool
    requires { half_number half ≡ no_half → ⊥ }
    ensures { result ≡ eqb (half_step (half_number half) next) no_half }
{
    match half {
        Half::Micro => next == MICRO_TAIL,
        Half::Ohm => next == OHM_TAIL,
        _ => false,
    }
}

// The half of a pair that is open behind a part of a text, where `half` was open in front of it.
pub fn half_after(half: Half, w: &[u8]) -> Half
    ensures { half_number result ≡ half_after (half_number half) w.now }
{
    if half == Half::None {
        return half_from(w, 0);
    }
    if w.len() == 0 {
        return half;
    }
    if !closes(half, w[0]) {
        return Half::Broken;
    }
    half_from(w, 1)
}

// The half of a number; a number over 3 is that of none, and no text goes on from there.
fn half_of(number: usize) -> Half
    ensures { result ≡ half_numbered number }
{
    match number {
        0 => Half::None,
        1 => Half::Micro,
        2 => Half::Ohm,
        _ => Half::Broken,
    }
}

// The number of a half.
fn number_of(half: Half) -> usize
    ensures { result ≡ half_number half }
{
    match half {
        Half::None => 0,
        Half::Micro => 1,
        Half::Ohm => 2,
        Half::Broken => 3,
    }
}

// The same for a caller who has the half by its number, whatever that is: behind no byte it stays.
pub fn number_after(half: usize, w: &[u8]) -> usize
    ensures { result ≡ half_after half w.now }
{
    if w.len() == 0 {
        return half;
    }
    number_of(half_after(half_of(half), w))
}
