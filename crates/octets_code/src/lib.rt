// Lists of bytes compared and copied; numbers of 2 and 4 bytes, the high byte first, read where they stand and stored.
// Every function answers for any arguments: what does not fit is not copied, and a place past the end reads as 0.
#![tactic(auto)]

ghost use Rattle.std.specs.Prelude.{◌≡◌, ◌+◌, ◌<◌, ◌≤◌, drop, length, take, MatchOption};
ghost use Rattle.std.proofs.lemmas.List.Edits.{sets};
ghost use Rattle.octets.specs.Octets.{be, begins, below, common, number_at, same};

// The length of the longest common prefix.
pub fn common_prefix(a: &[u8], b: &[u8]) -> usize
    ensures { result ≡ common a.now b.now }
{
    a.iter()
        .zip(b.iter())
        .position(|(x, y)| *x != *y)
        .unwrap_or(a.len().min(b.len()))
}

// Whether s begins with prefix.
pub fn starts_with(s: &[u8], prefix: &[u8]) -> bool
    ensures { result ≡ begins prefix.now s.now }
{
    s.starts_with(prefix)
}

// Whether a and b hold the same bytes.
pub fn equal(a: &[u8], b: &[u8]) -> bool
    ensures { result ≡ same a.now b.now }
{
    a == b
}

// Whether a comes before b in byte order; a list that begins another comes before it. By `cmp`: `<` goes by
// `partial_cmp`, and takes half as long again.
pub fn is_below(a: &[u8], b: &[u8]) -> bool
    ensures { result ≡ below a.now b.now }
{
    a.cmp(&b).is_lt()
}

// Stores the bytes of src in dst from index at; those past the end of dst are left out.
pub fn copy(dst: &mut [u8], at: usize, src: &[u8])
    ensures { dst.new ≡ sets dst.old at src.now }
{
    if at < dst.len() {
        let n = src.len().min(dst.len() - at);
        dst[at..at + n].copy_from_slice(&src[..n]);
    }
}

// The N bytes from index at, where there are as many.
fn bytes_at<const N: usize>(s: &[u8], at: usize) -> Option<[u8; N]>
    ensures { MatchOption result (length s.now < at + N)
        (λ bytes. (at + N ≤ length s.now) × (bytes ≡ take N (drop at s.now))) }
{
    if s.len() < at {
        return None;
    }
    let (bytes, _) = s[at..].split_first_chunk()?;
    Some(*bytes)
}

// The number in the 2 bytes from index at, 0 where there are not as many.
pub fn read_u16(s: &[u8], at: usize) -> u16
    ensures { result ≡ number_at 2 s.now at }
{
    match bytes_at::<2>(s, at) {
        Some(bytes) => u16::from_be_bytes(bytes),
        None => 0,
    }
}

// The number in the 4 bytes from index at, 0 where there are not as many.
pub fn read_u32(s: &[u8], at: usize) -> u32
    ensures { result ≡ number_at 4 s.now at }
{
    match bytes_at::<4>(s, at) {
        Some(bytes) => u32::from_be_bytes(bytes),
        None => 0,
    }
}

// Stores v as 2 bytes from index at. A function for each width: a trait over both would be longer than they are.
pub fn write_u16(dst: &mut [u8], at: usize, v: u16)
    ensures { dst.new ≡ sets dst.old at (be 2 v) }
{
    copy(dst, at, &u16::to_be_bytes(v));
}

// Stores v as 4 bytes from index at.
pub fn write_u32(dst: &mut [u8], at: usize, v: u32)
    ensures { dst.new ≡ sets dst.old at (be 4 v) }
{
    copy(dst, at, &u32::to_be_bytes(v));
}
