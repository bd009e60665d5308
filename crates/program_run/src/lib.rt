// Input in parts of any size, cut into command lines, each carried out on two lent buffers.
#![tactic(auto)]

ghost use Rattle.std.specs.Prelude.{◌≡◌, ◌≤◌, length, take};
ghost use Rattle.script.specs.Run.{bench};
ghost use Rattle.program_run.specs.Feed.{FeedDone, FeedRoom, FinishDone, LineKept, line_of};
ghost use Rattle.program.specs.Console.{console, kept_bytes};

use limits::KEPT_BYTES;

// What a part of the input gave: the bytes used and printed, the bytes kept of the line begun, and whether the second
// buffer holds the book.
#[derive(Clone, Copy)]
pub struct Fed {
    pub used: usize,
    pub bytes: usize,
    pub kept: usize,
    pub turned: bool,
}

// The number of bytes in front of the first line feed.
fn line_length(s: &[u8]) -> usize
    ensures { result ≡ length (line_of s.now) }
{
    s.iter().position(|b| *b == b'\n').unwrap_or(s.len())
}

// Adds a part to the line begun, of which the first 64 bytes are kept: how many are kept now.
fn keep(line: &mut [u8], kept: usize, part: &[u8]) -> usize
    requires { (kept ≤ kept_bytes) × (kept_bytes ≤ length line.old) }
    ensures { LineKept line.old kept part.now result line.new }
{
    let n = part.len().min(KEPT_BYTES - kept);
    octets_code::copy(line, kept, &part[..n]);
    kept + n
}

// Feeds input: up to its first line feed, where the line is carried out, or all of it.
pub fn feed(
    input: &[u8],
    kept: usize,
    turned: bool,
    line: &mut [u8],
    first: &mut [u8],
    second: &mut [u8],
    out: &mut [u8],
) -> Fed
    requires { FeedRoom kept line.old out.old }
    ensures { FeedDone input.now
        (console (take kept line.old) (bench first.old second.old turned))
        out.old result line.new first.new second.new out.new }
{
    let end = line_length(input);
    let n = keep(line, kept, &input[..end]);
    if input.len() <= end {
        return Fed {
            used: end,
            bytes: 0,
            kept: n,
            turned,
        };
    }
    let s = program_step::step(&line[..n], turned, first, second, out);
    Fed {
        used: end + 1,
        bytes: s.bytes,
        kept: 0,
        turned: s.turned,
    }
}

// Carries out the line that the input's end leaves without a line feed, if there is one.
pub fn finish(
    kept: usize,
    turned: bool,
    line: &[u8],
    first: &mut [u8],
    second: &mut [u8],
    out: &mut [u8],
) -> program_step::LineReport
    requires { FeedRoom kept line.now out.old }
    ensures { FinishDone (console (take kept line.now)
        (bench first.old second.old turned)) out.old
        result first.new second.new out.new }
{
    if kept == 0 {
        return program_step::LineReport { bytes: 0, turned };
    }
    program_step::step(&line[..kept], turned, first, second, out)
}
