// A program for the tests: prints what `head` hands out for each bucket of the book on standard input, a line each: the
// first name for bucket 0, and empty lines where there is none. No C name can hand out that part.
#![tactic(auto)]

ghost use Rattle.std.specs.Prelude.{◌≤◌, length, IfOk};

use limits::BUFFER_LENGTH;
use std::io::{self, Read};

// One more than the buckets of 8 that 1,024 names would fill: only bucket 0 has a head.
const BUCKETS: usize = 129;

// Reads until `book` is full or the input ends: how many bytes it put at the front.
fn read_full(rt: HostRuntime, book: &mut [u8]) -> io::Result<usize>
    ensures { IfOk result (λ n. n ≤ length book.new) }
{
    let mut done = 0;
    // It walks by what each read gives.
    while done < book.len() {
        let n = rt.stdin().read(&mut book[done..])?;
        if n == 0 {
            break;
        }
        done += n;
    }
    Ok(done)
}

// Prints what `head` hands out for each bucket.
fn print_heads(rt: HostRuntime, book: &[u8]) -> io::Result<()> {
    let end = [b'\n'];
    for bucket in 0..BUCKETS {
        rt.write_all(lookup_head_calls::head(book, bucket))?;
        rt.write_all(&end)?;
    }
    Ok(())
}

fn main(rt: HostRuntime) -> io::Result<()> {
    let mut input = [0u8; BUFFER_LENGTH];
    let n = read_full(rt, &mut input)?;
    print_heads(rt, &input[..n])
}
