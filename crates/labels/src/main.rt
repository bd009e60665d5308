// The program `labels`: command lines from standard input, and what they print to standard output.
// It only reads and writes. What a line prints is crate `program_run`'s, and that any input prints what the ledger says
// is `InputSays` in crate `program`. The contracts here promise the console that is kept from one read to the next, and
// at the end the ledger's book. Of standard input and output themselves they promise nothing, since no contract of `io`
// or `libc` says which bytes a read gives or what a write does with its own: a program that read nothing would keep
// them too. Where a read or a write fails, the program says so on standard error, prints nothing more and stops
// reading; its exit status is 0 then too.
#![tactic(auto)]

ghost use Rattle.std.specs.Prelude.{◌≡◌, false, ◌≤◌, length, take};
ghost use Rattle.program_run.specs.Feed.{FeedRoom};
ghost use Rattle.program.specs.Console.{BytesFed, SomeFed, console_in};
ghost use Rattle.program.specs.Program.{buffer_length};
ghost use Rattle.program.specs.Theorem.{ProgramRan};

use limits::{BUFFER_LENGTH, KEPT_BYTES, LINE_ROOM};
use std::io::Read;

// The bytes that are read at a time.
const INPUT_ROOM: usize = 65536;

// Between two reads: the bytes kept of the line begun, whether the second buffer holds the book, and the bytes that the
// last read gave, none at the input's end; and whether every read and write so far has worked. That is a flag, and no
// error passed up by `?`, since `ProgramRan` holds where a write fails too: the lines read are carried out to the last.
#[derive(Clone, Copy)]
struct State {
    kept: usize,
    turned: bool,
    got: usize,
    works: bool,
}

// Writes what is printed, if everything worked so far: whether it still does.
fn print(rt: HostRuntime, works: bool, bytes: &[u8]) -> bool {
    if !works {
        return false;
    }
    if rt.write_all(bytes).is_ok() {
        return true;
    }
    say(rt, "labels: cannot write");
    false
}

// Says on standard error what failed. Where that cannot be written either, nobody can be told.
fn say(rt: HostRuntime, failed: &str) {
    let _told = eprintln!(rt; "{failed}").is_ok();
}

// Reads once, to the front of `input`: how many bytes, none where the read failed, and whether it worked.
fn read_once(rt: HostRuntime, input: &mut [u8]) -> (usize, bool)
    ensures { result.0 ≤ length input.new }
{
    match rt.stdin().read(input) {
        Ok(n) => (n, true),
        Err(_) => {
            say(rt, "labels: cannot read");
            (0, false)
        }
    }
}

// Feeds a part of the input, all of it, and writes what it prints.
fn answer_part(
    rt: HostRuntime,
    part: &[u8],
    s: State,
    line: &mut [u8],
    first: &mut [u8],
    second: &mut [u8],
    out: &mut [u8],
) -> State
    requires { FeedRoom s.kept line.old out.old }
    ensures is { BytesFed part.now
        (console_in s.kept s.turned line.old first.old second.old)
        result.kept result.turned line.new first.new second.new }
    ensures got { result.got ≡ length part.now }
{
    let mut used = 0;
    let mut kept = s.kept;
    let mut turned = s.turned;
    let mut works = s.works;
    // by what `feed` uses: a line, or what is left
    while used < part.len() {
        let f = program_run::feed(&part[used..], kept, turned, line, first, second, out);
        let n = f.bytes;
        works = print(rt, works, &out[..n]);
        used += f.used;
        kept = f.kept;
        turned = f.turned;
    }
    State {
        kept: kept,
        turned: turned,
        got: part.len(),
        works: works,
    }
}

// Reads once, and answers what was read: the first bytes of `input` afterwards, as many as `got` says. That these are
// the bytes of standard input is not said: the contract of `std::io::Read::read` names none of standard input's.
fn read_part(
    rt: HostRuntime,
    input: &mut [u8],
    s: State,
    line: &mut [u8],
    first: &mut [u8],
    second: &mut [u8],
    out: &mut [u8],
) -> State
    requires { FeedRoom s.kept line.old out.old }
    ensures is { BytesFed (take result.got input.new)
        (console_in s.kept s.turned line.old first.old second.old)
        result.kept result.turned line.new first.new second.new }
    ensures got { result.got ≤ length input.new }
{
    let (n, works) = read_once(rt, input);
    let t = State {
        kept: s.kept,
        turned: s.turned,
        got: n,
        works: works,
    };
    answer_part(rt, &input[..n], t, line, first, second, out)
}

// Reads to the end of the input. A proved loop has to end, so it makes at most as many reads as no run uses up. The
// console afterwards is the one that some bytes lead to. They are all that was read, one read behind the other, but the
// contract cannot name them: each read overwrites `input`, so that no buffer holds them in the end.
fn read_all(
    rt: HostRuntime,
    input: &mut [u8],
    line: &mut [u8],
    first: &mut [u8],
    second: &mut [u8],
    out: &mut [u8],
) -> State
    requires { FeedRoom 0 line.old out.old }
    ensures { SomeFed (console_in 0 false line.old first.old second.old)
        result.kept result.turned line.new first.new second.new }
{
    let mut s = State {
        kept: 0,
        turned: false,
        got: 0,
        works: true,
    };
    for _ in 0..u64::MAX {
        s = read_part(rt, input, s, line, first, second, out);
        if !s.works || s.got == 0 {
            break;
        }
    }
    s
}

// Runs to the end of the input: the book of no entries, the lines read, and the last one if no line feed ends it. As
// `main` has no contract, this is what the program promises. Of a line that a failed read cuts short nothing is
// printed.
fn run(
    rt: HostRuntime,
    input: &mut [u8],
    line: &mut [u8],
    first: &mut [u8],
    second: &mut [u8],
    out: &mut [u8],
) -> program_step::LineReport
    requires feed_room { FeedRoom 0 line.old out.old }
    requires first_len { (length first.old ≡ buffer_length) × (length second.old ≡ buffer_length) }
    ensures { ProgramRan first.old second.old result.bytes result.turned
        first.new second.new out.new }
{
    // The buffer has room for it.
    let _ = edit_calls::empty(first);
    let s = read_all(rt, input, line, first, second, out);
    let f = program_run::finish(s.kept, s.turned, line, first, second, out);
    let n = f.bytes;
    print(rt, s.works, &out[..n]);
    f
}

fn main(rt: HostRuntime) {
    let mut first = [0u8; BUFFER_LENGTH];
    let mut second = [0u8; BUFFER_LENGTH];
    let mut line = [0u8; KEPT_BYTES];
    let mut input = [0u8; INPUT_ROOM];
    let mut out = [0u8; LINE_ROOM];
    run(rt, &mut input, &mut line, &mut first, &mut second, &mut out);
}
