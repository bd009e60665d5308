// The program's command lines: what a line asks for.
#![tactic(auto)]

ghost use Rattle.std.specs.Prelude.{◌≡◌, ◌≤◌, length};
ghost use Rattle.octets.specs.Decimal.{value_on};
ghost use Rattle.program.specs.Program.{command_of, digits};
ghost use Rattle.program_parse.specs.Parsing.{Asks, number_as};

use limits::MOST_DIGITS;

// The bytes of a command's word and the space behind it.
const WORD_LENGTH: usize = 4;

// A number at the front of bytes, and how many bytes it takes with the space behind it.
#[derive(Clone, Copy)]
struct Number {
    value: u32,
    length: usize,
}

// What a line asks for; `rest` is where the name or prefix begins.
#[derive(Clone, Copy)]
pub enum Command {
    Set { score: u32, rest: usize },
    Top { k: u32, rest: usize },
    Withdraw { rest: usize },
}

// How many digits s begins with.
fn count_digits(s: &[u8]) -> usize
    ensures { result ≡ length (digits s.now) }
{
    for (i, b) in s.iter().enumerate() {
        if !b.is_ascii_digit() {
            return i;
        }
    }
    s.len()
}

// The value of the n digits that s begins with, at most 10.
fn value_of(s: &[u8], n: usize) -> u64
    requires { (n ≡ length (digits s.now)) × (n ≤ 10) }
    ensures { result ≡ value_on 0 (digits s.now) }
{
    let mut v: u64 = 0;
    for b in &s[..n] {
        v = v * 10 + u64::from(*b - b'0');
    }
    v
}

// The number at the front of s: 1 to 10 digits, below 4,294,967,296, and a space behind them.
fn number_at_front(s: &[u8]) -> Option<Number>
    ensures { result ≡ number_as s.now }
{
    let n = count_digits(s);
    if n < 1 {
        return None;
    }
    if MOST_DIGITS < n {
        return None;
    }
    let value = u32::try_from(value_of(s, n)).ok()?;
    if !octets_code::starts_with(&s[n..], b" ") {
        return None;
    }
    Some(Number {
        value: value,
        length: n + 1,
    })
}

// What a line asks for, if for anything.
pub fn parse(line: &[u8]) -> Option<Command>
    ensures { Asks line.now (command_of line.now) result }
{
    if octets_code::starts_with(line, b"set ") {
        let n = number_at_front(&line[WORD_LENGTH..])?;
        return Some(Command::Set {
            score: n.value,
            rest: WORD_LENGTH + n.length,
        });
    }
    if octets_code::starts_with(line, b"top ") {
        let n = number_at_front(&line[WORD_LENGTH..])?;
        return Some(Command::Top {
            k: n.value,
            rest: WORD_LENGTH + n.length,
        });
    }
    if octets_code::starts_with(line, b"del ") {
        return Some(Command::Withdraw { rest: WORD_LENGTH });
    }
    None
}
