// What the program prints: decimal numbers, counted answers, the entries offered.
#![tactic(auto)]

ghost use Rattle.std.specs.Prelude.{◌++◌, ◌*◌, ◌+◌, ◌≤◌, length};
ghost use Rattle.octets.specs.Decimal.{decimal};
ghost use Rattle.octets.specs.Text.{line_feed};
ghost use Rattle.octets_laws.specs.Printed.{Printed};
ghost use Rattle.entries.specs.Entries.{entry};
ghost use Rattle.sheet.specs.Sheet.{sheet_from};
ghost use Rattle.program.specs.Program.{bad_line};
ghost use Rattle.program_print.specs.Printing.{Laid, entry_line, entry_line_room, offered_lines};

use limits::{MOST_DIGITS, SCORE_BYTES};

// Writes a number in decimal: where it ends.
fn put_decimal(out: &mut [u8], at: usize, v: u32) -> usize
    requires { at + 10 ≤ length out.old }
    ensures { Printed out.old at (decimal v) result out.new }
{
    let mut digits = [0; MOST_DIGITS];
    let from = octets_decimal::put_decimal(&mut digits, MOST_DIGITS, v);
    octets_code::copy(out, at, &digits[from..]);
    at + (MOST_DIGITS - from)
}

// Writes a word and a number as a line: where it ends.
pub fn put_counted(out: &mut [u8], at: usize, word: &[u8], v: u32) -> usize
    requires { at + length word.now + 11 ≤ length out.old }
    ensures { Printed out.old at (word.now ++ decimal v ++ line_feed) result out.new }
{
    octets_code::copy(out, at, word);
    let end = put_decimal(out, at + word.len(), v);
    out[end] = b'\n';
    end + 1
}

// Writes an entry's line, its score and its name: where it ends.
fn put_entry_line(out: &mut [u8], at: usize, name: &[u8], score: u32) -> usize
    requires { at + length name.now + 12 ≤ length out.old }
    ensures { Printed out.old at (entry_line (entry name.now score)) result out.new }
{
    let end = put_decimal(out, at, score);
    out[end] = b' ';
    octets_code::copy(out, end + 1, name);
    let last = end + 1 + name.len();
    out[last] = b'\n';
    last + 1
}

// Writes the lines of the n entries of an answer at the front: where they end.
pub fn put_entry_lines(answer: &[u8], n: usize, out: &mut [u8]) -> usize
    requires { Laid n answer.now × (entry_line_room * n ≤ length out.old) }
    ensures { Printed out.old 0 (offered_lines (sheet_from n answer.now)) result
        out.new }
{
    let mut at = 0;
    let mut end = 0;
    for _ in 0..n {
        let start = at + 1;
        let stop = start + answer[at] as usize;
        let score = octets_code::read_u32(answer, stop);
        end = put_entry_line(out, end, &answer[start..stop], score);
        at = stop + SCORE_BYTES;
    }
    end
}

// Writes the line of a line that asks for nothing.
pub fn put_bad(out: &mut [u8]) -> usize
    requires { 4 ≤ length out.old }
    ensures { Printed out.old 0 bad_line result out.new }
{
    octets_code::copy(out, 0, b"bad\n");
    4
}
