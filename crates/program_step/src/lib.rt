// One command line carried out on two lent buffers: it is parsed, its call made, and what it says is printed.
#![tactic(auto)]

ghost use Rattle.std.specs.Prelude.{◌≤◌, length};
ghost use Rattle.octets_laws.specs.Printed.{Printed};
ghost use Rattle.answer.specs.Reports.{number_of, written_of};
ghost use Rattle.script_step.specs.Calls.{Small, edit_of};
ghost use Rattle.script.specs.Run.{bench};
ghost use Rattle.program.specs.Program as program;
ghost use Rattle.program.specs.Program.{command_of, edit_line, refused_line, top};
ghost use Rattle.program_step.specs.Step.{Printable, StepDone, answer_lines, line_room};
ghost use Rattle.program.specs.Console.{top_of};

use answer::{Offered, Refusal, Size};
use limits::{ENTRY_ROOM, MAX_COUNT};
use program_parse::Command;
use script_step::Edit;

// What a line printed: how many bytes, and whether the second buffer holds the book afterwards.
#[derive(Clone, Copy)]
pub struct LineReport {
    pub bytes: usize,
    pub turned: bool,
}

// Prints an edit's answer.
fn print_edit(answer: Result<Size, Refusal>, out: &mut [u8]) -> usize
    requires { Small (written_of answer) × (line_room ≤ length out.old) }
    ensures { Printed out.old 0 (edit_line (written_of answer)) result
        out.new }
{
    match answer {
        Ok(size) => program_print::put_counted(out, 0, b"ok ", size.entries as u32),
        Err(refusal) => put_refusal(out, refusal),
    }
}

// Prints the number of a refusal.
fn put_refusal(out: &mut [u8], refusal: Refusal) -> usize
    requires { line_room ≤ length out.old }
    ensures { Printed out.old 0 (refused_line (number_of refusal)) result
        out.new }
{
    program_print::put_counted(out, 0, b"no ", u32::from(u8::from(refusal)))
}

// An edit made and its answer printed.
fn step_edit(
    edit: Edit,
    name: &[u8],
    turned: bool,
    first: &mut [u8],
    second: &mut [u8],
    out: &mut [u8],
) -> LineReport
    requires { line_room ≤ length out.old }
    ensures { StepDone (program.edit (edit_of edit name.now))
        (bench first.old second.old turned) out.old
        result first.new second.new out.new }
{
    let answer = script_step::perform(edit, name, turned, first, second);
    LineReport {
        bytes: print_edit(answer, out),
        turned: script_step::turned_after(turned, answer),
    }
}

// Prints the answer of a completion: the entries offered, which lie at the front of `answer`, and the looks.
fn print_top(c: Result<Offered, Refusal>, answer: &[u8], out: &mut [u8]) -> usize
    requires { Printable c answer.now × (line_room ≤ length out.old) }
    ensures { Printed out.old 0 (answer_lines c answer.now) result out.new }
{
    match c {
        Ok(counts) => {
            let end = program_print::put_entry_lines(answer, counts.offered, out);
            program_print::put_counted(out, end, b"looks ", counts.looks as u32)
        }
        Err(refusal) => put_refusal(out, refusal),
    }
}

// Completes a prefix from the book in a buffer, and prints the answer.
fn top_from(book: &[u8], prefix: &[u8], k: u32, out: &mut [u8]) -> usize
    requires { line_room ≤ length out.old }
    ensures { Printed out.old 0 (top_of book.now k prefix.now) result
        out.new }
{
    let mut answer = [0u8; MAX_COUNT * ENTRY_ROOM];
    let c = completion_book::complete_in(book, prefix, k as usize, &mut answer);
    print_top(c, &answer, out)
}

// The same from the buffer that holds the book.
fn step_top(
    prefix: &[u8],
    k: u32,
    turned: bool,
    first: &[u8],
    second: &[u8],
    out: &mut [u8],
) -> LineReport
    requires { line_room ≤ length out.old }
    ensures { StepDone (top k prefix.now) (bench first.now second.now turned)
        out.old
        result first.now second.now out.new }
{
    if turned {
        return LineReport {
            bytes: top_from(second, prefix, k, out),
            turned,
        };
    }
    LineReport {
        bytes: top_from(first, prefix, k, out),
        turned,
    }
}

// One line: parsed, its call made, and what it says printed.
pub fn step(
    line: &[u8],
    turned: bool,
    first: &mut [u8],
    second: &mut [u8],
    out: &mut [u8],
) -> LineReport
    requires { line_room ≤ length out.old }
    ensures { StepDone (command_of line.now) (bench first.old second.old turned)
        out.old
        result first.new second.new out.new }
{
    match program_parse::parse(line) {
        Some(Command::Set { score, rest }) => {
            let edit = Edit::Set { score };
            step_edit(edit, &line[rest..], turned, first, second, out)
        }
        Some(Command::Withdraw { rest }) => {
            step_edit(Edit::Withdraw, &line[rest..], turned, first, second, out)
        }
        Some(Command::Top { k, rest }) => step_top(&line[rest..], k, turned, first, second, out),
        None => LineReport {
            bytes: program_print::put_bad(out),
            turned,
        },
    }
}
