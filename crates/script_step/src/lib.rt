// One call of a history, performed on two lent buffers: its answer kept, and which buffer holds the book afterwards.
#![tactic(auto)]

ghost use Rattle.std.specs.Prelude.{◌≡◌, not, true, ◌+◌, ◌≤◌, length};
ghost use Rattle.std.proofs.lemmas.List.Edits.{sets};
ghost use Rattle.answer.specs.Answers.{on_answer};
ghost use Rattle.answer.specs.Reports.{written_of};
ghost use Rattle.script.specs.Script.{answer_bytes, call_at, is_call};
ghost use Rattle.script.specs.Run.{bench, buffers};
ghost use Rattle.script_step.specs.Calls.{Called, Performed, Small, Tells, edit_of};

use answer::{Refusal, Size};
use limits::{CALL_HEAD, NAME_LENGTH_AT};

// A call of a history, but for its name.
#[derive(Clone, Copy, Debug, PartialEq, Eq)]
pub enum Edit {
    Set { score: u32 },
    Withdraw,
}

// The three numbers of an answer.
#[derive(Clone, Copy)]
struct AnswerNumbers {
    number: u8,
    entries: u16,
    bytes: u32,
}

// Makes a set or a withdraw, from one buffer into another.
fn call(edit: Edit, name: &[u8], book: &[u8], dst: &mut [u8]) -> Result<Size, Refusal>
    ensures { Called (edit_of edit name.now) (buffers book.now dst.old) result
        dst.new }
{
    match edit {
        Edit::Set { score } => edit_calls::set(book, name, score, dst),
        Edit::Withdraw => edit_calls::withdraw(book, name, dst),
    }
}

// Makes it from the buffer that holds the book into the other.
pub fn perform(
    edit: Edit,
    name: &[u8],
    turned: bool,
    first: &mut [u8],
    second: &mut [u8],
) -> Result<Size, Refusal>
    ensures { Performed (edit_of edit name.now)
        (bench first.old second.old turned) result
        first.new second.new }
{
    if turned {
        return call(edit, name, second, first);
    }
    call(edit, name, first, second)
}

// Performs the call at the front of s, the bytes of a script.
pub fn perform_at(
    s: &[u8],
    turned: bool,
    first: &mut [u8],
    second: &mut [u8],
) -> Result<Size, Refusal>
    requires { is_call s.now ≡ true }
    ensures { Performed (call_at s.now) (bench first.old second.old turned) result
        first.new second.new }
{
    let score = octets_code::read_u32(s, 1);
    let end = CALL_HEAD + octets_code::read_u16(s, NAME_LENGTH_AT) as usize;
    let name = &s[CALL_HEAD..end];
    if s[0] == 0 {
        return perform(Edit::Set { score }, name, turned, first, second);
    }
    perform(Edit::Withdraw, name, turned, first, second)
}

// After an accepted call the other buffer holds the book.
pub fn turned_after(turned: bool, answer: Result<Size, Refusal>) -> bool
    ensures { result ≡ on_answer (written_of answer) turned (not turned) }
{
    match answer {
        Ok(_) => !turned,
        Err(_) => turned,
    }
}

// An answer's numbers; a refusal's counts are 0.
fn numbers(answer: Result<Size, Refusal>) -> AnswerNumbers
    requires { Small (written_of answer) }
    ensures { Tells (written_of answer) result }
{
    match answer {
        Ok(size) => AnswerNumbers {
            number: 0,
            entries: size.entries as u16,
            bytes: size.bytes as u32,
        },
        Err(refusal) => AnswerNumbers {
            number: u8::from(refusal),
            entries: 0,
            bytes: 0,
        },
    }
}

// Stores an answer's 7 bytes.
pub fn put_answer(out: &mut [u8], at: usize, answer: Result<Size, Refusal>)
    requires { Small (written_of answer) × (at + 7 ≤ length out.old) }
    ensures { out.new ≡ sets out.old at (answer_bytes (written_of answer)) }
{
    let t = numbers(answer);
    out[at] = t.number;
    octets_code::write_u16(out, at + 1, t.entries);
    octets_code::write_u32(out, at + 3, t.bytes);
}
