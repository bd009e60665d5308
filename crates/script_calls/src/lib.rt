// A history run in code: a script of calls, performed on two lent buffers by the label book's own calls, with every
// answer kept.
#![tactic(auto)]

ghost use Rattle.std.specs.Prelude.{◌≡◌, false};
ghost use Rattle.script.specs.Script.{calls};
ghost use Rattle.script.specs.Run.{bench, finish_of, run_of};
ghost use Rattle.script_calls.specs.Code.{AllPlayed, Playable, counted_as, found_length};

use answer::{Played, Refusal};
use limits::{CALL_HEAD, FRAME_LENGTH, KEPT_ANSWER, NAME_LENGTH_AT};

// The length of the call at the front of s, if one stands there.
fn call_length(s: &[u8]) -> Option<usize>
    ensures { result ≡ found_length s.now }
{
    if s.len() < CALL_HEAD {
        return None;
    }
    if 2 <= s[0] {
        return None;
    }
    let len = octets_code::read_u16(s, NAME_LENGTH_AT) as usize;
    if s.len() - CALL_HEAD < len {
        return None;
    }
    Some(CALL_HEAD + len)
}

// Counts the calls of a script, if it is laid out as calls to its end.
fn count_calls(script: &[u8]) -> Option<usize>
    ensures { result ≡ counted_as 0 (calls script.now) }
{
    let mut at = 0;
    let mut n = 0;
    // from call to call: each begins where the one before ends
    while at < script.len() {
        let len = call_length(&script[at..])?;
        at += len;
        n += 1;
    }
    Some(n)
}

// Performs every call of a script: whether the second buffer holds the book afterwards.
fn play(script: &[u8], first: &mut [u8], second: &mut [u8], out: &mut [u8]) -> bool
    requires { Playable script.now out.old }
    ensures { AllPlayed script.now (bench first.old second.old false)
        out.old
        (bench first.new second.new result) out.new }
{
    let mut at = 0;
    let mut slot = 0;
    let mut turned = false;
    // likewise
    while let Some(len) = call_length(&script[at..]) {
        let answer = script_step::perform_at(&script[at..], turned, first, second);
        script_step::put_answer(out, slot, answer);
        turned = script_step::turned_after(turned, answer);
        at += len;
        slot += KEPT_ANSWER;
    }
    turned
}

// Runs a script: "empty" into the first buffer, then every call, its answer at the front of what is left of `out`.
// A refusal changes no lent byte.
pub fn run(
    script: &[u8],
    first: &mut [u8],
    second: &mut [u8],
    out: &mut [u8],
) -> Result<Played, Refusal>
    ensures { finish_of result first.new second.new out.new
        ≡ run_of script.now first.old second.old out.old }
{
    let Some(calls) = count_calls(script) else {
        return Err(Refusal::NotLaidOut);
    };
    if first.len() < FRAME_LENGTH {
        return Err(Refusal::TooShort);
    }
    if second.len() != first.len() {
        return Err(Refusal::TooShort);
    }
    if out.len() / KEPT_ANSWER < calls {
        return Err(Refusal::TooShort);
    }
    // The first buffer has room for it.
    let _ = edit_calls::empty(first);
    let turned = play(script, first, second, out);
    Ok(Played { calls, turned })
}
