// What a call answered, told to C: each function returns 0 or the refusal's number and puts the counts into the
// caller's out values, all of them 0 with a refusal.
#![tactic(auto)]

ghost use Rattle.answer.specs.Reports.{count_of, found_of, offered_of, played_of, span_of, written_of};
ghost use Rattle.abi.specs.Told.{FoundTold, OfferedTold, PlayedTold, RowsTold, SpanTold, WrittenTold};

use answer::{Found, Offered, Played, Refusal, Size, Span};

// Tells what was written, or checked.
pub fn tell_written(answer: Result<Size, Refusal>, entries: &mut usize, bytes: &mut usize) -> u8
    ensures { WrittenTold (written_of answer) result entries.new bytes.new }
{
    *entries = 0;
    *bytes = 0;
    match answer {
        Ok(size) => {
            *entries = size.entries;
            *bytes = size.bytes;
            0
        }
        Err(not_written) => u8::from(not_written),
    }
}

// Tells what was offered.
pub fn tell_offered(
    answer: Result<Offered, Refusal>,
    offered: &mut usize,
    bytes: &mut usize,
    looks: &mut usize,
) -> u8
    ensures { OfferedTold (offered_of answer) result offered.new bytes.new
        looks.new }
{
    *offered = 0;
    *bytes = 0;
    *looks = 0;
    match answer {
        Ok(counts) => {
            *offered = counts.offered;
            *bytes = counts.bytes;
            *looks = counts.looks;
            0
        }
        Err(not_offered) => u8::from(not_offered),
    }
}

// Tells the rows.
pub fn tell_rows(answer: Result<usize, Refusal>, rows: &mut usize) -> u8
    ensures { RowsTold (count_of answer) result rows.new }
{
    *rows = 0;
    match answer {
        Ok(count) => {
            *rows = count;
            0
        }
        Err(not_pressed) => u8::from(not_pressed),
    }
}

// Tells a place that was found, or that there is none.
pub fn tell_found(
    answer: Result<Option<Found>, Refusal>,
    found: &mut usize,
    position: &mut usize,
    score: &mut u32,
) -> u8
    ensures { FoundTold (found_of answer) result found.new position.new
        score.new }
{
    *found = 0;
    *position = 0;
    *score = 0;
    match answer {
        Ok(Some(place)) => {
            *found = 1;
            *position = place.position;
            *score = place.score;
            0
        }
        Ok(None) => 0,
        Err(not_looked_up) => u8::from(not_looked_up),
    }
}

// Tells a range of positions.
pub fn tell_span(answer: Result<Span, Refusal>, first: &mut usize, count: &mut usize) -> u8
    ensures { SpanTold (span_of answer) result first.new count.new }
{
    *first = 0;
    *count = 0;
    match answer {
        Ok(span) => {
            *first = span.first;
            *count = span.count;
            0
        }
        Err(no_span) => u8::from(no_span),
    }
}

// Tells what a history's run made.
pub fn tell_played(answer: Result<Played, Refusal>, calls: &mut usize, turned: &mut usize) -> u8
    ensures { PlayedTold (played_of answer) result calls.new turned.new }
{
    *calls = 0;
    *turned = 0;
    match answer {
        Ok(played) => {
            *calls = played.calls;
            *turned = usize::from(played.turned);
            0
        }
        Err(not_played) => u8::from(not_played),
    }
}
