// The reply to a line.
ghost use Rattle.std.specs.Prelude.{◌≡◌, ◌++◌, take, codes};
ghost use Rattle.lines.specs.Held.{held};
ghost use Rattle.lines.specs.Laws.{Fitting, Answers};
ghost use Rattle.lines.specs.Replies.{question_in, answer_to, reply_to};

use crate::question::Question;
use crate::refusal::Refusal;
use crate::short::Reply;

// The digits of the result, or the refusal.
fn answer(line: &[u8]) -> Reply
    ensures value { held result ≡ answer_to (question_in line.now) }
    ensures fitting { Fitting line.now }
{
    Question::read(line).map_or_else(Refusal::text, Question::answer)
}

// The text and a line feed, for which it has room.
fn with_line_feed(mut text: Reply) -> Reply
    ensures { held result ≡ take 17 (held text ++ codes "\n") }
{
    text.push(b'\n');
    text
}

// What is printed for a line, which comes without its line feed.
pub fn reply(line: &[u8]) -> Reply
    ensures value { held result ≡ reply_to line.now }
    ensures law { Answers line.now (held result) }
{
    with_line_feed(answer(line))
}
