// The answer to a question: the end of a search, and all of it on a script in memory.
ghost use Rattle.std.specs.Prelude.{◌≡◌, [], min, length};
ghost use Rattle.script.specs.Output.{output, put, Puts, holding};
ghost use Rattle.question.specs.Answer.{why_text};
ghost use Rattle.question.specs.Seeking.{answer_text, Sound};

use super::seeking::{Search, Stage};
use super::{answer, seeking};
use script::Text;

// The line that is told where no more of the script comes: a slot that was not found is not decided.
fn put_answer(text: &mut Text, q: Search)
    requires { Sound q }
    ensures { Puts text.old text.new (answer_text q []) }
{
    match q.stage {
        Stage::Seeking => answer::put_ask_refused(text, 61),
        Stage::Found => answer::put_slot(text, q.state, &q.offers, q.number),
        Stage::AskRefused(number) => answer::put_ask_refused(text, number),
        Stage::PlanRefused { number, place } => script::put_plan_refused(text, number, place),
    }
}

// The same line to a lent buffer. Answers how many bytes of it are text.
pub fn finish(q: Search, out: &mut [u8]) -> usize
    requires { Sound q }
    ensures { output out.new result ≡ put (output out.old 0) (answer_text q []) }
{
    let mut text = Text { out, at: 0 };
    put_answer(&mut text, q);
    text.at
}

// All that is printed, from the bytes of the files `plan` and `ask` and of the script, to a lent buffer as far as it reaches. Answers
// how many bytes of the buffer are text.
pub fn why(plan: &[u8], ask: &[u8], script: &[u8], out: &mut [u8]) -> usize
    ensures count { result ≡ min (length (why_text plan.now ask.now script.now)) (length out.old) }
    ensures text { out.new ≡ holding (why_text plan.now ask.now script.now) out.old }
{
    let q = seeking::start(plan, ask);
    let r = seeking::seek(q, script);
    finish(r, out)
}
