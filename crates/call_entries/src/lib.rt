// The call entries of a session, answered with their lines. How they are laid out, `entries` says.
#![tactic(auto)]

ghost use Rattle.std.specs.Prelude.{◌≡◌, Ok};
ghost use Rattle.lines.specs.Lines.{instant_lines, enquiry_lines, mark_lines};
ghost use Rattle.rules.specs.Refusals.{numbered};
ghost use Rattle.lines.specs.Text.{Prints};
ghost use Rattle.call_entries.specs.Calls.{answered, NotServed, AnswersWith};
ghost use Rattle.dispatcher.specs.Dispatcher.{ticketed_of};

use dispatcher::{Dispatcher, Enquiry};
use entries::{CallEntry, Unreadable};
use lines::Text;
use rules::{CallRefusal, Occurred};

// The dispatcher after a call, and the call's lines.
#[derive(Clone, Copy)]
pub struct Answered {
    pub state: Dispatcher,
    pub text: Text,
}

// The lines of an instant's answer.
fn instant_text(answer: Result<Occurred, CallRefusal>) -> Text
    ensures { Prints result (instant_lines (numbered answer)) }
{
    lines::instant_lines(answer.map_err(CallRefusal::number))
}

// The line of a mark call's answer.
fn mark_text(answer: Result<(), CallRefusal>) -> Text
    ensures { Prints result (mark_lines (numbered answer)) }
{
    lines::mark_lines(answer.map_err(CallRefusal::number))
}

// 9/13: the dispatcher after an enquiry, which is the one before it, and what the enquiry shows.
fn enquired(d: Dispatcher, enquiry: Enquiry) -> Answered
    ensures { (result.state ≡ d) × Prints result.text (enquiry_lines (numbered enquiry.step.answer) enquiry.ticket) }
{
    let ticket = enquiry.ticket;
    let answer = enquiry.step.answer;
    let text = lines::enquiry_lines(answer.map_err(CallRefusal::number), ticket);
    let state = d;
    Answered { state, text }
}

// The dispatcher called. A call that is refused, and what is no whole call, leave it as it was.
pub fn answer(d: Dispatcher, entry: Result<CallEntry, Unreadable>) -> Answered
    ensures { AnswersWith d (answered (ticketed_of d) entry) (NotServed (ticketed_of d) entry) result }
{
    let call = match entry {
        Ok(call) => call,
        Err(_) => {
            return Answered {
                state: d,
                text: lines::cut_short_line(),
            };
        }
    };
    match call {
        CallEntry::InstantCall { time, set } => {
            let step = d.instant(time, set);
            Answered {
                state: step.state,
                text: instant_text(step.answer),
            }
        }
        CallEntry::MarkCall { task, mark } => {
            let step = d.mark(task, mark);
            Answered {
                state: step.state,
                text: mark_text(step.answer),
            }
        }
        CallEntry::EnquiryCall { time, set } => {
            let enquiry = d.enquire(time, set);
            enquired(d, enquiry)
        }
        CallEntry::MarksCall { set, mark } => {
            let step = d.mark_all(set, mark);
            Answered {
                state: step.state,
                text: mark_text(step.answer),
            }
        }
        CallEntry::CommitCall { ticket, time, set } => {
            let step = d.commit(ticket, time, set);
            Answered {
                state: step.state,
                text: instant_text(step.answer),
            }
        }
    }
}
