// The dispatcher advanced where it is kept: the driver keeps one for each core and lends it.
#![tactic(auto)]

ghost use Rattle.dispatcher.specs.Dispatcher.{AnswersKept, CommitsKept};
ghost use Rattle.kept.specs.Kept.{MarksKept, MarksAllKept};

use dispatcher::Dispatcher;
use rules::{CallRefusal, Occurred};

// An instant of the dispatcher behind `d`. On a refusal what stands there is as it was.
pub fn advance(d: &mut Dispatcher, time: u64, set: u32) -> Result<Occurred, CallRefusal>
    ensures { AnswersKept d.old time set result d.new }
{
    let cur = *d;
    let s = cur.instant(time, set);
    *d = s.state;
    s.answer
}

// 9/13: an instant that was enquired about, by its ticket, of the dispatcher behind `d`. On a refusal what stands there is as it was.
pub fn commit(d: &mut Dispatcher, ticket: u64, time: u64, set: u32) -> Result<Occurred, CallRefusal>
    ensures { CommitsKept d.old ticket time set result d.new }
{
    let cur = *d;
    let s = cur.commit(ticket, time, set);
    *d = s.state;
    s.answer
}

// A mark call on the dispatcher behind `d`. On a refusal what stands there is as it was.
pub fn mark(d: &mut Dispatcher, task: u8, mark: u8) -> Result<(), CallRefusal>
    ensures { MarksKept d.old task mark result d.new }
{
    let cur = *d;
    let s = cur.mark(task, mark);
    *d = s.state;
    s.answer
}

// 10/13: a mark call of a set of tasks on the dispatcher behind `d`. On a refusal what stands there is as it was.
pub fn mark_all(d: &mut Dispatcher, set: u32, mark: u8) -> Result<(), CallRefusal>
    ensures { MarksAllKept d.old set mark result d.new }
{
    let cur = *d;
    let s = cur.mark_all(set, mark);
    *d = s.state;
    s.answer
}
