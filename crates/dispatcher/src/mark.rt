// A mark call, of one task or of a set. A refused one hands the state back as it was.
ghost use Rattle.std.specs.Prelude.{◌≡◌};
ghost use Rattle.rules.specs.Calls as calls;
ghost use Rattle.rules.specs.Tickets as tickets;
ghost use Rattle.dispatcher.specs.Dispatcher.{state_of, MarkAnswers, MarksAnswers};
ghost use Rattle.dispatcher.specs.Promises.{MarksAt};

use crate::refusing::{mark_refusal, marks_refusal};
use crate::ticket::raised;
use crate::{Dispatcher, MarkStep};
use rules::at;

// The marks of some tasks set or taken away; of none, as they were.
#[tactic(auto, using(crate::proofs::Marking::marks))]
pub fn marked_all(set: u32, mark: u8, sets: &mut at::Sets)
    ensures { MarksAt set mark sets.old sets.new }
{
    if set == 0 {
        return;
    }
    let marked = sets[at::MARKED];
    if mark == 1 {
        sets[at::MARKED] = sets::union(marked, set);
        return;
    }
    sets[at::MARKED] = sets::difference(marked, set);
}

fn with_marks(d: Dispatcher, set: u32, mark: u8) -> Dispatcher
    ensures { (state_of result ≡ calls.with_marks (state_of d) set mark) × (result.ticket ≡ tickets.raised d.ticket) }
{
    let mut sets = d.sets;
    marked_all(set, mark, &mut sets);
    let ticket = raised(d.ticket);
    Dispatcher { ticket, sets, ..d }
}

impl Dispatcher {
    // A mark call: one task's mark, while it has no pending job and no waiting release.
    pub fn mark(self, task: u8, mark: u8) -> MarkStep
        ensures { MarkAnswers self task mark result }
    {
        if let Err(refusal) = mark_refusal(task, mark, &self.sets) {
            return MarkStep {
                state: self,
                answer: Err(refusal),
            };
        }
        MarkStep {
            state: with_marks(self, sets::insert(0, task), mark),
            answer: Ok(()),
        }
    }

    // 10/13: the marks of a set of tasks at once, while none of them has a pending job or a waiting release.
    pub fn mark_all(self, set: u32, mark: u8) -> MarkStep
        ensures { MarksAnswers self set mark result }
    {
        if let Err(refusal) = marks_refusal(set, mark, &self.sets) {
            return MarkStep {
                state: self,
                answer: Err(refusal),
            };
        }
        MarkStep {
            state: with_marks(self, set, mark),
            answer: Ok(()),
        }
    }
}
