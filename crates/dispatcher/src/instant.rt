// An instant of a dispatcher by value. A refused call hands the state back as it was.
ghost use Rattle.std.specs.Prelude.{◌≡◌};
ghost use Rattle.rules.specs.Calls as calls;
ghost use Rattle.rules.specs.Tickets as tickets;
ghost use Rattle.dispatcher.specs.Dispatcher.{state_of, step_of, Answers, Commits};

use crate::answering::occurred_in;
use crate::refusing::refusal;
use crate::stepping::steps;
use crate::telling::WORDS;
use crate::ticket::raised;
use crate::{Dispatcher, Step};
use rules::CallRefusal;

#[tactic(auto, using(crate::proofs::Numbered::is_served))]
fn served(d: Dispatcher, t: u64, set: u32) -> Step
    ensures { (step_of result ≡ calls.served (state_of d) t set) × (result.state.ticket ≡ tickets.raised d.ticket) }
{
    let mut times = d.times;
    let mut sets = d.sets;
    let mut codes = d.codes;
    let mut release = d.release;
    let mut blocked = d.blocked;
    let mut waits = d.waits;
    let mut told = [0u64; WORDS];
    steps(
        t,
        set,
        &mut times,
        &mut sets,
        &mut codes,
        &d.priority,
        &d.columns,
        &mut release,
        &mut blocked,
        &mut waits,
        &mut told,
    );
    let next = Dispatcher {
        ticket: raised(d.ticket),
        times,
        release,
        waits,
        sets,
        codes,
        blocked,
        ..d
    };
    Step {
        state: next,
        answer: Ok(occurred_in(&told)),
    }
}

impl Dispatcher {
    // An instant: the releases of a set at a time.
    pub fn instant(self, time: u64, set: u32) -> Step
        ensures { Answers self time set result }
    {
        if let Err(refusal) = refusal(time, set, &self.times, &self.sets, &self.codes) {
            return Step {
                state: self,
                answer: Err(refusal),
            };
        }
        served(self, time, set)
    }

    // 9/13: an instant that was enquired about, by the ticket that the enquiry gave. Where something was served since, it is refused.
    pub fn commit(self, ticket: u64, time: u64, set: u32) -> Step
        ensures { Commits self ticket time set result }
    {
        if ticket != self.ticket {
            return Step {
                state: self,
                answer: Err(CallRefusal::OldTicket),
            };
        }
        self.instant(time, set)
    }
}
