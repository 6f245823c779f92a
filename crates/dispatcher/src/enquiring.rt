// 9/13: an enquiry, which shows what an instant would do and changes nothing.
ghost use Rattle.dispatcher.specs.Dispatcher.{Enquires};

use crate::{Dispatcher, Enquiry};

impl Dispatcher {
    // What an instant of this dispatcher would do, and the ticket by which it is committed.
    pub fn enquire(self, time: u64, set: u32) -> Enquiry
        ensures { Enquires self time set result }
    {
        let ticket = self.ticket;
        let step = self.instant(time, set);
        Enquiry { step, ticket }
    }
}
