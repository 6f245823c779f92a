// Why a call is refused.
ghost use Rattle.std.specs.Prelude.{◌≡◌};
ghost use Rattle.rules.specs.Refusals.{call_number};

#[derive(Clone, Copy, PartialEq, Eq)]
pub enum CallRefusal {
    // A mark that is neither 0 nor 1.
    BadMark,
    // A release behind the last tick at which a task may be released.
    LateRelease,
    // An instant at or before the last one.
    NotAfter,
    // An instant behind the next due time.
    PastDue,
    // A task that is not in the table.
    UnknownTask,
    // A mark of a task that has a job pending or a release waiting.
    BusyTask,
    // A ticket that is not the present one.
    OldTicket,
}

impl CallRefusal {
    // Document 01's number.
    pub fn number(self) -> u8
        ensures { result ≡ call_number self }
    {
        match self {
            CallRefusal::BadMark => 6,
            CallRefusal::LateRelease => 10,
            CallRefusal::NotAfter => 14,
            CallRefusal::PastDue => 15,
            CallRefusal::UnknownTask => 16,
            CallRefusal::BusyTask => 17,
            CallRefusal::OldTicket => 20,
        }
    }
}
