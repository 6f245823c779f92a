// The dispatcher of one core by instants: opened from task entries, then called with releases and marks.
#![tactic(auto)]

mod answering;
mod enquiring;
mod instant;
mod mark;
mod open_tasks;
mod refusing;
mod stepping;
mod telling;
mod ticket;

pub use mark::marked_all;
pub use open_tasks::{open, opened};
pub use refusing::{mark_refusal, marks_refusal, refusal};
use rules::{CallRefusal, Occurred, at};
pub use stepping::steps;
use table::Columns;
pub use telling::WORDS;
pub use ticket::raised;

// The state of the rules as it is kept: three arrays of numbers, whose places `rules::at` names; of each task the priority and the lengths;
// and of each task's job the release time and the count of blocked intervals, and the time of its waiting release. C and Rust keep
// these very arrays. 9/13: beside the state stands the ticket, the number of served commits and mark calls so far, modulo 2 to the 64th.
#[derive(Clone, Copy)]
pub struct Dispatcher {
    pub ticket: u64,
    pub times: at::Times,
    pub release: [u64; 32],
    pub waits: [u64; 32],
    pub sets: at::Sets,
    pub columns: Columns,
    pub codes: at::Codes,
    pub priority: [u8; 32],
    pub blocked: [u8; 32],
}

#[derive(Clone, Copy)]
pub struct Step {
    pub state: Dispatcher,
    pub answer: Result<Occurred, CallRefusal>,
}

// What an enquiry shows: what the instant would answer and leave, and the ticket by which it is committed.
#[derive(Clone, Copy)]
pub struct Enquiry {
    pub step: Step,
    pub ticket: u64,
}

#[derive(Clone, Copy)]
pub struct MarkStep {
    pub state: Dispatcher,
    pub answer: Result<(), CallRefusal>,
}
