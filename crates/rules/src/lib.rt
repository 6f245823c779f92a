// The rules of the dispatcher of one core: its state, what it answers, and each step of an instant.
#![tactic(auto)]

mod arrays;
pub mod at;
mod blocking;
pub mod codes;
mod lent;
mod next_due;
mod order;
mod refusal;
mod spacing;
mod step_a;
mod step_b;
mod step_c;
mod step_d;
mod step_e;
mod step_g;
mod times;

pub use blocking::{blockable, count_blocked};
use entries::{IntervalEntry, JobEntry};
pub use lent::stamp;
pub use next_due::{due_tick, least, some_due};
pub use refusal::CallRefusal;
pub use spacing::too_soon;
pub use step_a::{completed_job, copied_out, copyout_ends, others_end};
pub use step_b::{close, interval_entry, is_over, promoted};
pub use step_c::{held_over, released};
pub use step_d::take_releases;
pub use step_e::choose;
pub use step_g::begin_interval;

// The interval that closed at an instant: before its releases (step b) or after them (step f). Three cases, and no
// `Option`: on which side it closed would stand beside the interval.
#[derive(Clone, Copy)]
pub enum Closing {
    Unclosed,
    BeforeReleases(IntervalEntry),
    AfterReleases(IntervalEntry),
}

// A call on the dispatcher: an instant, with its time and the set of tasks released then; a task's mark from now on; or (10/13) that of
// a set of tasks.
#[derive(Clone, Copy)]
pub enum Call {
    Instant { time: u64, set: u32 },
    Mark { task: u8, mark: u8 },
    Marks { set: u32, mark: u8 },
}

// What becomes of the releases of an instant, as sets of tasks.
#[derive(Clone, Copy)]
pub struct ReleaseFates {
    pub taken: u32,
    pub deferred: u32,
    pub skipped: u32,
}

// The tasks of a set that have a higher priority than another task: those that are marked by 1.
#[derive(Clone, Copy)]
pub struct TasksAbove {
    pub tasks: u32,
    pub higher: [u8; 32],
}

// What goes on now: of the open interval its begin and work, the task and the end of each phase under way, and the processor's half; 255 is
// nobody. Beside them the sets of tasks.
#[derive(Clone, Copy)]
pub struct View {
    pub begin: u64,
    pub until: u64,
    pub inuntil: u64,
    pub outuntil: u64,
    pub pending: u32,
    pub waiting: u32,
    pub marked: u32,
    pub opened: u8,
    pub work: u8,
    pub processor: u8,
    pub copyin: u8,
    pub copyout: u8,
    pub half: u8,
}

// What occurred at a served instant: `done` is the job that was, if any, and `due` when the next phase ends, if one is under way.
#[derive(Clone, Copy)]
pub struct Occurred {
    pub done: Option<JobEntry>,
    pub closed: Closing,
    pub skipped: u32,
    pub due: Option<u64>,
}
