// Where each number of a dispatcher stands, in the three arrays that keep them: the times, the sets of tasks, and the codes.

// The times: of the interval's begin, of the execution's start, and of the end of each unit's phase; and of the last instant.
pub const BEGIN: usize = 0;

pub const START: usize = 1;

pub const UNTIL: usize = 2;

pub const OUTSTART: usize = 3;

pub const OUTUNTIL: usize = 4;

pub const INUNTIL: usize = 5;

pub const LAST: usize = 6;

// The sets.
pub const MARKED: usize = 0;

pub const PENDING: usize = 1;

pub const READY: usize = 2;

pub const CANDIDATES: usize = 3;

pub const PRESENT: usize = 4;

pub const WAITING: usize = 5;

// The tasks with a spacing, and those that had a release taken.
pub const SPACED: usize = 6;

pub const BEFORE: usize = 7;

// The codes: what a unit does, and with which task; the last is 0 before the first instant.
pub const HALF: usize = 0;

pub const WORK: usize = 1;

pub const PROCESSOR: usize = 2;

pub const TASK: usize = 3;

pub const COPYOUT: usize = 4;

pub const OUTTASK: usize = 5;

pub const COPYIN: usize = 6;

pub const INTASK: usize = 7;

pub const TIMED: usize = 8;

// The three arrays, each as long as it has numbers.
pub type Times = [u64; 7];

pub type Sets = [u32; 8];

pub type Codes = [u8; 9];
