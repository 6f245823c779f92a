// The limits of inputs, runs and records: those that document 01 gives, and those that follow from them and from the entries' lengths. Each
// stands here once, and in specs/Limits under the same name; why an input or a record is no longer is proved where it is read and written.
use crate::{INTERVAL_SIZE, JOB_SIZE, RELEASE_SIZE, SKIPPED_SIZE, SPACING_SIZE, TASK_SIZE};

// There are so many task numbers, from 0 on.
pub const TASKS: usize = 32;

// The longest that a phase may take, in ticks.
pub const LONGEST_PHASE: u32 = 1000000;

// The most releases of a file.
pub const RELEASES: usize = 4096;

// The last tick at which a task may be released.
pub const LAST_RELEASE: u64 = 1000000000;

// The longest spacing of a task's releases.
pub const LONGEST_SPACING: u32 = 1000000000;

// The bytes of a head that is accepted, at most: an entry for each task, and a spacing for each.
pub const LONGEST_HEAD: usize = TASKS * TASK_SIZE + TASKS * SPACING_SIZE;

// Of a list of releases, and of an input that is accepted.
pub const LONGEST_LIST: usize = RELEASES * RELEASE_SIZE;

pub const LONGEST_FILE: usize = LONGEST_HEAD + LONGEST_LIST;

// As many bytes of a head or an input as are enough to read: one whole entry more, of which a task's is the longest.
pub const HEAD_MOST: usize = LONGEST_HEAD + TASK_SIZE;

pub const FILE_MOST: usize = LONGEST_FILE + TASK_SIZE;

// No run needs so many instants for each release, and as many more; no run of a file needs `BUDGET_MOST`.
pub const INSTANTS_EACH: usize = 32;

pub const BUDGET_MOST: usize = INSTANTS_EACH * RELEASES + INSTANTS_EACH;

// The most bytes that one instant leaves in a record: a job done, an interval ended, a release of each task skipped.
pub const INSTANT_MOST: usize = JOB_SIZE + INTERVAL_SIZE + TASKS * SKIPPED_SIZE;

// The most bytes of a record for each release, a job done and three intervals; and of the record of a file.
pub const RECORD_EACH: usize = JOB_SIZE + 3 * INTERVAL_SIZE;

pub const RECORD_MOST: usize = RECORD_EACH * RELEASES;
