// What occurs at an instant, told as it occurs, a word for each number (specs/Telling): bytes packed into one word took longer. What does
// not occur leaves its words as they were.
ghost use Rattle.rules.specs.Registers.{as_task};
ghost use Rattle.dispatcher.specs.Promises.{TaskWord, ProcessorWord, CopyOutWord, CopyInWord, FateWord, TellsJob, TellsInterval, TellsSkipped, TellsDue};

use entries::JobEntry;
use rules::{at, codes};

// How many words there are.
pub const WORDS: usize = 19;

// The words that say what there is: whether a job is done, and whether an interval closed, 1 before the releases and 2 after them.
pub const DONE: usize = 2;

pub const CLOSED: usize = 3;

// No task, as a word: more than a byte has. A number, since C is told it.
pub const NOBODY: u64 = 511;

// The job that is done.
#[tactic(auto, unfolding(crate::specs::Telling::job_told))]
pub fn tell_job(e: JobEntry, told: &mut [u64; WORDS])
    ensures { TellsJob e told.old told.new }
{
    told[5] = e.release;
    told[6] = e.start;
    told[7] = e.completion;
    told[8] = u64::from(e.task);
    told[9] = u64::from(e.blocked);
    told[DONE] = 1;
}

// The words of an interval's entry, of the numbers of its units: an entry that is made first and taken apart afterwards is slower.
fn processor_word(codes: &at::Codes) -> u64
    ensures { ProcessorWord codes.now result }
{
    if codes[at::PROCESSOR] == codes::IDLE {
        return NOBODY;
    }
    u64::from(codes[at::TASK])
}

fn copyout_word(codes: &at::Codes) -> u64
    ensures { CopyOutWord codes.now result }
{
    if codes[at::COPYOUT] == codes::NO_COPYOUT {
        return NOBODY;
    }
    u64::from(codes[at::OUTTASK])
}

fn copyin_word(codes: &at::Codes) -> u64
    ensures { CopyInWord codes.now result }
{
    if codes[at::COPYIN] < codes::COPYING {
        return NOBODY;
    }
    u64::from(codes[at::INTASK])
}

fn fate_word(codes: &at::Codes) -> u64
    ensures { FateWord codes.now result }
{
    let kind = codes[at::COPYIN];
    if kind < codes::LOADED {
        return u64::from(codes::FATE_NONE);
    }
    u64::from(kind - 2)
}

fn promoted_word(n: u8) -> u64
    ensures { TaskWord (as_task n) result }
{
    if n < codes::NO_TASK {
        return u64::from(n);
    }
    NOBODY
}

pub fn tell_interval(
    t: u64,
    promoted: u8,
    times: &at::Times,
    codes: &at::Codes,
    told: &mut [u64; WORDS],
)
    ensures { TellsInterval t promoted times.now codes.now told.old told.new }
{
    told[10] = times[at::BEGIN];
    told[11] = t;
    told[12] = u64::from(codes[at::HALF]);
    told[13] = processor_word(codes);
    told[14] = u64::from(codes[at::WORK]);
    told[15] = copyout_word(codes);
    told[16] = copyin_word(codes);
    told[17] = fate_word(codes);
    told[18] = promoted_word(promoted);
}

// The skipped releases.
pub fn tell_skipped(skipped: u32, told: &mut [u64; WORDS])
    ensures { TellsSkipped skipped told.old told.new }
{
    told[1] = u64::from(skipped);
}

// The next due time, if there is one, and whether there is.
pub fn tell_due(times: &at::Times, codes: &at::Codes, told: &mut [u64; WORDS])
    ensures { TellsDue times.now codes.now told.old told.new }
{
    let tick = rules::due_tick(times, codes);
    if tick != u64::MAX {
        told[0] = tick;
        told[4] = 1;
        return;
    }
    if rules::some_due(codes) {
        told[0] = tick;
        told[4] = 1;
        return;
    }
    told[4] = 0;
}
