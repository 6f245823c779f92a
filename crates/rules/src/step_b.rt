// b and f. If an interval is open, its processor is finished or idle, its copy-in choice has been made and no copy is under way,
// it ends.
ghost use Rattle.std.specs.Prelude.{◌≡◌};
ghost use Rattle.rules.specs.Registers.{as_task};
ghost use Rattle.rules.specs.Kept.{kept};
ghost use Rattle.rules.specs.Steps.{Resting, Settled, OverAt, PromotedAt, ProcessorTask, CopyOutTask, CopyInTask, CopyInFate, EntryAt, NextCopyOut, NextSet, ClosedAt};

use crate::order::first;
use crate::{at, codes};
use entries::IntervalEntry;

fn resting(kind: u8) -> bool
    ensures { Resting kind result }
{
    kind != codes::COPYING_IN && kind != codes::EXECUTING
}

// The choice has been made, and its copy is not under way.
fn settled(kind: u8) -> bool
    ensures { Settled kind result }
{
    kind != codes::UNCHOSEN && kind != codes::COPYING
}

// R6: an interval is open and both units are at their ends.
pub fn is_over(codes: &at::Codes) -> bool
    ensures { OverAt codes.now result }
{
    let copyin = codes[at::COPYIN];
    if copyin == codes::NO_INTERVAL {
        return false;
    }
    settled(copyin) && resting(codes[at::PROCESSOR]) && codes[at::COPYOUT] != codes::COPYING_OUT
}

// R4, at an interval's end: where the copy-in was cancelled or thrown out, or none was chosen, the highest marked job released
// in the interval and ready is promoted, or NO_TASK.
pub fn promoted(sets: &at::Sets, codes: &at::Codes, priority: &[u8; 32], release: &[u64; 32]) -> u8
    ensures { PromotedAt priority.now release.now sets.now codes.now result }
{
    if codes[at::COPYIN] == codes::LOADED {
        return codes::NO_TASK;
    }
    first(
        priority,
        release,
        sets::intersection(sets[at::CANDIDATES], sets[at::READY]),
    )
}

fn task_of(n: u8) -> Option<u8>
    ensures { result ≡ as_task n }
{
    if n < codes::NO_TASK {
        return Some(n);
    }
    None
}

fn processor_task(kind: u8, n: u8) -> Option<u8>
    ensures { ProcessorTask kind n result }
{
    if kind == codes::IDLE {
        return None;
    }
    Some(n)
}

fn copyout_task(kind: u8, n: u8) -> Option<u8>
    ensures { CopyOutTask kind n result }
{
    if kind == codes::NO_COPYOUT {
        return None;
    }
    Some(n)
}

fn copyin_task(kind: u8, n: u8) -> Option<u8>
    ensures { CopyInTask kind n result }
{
    if kind == codes::UNCHOSEN {
        return None;
    }
    if kind == codes::NONE_CHOSEN {
        return None;
    }
    Some(n)
}

fn copyin_fate(kind: u8) -> u8
    ensures { CopyInFate kind result }
{
    if kind < codes::LOADED {
        return codes::FATE_NONE;
    }
    kind - 2
}

// What is recorded of the interval, as it stands, with its end and the task promoted.
pub fn interval_entry(t: u64, promoted: u8, times: &at::Times, codes: &at::Codes) -> IntervalEntry
    ensures { EntryAt t promoted times.now codes.now result }
{
    let processor = codes[at::PROCESSOR];
    let copyout = codes[at::COPYOUT];
    let copyin = codes[at::COPYIN];
    IntervalEntry {
        begin: times[at::BEGIN],
        end: t,
        half: codes[at::HALF],
        task: processor_task(processor, codes[at::TASK]),
        work: codes[at::WORK],
        copiedout: copyout_task(copyout, codes[at::OUTTASK]),
        chosen: copyin_task(copyin, codes[at::INTASK]),
        fate: copyin_fate(copyin),
        promoted: task_of(promoted),
    }
}

// R2: the job that was executed is copied out in the next interval.
fn next_copyout(kind: u8) -> u8
    ensures { NextCopyOut kind result }
{
    if kind == codes::IDLE {
        return codes::NO_COPYOUT;
    }
    codes::COPYING_OUT
}

// R5: the next interval executes the promoted job, else the loaded one, else none.
fn set_next(promoted: u8, sets: &mut at::Sets, codes: &mut at::Codes)
    ensures { NextSet promoted sets.old codes.old sets.new codes.new }
{
    if promoted < codes::NO_TASK {
        sets[at::READY] = sets::remove(sets[at::READY], promoted);
        codes[at::WORK] = codes::COPY_IN_AND_EXECUTE;
        codes[at::TASK] = promoted;
        return;
    }
    let loaded = codes[at::INTASK];
    if codes[at::COPYIN] == codes::LOADED {
        codes[at::WORK] = codes::EXECUTE;
        codes[at::TASK] = loaded;
        return;
    }
    codes[at::WORK] = codes::NO_WORK;
    codes[at::TASK] = loaded;
}

// The interval ends, where the blocked intervals are counted already.
pub fn close(promoted: u8, times: &mut at::Times, sets: &mut at::Sets, codes: &mut at::Codes)
    ensures { ClosedAt promoted
        (kept times.old sets.old codes.old)
        (kept times.new sets.new codes.new) }
{
    codes[at::COPYOUT] = next_copyout(codes[at::PROCESSOR]);
    codes[at::OUTTASK] = codes[at::TASK];
    times[at::OUTSTART] = times[at::START];
    set_next(promoted, sets, codes);
    codes[at::COPYIN] = codes::NO_INTERVAL;
}
