// Blocked, at an interval's end: a job that awaits execution, where the processor executed a lower-priority one.
ghost use Rattle.std.specs.Prelude.{◌≡◌, get_or};
ghost use Rattle.rules.specs.Steps.{tasks_above, Blockable, CountsWaiting, CountsAt};

use crate::order::{count_all, higher, outranks};
use crate::{TasksAbove, at, codes};

// The tasks that the interval can block, by what the processor did and its task: those of the table with a higher priority than the one
// that it executed, and none if it idled.
pub fn blockable(kind: u8, n: u8, present: u32, priority: &[u8; 32]) -> TasksAbove
    ensures { Blockable kind n present priority.now (tasks_above result) }
{
    if kind != codes::IDLE {
        return TasksAbove {
            tasks: present,
            higher: higher(priority, n),
        };
    }
    TasksAbove {
        tasks: 0,
        higher: [0u8; 32],
    }
}

// One more blocked interval for each of the jobs that wait whose task is in the set, which is gathered once, before they are walked. A job
// of a task that is not in the table, which no state that calls made has, is compared with the others.
fn count_waiting(
    waiting: u32,
    sets: &at::Sets,
    codes: &at::Codes,
    priority: &[u8; 32],
    blocked: &mut [u8; 32],
)
    requires { get_or codes.now 2 0 ≡ 0 → ⊥ }
    ensures { CountsWaiting waiting priority.now sets.now codes.now
        blocked.old blocked.new }
{
    let kind = codes[at::PROCESSOR];
    let n = codes[at::TASK];
    let tasks = sets::union(sets[at::PRESENT], waiting);
    let set = blockable(kind, n, tasks, priority);
    count_all(sets::intersection(waiting, set.tasks), &set.higher, blocked);
}

// One more blocked interval for each job that the interval blocks, of those released in it or before it that a later one executes. Where
// the processor idled, none waits, or the loaded one alone, which is not higher, there is nothing to count, as in most intervals: these
// tests are inlined, and the rest, which is called twice, is not.
pub fn count_blocked(
    sets: &at::Sets,
    codes: &at::Codes,
    priority: &[u8; 32],
    blocked: &mut [u8; 32],
)
    ensures { CountsAt priority.now sets.now codes.now
        blocked.old blocked.new }
{
    if codes[at::PROCESSOR] == codes::IDLE {
        return;
    }
    let ready = sets[at::READY];
    if codes[at::COPYIN] == codes::LOADED {
        let n = codes[at::INTASK];
        if ready == 0 {
            if !outranks(priority, n, codes[at::TASK]) {
                return;
            }
        }
        let waiting = sets::insert(ready, n);
        count_waiting(waiting, sets, codes, priority, blocked);
        return;
    }
    if ready != 0 {
        count_waiting(ready, sets, codes, priority, blocked);
    }
}
