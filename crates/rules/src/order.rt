// The order in which jobs go: by priority, where the smaller number is the higher priority, then by release time, then by task number.
ghost use Rattle.std.specs.Prelude.{◌≡◌, cond, ◌&&◌, eqb, ltb, length, get_or, ◌+◌, ◌<◌, min};
ghost use Rattle.rules.specs.Order as order;
ghost use Rattle.rules.specs.Registers.{as_task};
ghost use Rattle.rules.specs.Steps.{Outranks, Above, CountsMarked};

use crate::arrays::value_of;
use crate::codes::NO_TASK;

// Whether task `n` of priority `p` goes before task `best` of priority `least`. Times are looked at only where the priorities are equal.
fn goes_before(p: u32, n: u8, least: u32, best: u8, release: &[u64; 32]) -> bool
    ensures { result ≡ cond (eqb p least) (ltb (get_or release.now n 0) (get_or release.now best 0)) (ltb p least) }
{
    if p == least {
        return value_of(release, n, 0) < value_of(release, best, 0);
    }
    p < least
}

// The highest task of a set, NO_TASK if there is none. The loop begins behind the lowest member: most sets have one member or none.
pub fn first(priority: &[u8; 32], release: &[u64; 32], set: u32) -> u8
    ensures { as_task result ≡ order.highest priority.now (λ k. get_or release.now k 0) set }
{
    if set == 0 {
        return NO_TASK;
    }
    let mut best = sets::lowest(set);
    let mut least = u32::from(priority[usize::from(best)]);
    for n in sets::members(sets::rest(set)) {
        let p = u32::from(priority[usize::from(n)]);
        if goes_before(p, n, least, best, release) {
            least = p;
            best = n;
        }
    }
    best
}

// Whether the task `by`, if it is one, has a higher priority than task `n`.
pub fn outranks(priority: &[u8; 32], by: u8, n: u8) -> bool
    ensures { Outranks priority.now by n result }
{
    by < NO_TASK && value_of(priority, by, 0) < value_of(priority, n, 0)
}

// Of each task, 1 where it has a higher priority than task `n`, else 0. All 32 are compared at once, which is faster than to go from member
// to member.
pub fn higher(priority: &[u8; 32], n: u8) -> [u8; 32]
    ensures { Above priority.now n result }
{
    let limit = value_of(priority, n, 0);
    let mut found = [0u8; 32];
    for (k, other) in priority.iter().enumerate() {
        found[k] = u8::from(*other < limit);
    }
    found
}

// One more, held at 255, where a task is both in a set and marked.
fn risen(count: u8, marked: u8, member: bool) -> u8
    ensures { result ≡ cond (member && eqb marked 1) (min (count + 1) 255) count }
{
    if member && marked == 1 {
        return count.saturating_add(1);
    }
    count
}

// That for each task. All 32 are made at once, without a branch.
pub fn count_all(set: u32, marks: &[u8; 32], counts: &mut [u8; 32])
    ensures { CountsMarked set marks.now counts.old counts.new }
{
    let mut next = [0u8; 32];
    for k in 0..NO_TASK {
        let i = usize::from(k);
        next[i] = risen(counts[i], marks[i], sets::contains(set, k));
    }
    *counts = next;
}
