// d. If a marked release was taken whose priority is higher than that of a copy-in under way on the engine, this copy-in is
// cancelled and its job is ready again (R3). It also throws out a lower-priority copy-in that the engine has already finished in the
// open interval.
ghost use Rattle.std.specs.Prelude.{◌≡◌};
ghost use Rattle.rules.specs.Registers.{is_held};
ghost use Rattle.rules.specs.Kept.{by_task};
ghost use Rattle.rules.specs.Steps.{GivenWay, GivesWayAt, TakesAt};

use crate::arrays::{defer, take};
use crate::order::{first, outranks};
use crate::{ReleaseFates, at, codes};

// The engine holds a job: its copy-in is under way, or finished.
fn holds(kind: u8) -> bool
    ensures { result ≡ is_held kind }
{
    kind == codes::COPYING || kind == codes::LOADED
}

// What such a copy-in is once it has given way.
fn given_way(kind: u8) -> u8
    ensures { GivenWay kind result }
{
    if kind == codes::LOADED {
        return codes::THROWN_OUT;
    }
    codes::CANCELLED
}

fn give_way(
    taken: u32,
    sets: &mut at::Sets,
    codes: &mut at::Codes,
    priority: &[u8; 32],
    release: &[u64; 32],
)
    ensures { GivesWayAt taken priority.now release.now
        sets.old codes.old sets.new codes.new }
{
    let kind = codes[at::COPYIN];
    if !holds(kind) {
        return;
    }
    let marked = sets::intersection(taken, sets[at::MARKED]);
    let by = first(priority, release, marked);
    let n = codes[at::INTASK];
    if outranks(priority, by, n) {
        sets[at::READY] = sets::insert(sets[at::READY], n);
        codes[at::COPYIN] = given_way(kind);
    }
}

// Steps c and d, by what becomes of the releases: some are taken, and some wait. Most instants of a run have no release, and then
// nothing changes. The jobs that are taken are pending and ready, and the marked ones candidates in the open interval; where none is open,
// nothing reads the candidates.
pub fn take_releases(
    t: u64,
    r: ReleaseFates,
    sets: &mut at::Sets,
    codes: &mut at::Codes,
    priority: &[u8; 32],
    release: &mut [u64; 32],
    blocked: &mut [u8; 32],
    waits: &mut [u64; 32],
)
    ensures { TakesAt t r.taken r.deferred priority.now
        sets.old codes.old (by_task release.old blocked.old waits.old)
        sets.new codes.new (by_task release.new blocked.new waits.new) }
{
    let taken = r.taken;
    let deferred = r.deferred;
    if sets::union(taken, deferred) == 0 {
        return;
    }
    let waiting = sets[at::WAITING];
    take(taken, t, waiting, waits, release, blocked);
    sets[at::WAITING] = sets::union(sets::difference(waiting, taken), deferred);
    sets[at::BEFORE] = sets::union(sets[at::BEFORE], taken);
    defer(deferred, t, waits);
    sets[at::PENDING] = sets::union(sets[at::PENDING], taken);
    sets[at::READY] = sets::union(sets[at::READY], taken);
    sets[at::CANDIDATES] = sets::union(
        sets[at::CANDIDATES],
        sets::intersection(taken, sets[at::MARKED]),
    );
    give_way(taken, sets, codes, priority, release);
}
