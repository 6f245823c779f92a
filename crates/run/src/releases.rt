// The releases of a file's run, read from the bytes as their time comes. The slices that are lent have the releases that are left.
ghost use Rattle.std.specs.Prelude.{◌-◌, ◌^◌, ◌<◌};
ghost use Rattle.rules.specs.Steps.{Stands};
ghost use Rattle.run.specs.Listed.{releases_at};
ghost use Rattle.run.specs.Run as run;
ghost use Rattle.run.specs.Advance.{Gathered, NextTick};

use entries::RELEASE_SIZE;
use rules::at;

// The set released at a time, and how many bytes its entries have.
#[derive(Clone, Copy)]
pub struct Batch {
    pub set: u32,
    pub read: usize,
}

// The time of the next release; the last tick stands for none.
fn first_tick(rest: &[u8]) -> u64
    ensures { Stands result (run.first_time (releases_at rest.now 0)) }
{
    if rest.len() < RELEASE_SIZE {
        return u64::MAX;
    }
    entries::release_time(rest)
}

// The releases at a time.
pub fn gather(rest: &[u8], t: u64) -> Batch
    requires { t < 2 ^ 64 - 1 }
    ensures { Gathered rest.now t result }
{
    let mut set: u32 = 0;
    let mut at: usize = 0;
    // as long as the next one is of that time
    while first_tick(&rest[at..]) == t {
        let next = &rest[at..];
        set = sets::insert(set, entries::release_task(next));
        at += RELEASE_SIZE;
    }
    Batch { set, read: at }
}

// When the next instant of a run is: the sooner of its next release and the next due time; the last tick stands for none.
pub fn next_tick(rest: &[u8], times: &at::Times, codes: &at::Codes) -> u64
    ensures { NextTick rest.now times.now codes.now result }
{
    rules::least(first_tick(rest), rules::due_tick(times, codes))
}
