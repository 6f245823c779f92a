// The next due time: when the next phase ends. As a plain number it is cheaper than the enum: the last tick stands for none.
ghost use Rattle.std.specs.Prelude.{◌≡◌, min};
ghost use Rattle.rules.specs.Steps.{CopyOutTick, EngineTick, DueTick, SomeDue};

use crate::{at, codes};

// The smaller of two ticks.
pub fn least(a: u64, b: u64) -> u64
    ensures { result ≡ min a b }
{
    a.min(b)
}

fn copyout_tick(times: &at::Times, codes: &at::Codes) -> u64
    ensures { CopyOutTick times.now codes.now result }
{
    if codes[at::COPYOUT] == codes::COPYING_OUT {
        return times[at::OUTUNTIL];
    }
    u64::MAX
}

fn engine_tick(times: &at::Times, codes: &at::Codes) -> u64
    ensures { EngineTick times.now codes.now result }
{
    let due = copyout_tick(times, codes);
    if codes[at::COPYIN] == codes::COPYING {
        return least(due, times[at::INUNTIL]);
    }
    due
}

pub fn due_tick(times: &at::Times, codes: &at::Codes) -> u64
    ensures { DueTick times.now codes.now result }
{
    if codes[at::COPYIN] == codes::NO_INTERVAL {
        return u64::MAX;
    }
    let due = engine_tick(times, codes);
    let kind = codes[at::PROCESSOR];
    if kind == codes::EXECUTING || kind == codes::COPYING_IN {
        return least(due, times[at::UNTIL]);
    }
    due
}

// Whether some phase is under way.
pub fn some_due(codes: &at::Codes) -> bool
    ensures { SomeDue codes.now result }
{
    let copyin = codes[at::COPYIN];
    if copyin == codes::NO_INTERVAL {
        return false;
    }
    if copyin == codes::COPYING || codes[at::COPYOUT] == codes::COPYING_OUT {
        return true;
    }
    let kind = codes[at::PROCESSOR];
    kind == codes::EXECUTING || kind == codes::COPYING_IN
}
