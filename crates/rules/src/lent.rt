// The arrays that keep a dispatcher's numbers, as they are lent.
ghost use Rattle.rules.specs.Steps.{TimedAt};

use crate::at;

// The instant's time.
pub fn stamp(t: u64, times: &mut at::Times, sets: &at::Sets, codes: &mut at::Codes)
    ensures { TimedAt t sets.now
        times.old codes.old times.new codes.new }
{
    times[at::LAST] = t;
    codes[at::TIMED] = 1;
}
