// Values by task number.
ghost use Rattle.std.specs.Prelude.{◌≡◌, get_or};
ghost use Rattle.rules.specs.Registers.{waits as waiting-releases};
ghost use Rattle.rules.specs.Instant as instant;

// What a list has for task `n`, `none` past its end.
pub fn value_of<T: Copy>(values: &[T], n: u8, none: T) -> T
    ensures { result ≡ get_or values.now n none }
{
    values.get(usize::from(n)).copied().unwrap_or(none)
}

// The time that a job's entry shows: that of the waiting release, if one is taken, else `t`.
fn original(waiting: u32, waits: &[u64; 32], n: u8, t: u64) -> u64
    ensures { result ≡ instant.original (waiting-releases waiting waits.now 0) t n }
{
    if sets::contains(waiting, n) {
        return value_of(waits, n, 0);
    }
    t
}

// For each task of a set, that time as its release time, and 0 as its count.
pub fn take(
    set: u32,
    t: u64,
    waiting: u32,
    waits: &[u64; 32],
    times: &mut [u64; 32],
    counts: &mut [u8; 32],
)
    ensures times_after { times.new ≡
        instant.stamped set (instant.original (waiting-releases waiting waits.now 0) t) 0 times.old }
    ensures counts_after { counts.new ≡ instant.stamped set (λ k. 0) 0 counts.old }
{
    for n in sets::members(set) {
        let i = usize::from(n);
        times[i] = original(waiting, waits, n, t);
        counts[i] = 0;
    }
}

// For each task of a set, `t` as the time of its waiting release.
pub fn defer(set: u32, t: u64, waits: &mut [u64; 32])
    ensures { waits.new ≡ instant.stamped set (λ k. t) 0 waits.old }
{
    for n in sets::members(set) {
        waits[usize::from(n)] = t;
    }
}
