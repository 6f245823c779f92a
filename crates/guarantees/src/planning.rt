// 7/13: the figure that members plan on, by the columns of a table and the set of its tasks. Any memory has one: the lengths need not be in
// their range.
ghost use Rattle.std.specs.Prelude.{◌≡◌, cond, ◌+◌, ◌-◌, ◌*◌, ◌^◌, ◌<◌, min};
ghost use Rattle.guarantees.specs.Figure as figure;

use table::Columns;

// A length of a task that is there, else 0.
fn counted(there: bool, length: u32) -> u64
    ensures { (result ≡ cond there length 0) × (result < 2 ^ 32) }
{
    if there { u64::from(length) } else { 0 }
}

// M: the larger of the greatest L + C and the sum of the greatest L and the greatest U, over the tasks that there are.
pub fn longest_interval(columns: &Columns, present: u32) -> u64
    ensures { result ≡ figure.longest_interval present columns.now }
{
    let mut copyin: u64 = 0;
    let mut copyout: u64 = 0;
    let mut work: u64 = 0;
    for k in 0..32 {
        let there = sets::contains(present, k);
        let l = counted(there, table::copyin_length(columns, k));
        let c = counted(there, table::execution_length(columns, k));
        let u = counted(there, table::copyout_length(columns, k));
        copyin = copyin.max(l);
        copyout = copyout.max(u);
        work = work.max(l + c);
    }
    work.max(copyin + copyout)
}

// How many intervals a job has at most, where h others that are not lower go before it.
fn intervals_by(marked: bool, h: u32) -> u64
    ensures { result ≡ figure.intervals_by marked h }
{
    if marked {
        return u64::from(h) + 2;
    }
    u64::from(h) + 3
}

// So many intervals and a copy-out, held at the last number of 64 bits.
fn held(count: u64, longest: u64, length: u64) -> u64
    ensures { result ≡ min (count * longest + length) (2 ^ 64 - 1) }
{
    count.saturating_mul(longest).saturating_add(length)
}

// How many ticks after its taking a job of task n completes at the latest, where h others that are not lower go before it.
pub fn completes_after(columns: &Columns, present: u32, n: u8, marked: bool, h: u32) -> u64
    ensures { result ≡ figure.completes_after present columns.now n marked h }
{
    let longest = longest_interval(columns, present);
    let length = table::copyout_length(columns, n);
    held(intervals_by(marked, h), longest, u64::from(length))
}
