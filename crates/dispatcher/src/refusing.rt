// The refusals of a call, each in its order, over the numbers that a dispatcher is kept as.
ghost use Rattle.dispatcher.specs.Promises.{NotAfter, TimeRefuses, Refuses, MarkRefuses, MarksRefuses};
ghost use Rattle.rules.specs.Refusals.{number_in};

use entries::limits;
use rules::{CallRefusal, at, due_tick};

// Whether there was an instant at or after `t`: 0 is allowed first.
fn not_after(t: u64, times: &at::Times, codes: &at::Codes) -> bool
    ensures { NotAfter t times.now codes.now result }
{
    if codes[at::TIMED] == 0 {
        return false;
    }
    t <= times[at::LAST]
}

// By its time alone: 14, 15, in this order. The due time as a plain number is enough for 15, and cheaper than the enum.
fn time_refusal(t: u64, times: &at::Times, codes: &at::Codes) -> Result<(), CallRefusal>
    ensures { TimeRefuses t times.now codes.now (number_in result) }
{
    if not_after(t, times, codes) {
        return Err(CallRefusal::NotAfter);
    }
    if due_tick(times, codes) < t {
        return Err(CallRefusal::PastDue);
    }
    Ok(())
}

// An instant: 16, 10, 14, 15, in this order. Most instants have no release, and the empty set has neither 16 nor 10.
pub fn refusal<'a>(
    t: u64,
    set: u32,
    times: &'a at::Times,
    sets: &'a at::Sets,
    codes: &'a at::Codes,
) -> Result<(), CallRefusal>
    ensures { Refuses t set times.now sets.now codes.now (number_in result) }
{
    if set == 0 {
        return time_refusal(t, times, codes);
    }
    if sets::difference(set, sets[at::PRESENT]) != 0 {
        return Err(CallRefusal::UnknownTask);
    }
    if t > limits::LAST_RELEASE {
        return Err(CallRefusal::LateRelease);
    }
    time_refusal(t, times, codes)
}

// A mark call: 16, 6, 17, in this order.
#[tactic(auto, unfolding(rules::specs::Calls::mark_refusal, rules::specs::Registers::state_in))]
pub fn mark_refusal(task: u8, mark: u8, sets: &at::Sets) -> Result<(), CallRefusal>
    ensures { MarkRefuses task mark sets.now (number_in result) }
{
    if !sets::contains(sets[at::PRESENT], task) {
        return Err(CallRefusal::UnknownTask);
    }
    if mark > 1 {
        return Err(CallRefusal::BadMark);
    }
    if sets::contains(sets::union(sets[at::PENDING], sets[at::WAITING]), task) {
        return Err(CallRefusal::BusyTask);
    }
    Ok(())
}

// 10/13, marks for a set of tasks: 16, 6, 17 of any of them, in this order.
#[tactic(auto, unfolding(rules::specs::Calls::marks_refusal, rules::specs::Calls::unknown, rules::specs::Registers::state_in))]
pub fn marks_refusal(set: u32, mark: u8, sets: &at::Sets) -> Result<(), CallRefusal>
    ensures { MarksRefuses set mark sets.now (number_in result) }
{
    if sets::difference(set, sets[at::PRESENT]) != 0 {
        return Err(CallRefusal::UnknownTask);
    }
    let busy = sets::union(sets[at::PENDING], sets[at::WAITING]);
    let named_busy = sets::intersection(set, busy);
    if 1 < mark {
        return Err(CallRefusal::BadMark);
    }
    if named_busy != 0 {
        return Err(CallRefusal::BusyTask);
    }
    Ok(())
}
