// The dispatcher by instants for programs in C and Rust. What they keep is the arrays of `dispatcher::Dispatcher` (link/gateway.h); a
// call lends them one by one and changes them where they are, so that nothing is copied. Whatever the numbers are, they are read as some
// state, and the promises are said of the states read before and after. It is a library of its own for the reason that exports_reading is
// one. The names carry the version of the layout, of what a dispatcher keeps and what an answer tells: where it changes they do, so that
// a program with the header of another layout is not linked.
// The lists of parameters are long, and the arrays stand apart, because the C interface lends them so.
#![tactic(auto)]

ghost use Rattle.std.specs.Prelude.{◌≡◌, get_or};
ghost use Rattle.sets.specs.Sets.{member};
ghost use Rattle.guarantees.specs.Figure.{longest_interval, completes_after};
ghost use Rattle.rules.specs.Kept.{kept, beside, by_task};
ghost use Rattle.dispatcher.specs.Dispatcher.{kept_of, beside_of};
ghost use Rattle.exports_instants.specs.Promises.{Answered, Committed, shown, Enquired, Shows, Marked, MarkedAll, OpenedAt};

use dispatcher::{Dispatcher, WORDS};
use rules::at;
use table::Columns;

// An instant of the dispatcher that the arrays keep: 0 and what occurred in `told`, or the number of the refusal. What every instant looks
// at comes first, in registers.
#[unsafe(no_mangle)]
pub extern "C" fn gateway_instant_v5<'a>(
    time: u64,
    set: u32,
    times: &mut at::Times,
    sets: &mut at::Sets,
    codes: &mut at::Codes,
    told: &mut [u64; WORDS],
    priority: &'a [u8; 32],
    columns: &'a Columns,
    release: &mut [u64; 32],
    blocked: &mut [u8; 32],
    waits: &mut [u64; 32],
    ticket: &mut u64,
) -> u8
    ensures { Answered
        (kept times.old sets.old codes.old)
        (beside priority.now columns.now (by_task release.old blocked.old waits.old))
        ticket.old time set told.old result
        (kept times.new sets.new codes.new)
        (beside priority.now columns.now (by_task release.new blocked.new waits.new))
        ticket.new told.new }
{
    if let Err(refusal) = dispatcher::refusal(time, set, times, sets, codes) {
        return refusal.number();
    }
    dispatcher::steps(
        time, set, times, sets, codes, priority, columns, release, blocked, waits, told,
    );
    let present = *ticket;
    let next = dispatcher::raised(present);
    *ticket = next;
    0
}

// 9/13: an instant by the ticket `given`: 20 where that is not the present one, else the instant's answer.
#[unsafe(no_mangle)]
pub extern "C" fn gateway_commit_v5<'a>(
    time: u64,
    set: u32,
    times: &mut at::Times,
    sets: &mut at::Sets,
    codes: &mut at::Codes,
    told: &mut [u64; WORDS],
    priority: &'a [u8; 32],
    columns: &'a Columns,
    release: &mut [u64; 32],
    blocked: &mut [u8; 32],
    waits: &mut [u64; 32],
    ticket: &mut u64,
    given: u64,
) -> u8
    ensures { Committed given
        (kept times.old sets.old codes.old)
        (beside priority.now columns.now (by_task release.old blocked.old waits.old))
        ticket.old time set told.old result
        (kept times.new sets.new codes.new)
        (beside priority.now columns.now (by_task release.new blocked.new waits.new))
        ticket.new told.new }
{
    let present = *ticket;
    if given != present {
        return 20;
    }
    gateway_instant_v5(
        time, set, times, sets, codes, told, priority, columns, release, blocked, waits, ticket,
    )
}

// 9/13: what an instant of the dispatcher that the arrays keep would do: 0, what would occur in `told`, what would go on then in `ticks`,
// `tasks` and `units` as `gateway_now` shows it, and in `given` the ticket by which it is committed; or the number of the refusal. The
// dispatcher is read and copied, and stays as it is.
#[unsafe(no_mangle)]
pub extern "C" fn gateway_enquire_v5<'a>(
    time: u64,
    set: u32,
    times: &'a at::Times,
    sets: &'a at::Sets,
    codes: &'a at::Codes,
    told: &mut [u64; WORDS],
    priority: &'a [u8; 32],
    columns: &'a Columns,
    release: &'a [u64; 32],
    blocked: &'a [u8; 32],
    waits: &'a [u64; 32],
    ticket: &'a u64,
    given: &mut u64,
    ticks: &mut [u64; 4],
    tasks: &mut [u32; 3],
    units: &mut [u8; 6],
) -> u8
    ensures { Enquired
        (kept times.now sets.now codes.now)
        (beside priority.now columns.now (by_task release.now blocked.now waits.now))
        ticket.now time set
        (shown told.old given.old ticks.old tasks.old units.old) result
        (shown told.new given.new ticks.new tasks.new units.new) }
{
    let present = *ticket;
    let mut next_times = *times;
    let mut next_sets = *sets;
    let mut next_codes = *codes;
    let mut next_release = *release;
    let mut next_blocked = *blocked;
    let mut next_waits = *waits;
    let mut next_ticket = present;
    let number = gateway_instant_v5(
        time,
        set,
        &mut next_times,
        &mut next_sets,
        &mut next_codes,
        told,
        priority,
        columns,
        &mut next_release,
        &mut next_blocked,
        &mut next_waits,
        &mut next_ticket,
    );
    if number != 0 {
        return number;
    }
    *given = present;
    gateway_now_v5(&next_times, &next_sets, &next_codes, ticks, tasks, units);
    0
}

// What goes on now in the dispatcher that the first three arrays keep: begin and ends; pending, waiting and marked; whether an interval
// is open, its work, and the four values.
#[unsafe(no_mangle)]
pub extern "C" fn gateway_now_v5<'a>(
    times: &'a at::Times,
    sets: &'a at::Sets,
    codes: &'a at::Codes,
    ticks: &mut [u64; 4],
    tasks: &mut [u32; 3],
    units: &mut [u8; 6],
)
    ensures { Shows times.now sets.now codes.now
        ticks.new tasks.new units.new }
{
    let sets_of = views::viewed(times, sets, codes);
    *tasks = [sets_of.pending, sets_of.waiting, sets_of.marked];
    views::show(times, codes, ticks, units);
}

// 7/13: M, the most that an interval of the dispatcher lasts whose sets and columns are lent.
#[unsafe(no_mangle)]
pub extern "C" fn gateway_longest_interval_v5(sets: &at::Sets, columns: &Columns) -> u64
    ensures { result ≡ longest_interval (get_or sets.now 4 0) columns.now }
{
    guarantees::longest_interval(columns, sets[at::PRESENT])
}

// 7/13: by how many ticks after its taking a job of the task is done, where h other jobs that are not lower execute between; by the mark
// that the task has now.
#[unsafe(no_mangle)]
pub extern "C" fn gateway_completes_after_v5(
    sets: &at::Sets,
    columns: &Columns,
    task: u8,
    h: u32,
) -> u64
    ensures { result ≡ completes_after (get_or sets.now 4 0) columns.now task
        (member task (get_or sets.now 0 0)) h }
{
    let marked = sets::contains(sets[at::MARKED], task);
    guarantees::completes_after(columns, sets[at::PRESENT], task, marked, h)
}

// A mark call on the dispatcher whose sets and ticket are lent: 0, or the number of the refusal.
#[unsafe(no_mangle)]
pub extern "C" fn gateway_mark_v5(sets: &mut at::Sets, ticket: &mut u64, task: u8, mark: u8) -> u8
    ensures { Marked sets.old ticket.old task mark result sets.new ticket.new }
{
    if let Err(refusal) = dispatcher::mark_refusal(task, mark, sets) {
        return refusal.number();
    }
    dispatcher::marked_all(sets::insert(0, task), mark, sets);
    let present = *ticket;
    let behind_mark = dispatcher::raised(present);
    *ticket = behind_mark;
    0
}

// 10/13: a mark call of a set of tasks on the dispatcher whose sets and ticket are lent: 0, or the number of the refusal.
#[unsafe(no_mangle)]
pub extern "C" fn gateway_marks_v5(sets: &mut at::Sets, ticket: &mut u64, set: u32, mark: u8) -> u8
    ensures { MarkedAll sets.old ticket.old set mark result sets.new ticket.new }
{
    if let Err(refusal) = dispatcher::marks_refusal(set, mark, sets) {
        return refusal.number();
    }
    dispatcher::marked_all(set, mark, sets);
    let present = *ticket;
    let behind_marks = dispatcher::raised(present);
    *ticket = behind_marks;
    0
}

// The numbers of a dispatcher into the arrays that keep them.
fn put_numbers(d: Dispatcher, times: &mut at::Times, sets: &mut at::Sets, codes: &mut at::Codes)
    ensures { kept times.new sets.new codes.new ≡ kept_of d }
{
    let kept_times = d.times;
    let kept_sets = d.sets;
    let kept_codes = d.codes;
    *times = kept_times;
    *sets = kept_sets;
    *codes = kept_codes;
}

// What stands beside them, task by task.
fn put_tasks(
    d: Dispatcher,
    priority: &mut [u8; 32],
    columns: &mut Columns,
    release: &mut [u64; 32],
    blocked: &mut [u8; 32],
    waits: &mut [u64; 32],
)
    ensures { beside priority.new columns.new
        (by_task release.new blocked.new waits.new) ≡ beside_of d }
{
    let kept_priority = d.priority;
    let kept_columns = d.columns;
    let kept_release = d.release;
    let kept_blocked = d.blocked;
    let kept_waits = d.waits;
    *priority = kept_priority;
    *columns = kept_columns;
    *release = kept_release;
    *blocked = kept_blocked;
    *waits = kept_waits;
}

// Opens a dispatcher from task entries into the arrays that keep it: 0, or the number of the refusal, whose place `place` then has.
#[unsafe(no_mangle)]
pub extern "C" fn gateway_open_v5(
    entries: &[u8],
    times: &mut at::Times,
    sets: &mut at::Sets,
    codes: &mut at::Codes,
    priority: &mut [u8; 32],
    columns: &mut Columns,
    release: &mut [u64; 32],
    blocked: &mut [u8; 32],
    waits: &mut [u64; 32],
    ticket: &mut u64,
    place: &mut usize,
) -> u8
    ensures { OpenedAt entries.now
        (kept times.old sets.old codes.old)
        (beside priority.old columns.old (by_task release.old blocked.old waits.old))
        ticket.old result place.new
        (kept times.new sets.new codes.new)
        (beside priority.new columns.new (by_task release.new blocked.new waits.new))
        ticket.new }
{
    match guarantees::open(entries) {
        Ok(state) => {
            *place = 0;
            *ticket = state.ticket;
            put_numbers(state, times, sets, codes);
            put_tasks(state, priority, columns, release, blocked, waits);
            0
        }
        Err(refusal) => {
            *place = refusal.place();
            refusal.number()
        }
    }
}
