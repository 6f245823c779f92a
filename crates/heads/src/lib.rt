// The head of an input, the part before its releases, read: the table of tasks that its entries make, or the first refusal.
#![tactic(auto)]

ghost use Rattle.std.specs.Prelude.{◌≡◌};
ghost use Rattle.table.specs.Refusals.{number_found};
ghost use Rattle.table.specs.Head as heads;

use entries::{Entry, SPACING_SIZE, Spacing, TASK_SIZE, TaskParameters, limits};
use table::{COPYOUT, EXECUTION, Fault, Head, Refusal, SPACING, Table, no_table};

// No length of a phase.
#[tactic(auto, unfolding(table::specs::Head::outside))]
fn outside(x: u32) -> bool
    ensures { result ≡ heads.outside x }
{
    x == 0 || limits::LONGEST_PHASE < x
}

// 6, then 7.
#[tactic(auto, unfolding(table::specs::Head::mark_or_length_refusal))]
fn mark_or_length_refusal(p: TaskParameters) -> Result<(), Fault>
    ensures { number_found result ≡ heads.mark_or_length_refusal p }
{
    if 1 < p.mark {
        return Err(Fault::Mark);
    }
    if outside(p.copyin) || outside(p.execution) || outside(p.copyout) {
        return Err(Fault::Length);
    }
    Ok(())
}

// 4: it is no task number, or was given before.
#[tactic(auto, unfolding(table::specs::Head::number_refused))]
fn number_refused(present: u32, n: u8) -> bool
    ensures { result ≡ heads.number_refused present n }
{
    limits::TASKS <= usize::from(n) || sets::contains(present, n)
}

// 3 behind a spacing, then 4, 6, 7.
#[tactic(auto, unfolding(table::specs::Head::task_refusal))]
fn task_refusal(present: u32, spaced: u32, p: TaskParameters) -> Result<(), Fault>
    ensures { number_found result ≡ heads.task_refusal present spaced p }
{
    if spaced != 0 {
        return Err(Fault::OutOfPlace);
    }
    if number_refused(present, p.number) {
        return Err(Fault::TaskNumber);
    }
    mark_or_length_refusal(p)
}

#[tactic(auto, unfolding(table::specs::Head::with_marked))]
fn with_marked(marked: u32, p: TaskParameters) -> u32
    ensures { result ≡ heads.with_marked marked p }
{
    if p.mark == 1 {
        return sets::insert(marked, p.number);
    }
    marked
}

// 19: no spacing, too long a one, or a second one of the task.
#[tactic(auto, unfolding(table::specs::Head::ticks_refused))]
fn ticks_refused(spaced: u32, x: Spacing) -> bool
    ensures { result ≡ heads.ticks_refused spaced x }
{
    x.ticks == 0 || limits::LONGEST_SPACING < x.ticks || sets::contains(spaced, x.task)
}

// 8, then 19.
#[tactic(auto, unfolding(table::specs::Head::spacing_refusal))]
fn spacing_refusal(present: u32, spaced: u32, x: Spacing) -> Result<(), Fault>
    ensures { number_found result ≡ heads.spacing_refusal present spaced x }
{
    if !sets::contains(present, x.task) {
        return Err(Fault::UnknownTask);
    }
    if ticks_refused(spaced, x) {
        return Err(Fault::Spacing);
    }
    Ok(())
}

fn refused_at(n: u8, at: usize) -> Result<Head, Refusal>
    ensures { result ≡ heads.refused_at n at }
{
    Err(Refusal::AtEntry(n, at))
}

fn read_to(table: Table, marked: u32, at: usize) -> Result<Head, Refusal>
    ensures { result ≡ heads.read_to table marked at }
{
    Ok(Head {
        table,
        marked,
        end: at,
    })
}

// The head of an input, up to its end or the first release entry, which is left to whoever reads on. A
// further kind of entry is an arm more. The table is changed where it is: handed from function to function it is copied each time.
pub fn head_of(s: &[u8]) -> Result<Head, Refusal>
    ensures { result ≡ heads.head_of s.now }
{
    let mut t = no_table();
    let mut marked: u32 = 0;
    let mut at: usize = 0;
    // a cursor over entries of different lengths, left with a value: no iterator would be plainer
    'entries: loop {
        if s.len() <= at {
            break 'entries read_to(t, marked, at);
        }
        if entries::is_release(s, at) {
            break 'entries read_to(t, marked, at);
        }
        let entry = match entries::entry_at(s, at) {
            Ok(entry) => entry,
            Err(unreadable) => {
                break 'entries refused_at(unreadable.number(), at);
            }
        };
        match entry {
            Entry::ReleaseEntry(_) => {
                break 'entries refused_at(2, at);
            }
            Entry::TaskEntry(p) => {
                if let Err(fault) = task_refusal(t.present, t.spaced, p) {
                    break 'entries Err(fault.at(at));
                }
                let i = p.number as usize;
                t.present = sets::insert(t.present, p.number);
                t.priority[i] = p.priority;
                t.columns[i] = p.copyin;
                t.columns[EXECUTION + i] = p.execution;
                t.columns[COPYOUT + i] = p.copyout;
                marked = with_marked(marked, p);
                at += TASK_SIZE;
            }
            Entry::SpacingEntry(x) => {
                if let Err(fault) = spacing_refusal(t.present, t.spaced, x) {
                    break 'entries Err(fault.at(at));
                }
                t.spaced = sets::insert(t.spaced, x.task);
                t.columns[SPACING + x.task as usize] = x.ticks;
                at += SPACING_SIZE;
            }
        }
    }
}

// A head with nothing behind it, as at opening: 12 where there is no byte, and 2 for what stands behind it.
#[tactic(auto, unfolding(table::specs::Head::head_alone))]
pub fn head_alone(s: &[u8]) -> Result<Head, Refusal>
    ensures { result ≡ heads.head_alone s.now }
{
    if s.is_empty() {
        return Err(Refusal::Alone(12));
    }
    let head = head_of(s)?;
    if head.end != s.len() {
        return refused_at(2, head.end);
    }
    Ok(head)
}
