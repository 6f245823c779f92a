// What goes on now, read off the numbers of a dispatcher.
#![tactic(auto)]

ghost use Rattle.std.specs.Prelude.{◌≡◌, ◌+◌, ◌≤◌, ◌<◌};
ghost use Rattle.rules.specs.View.{shown_half, viewed};
ghost use Rattle.dispatcher.specs.Dispatcher.{state_of};
ghost use Rattle.views.specs.Showing.{OnProcessor, ViewedAt, stored_if, ShowsNone, ShowsOpen, ShowsNow};

use dispatcher::Dispatcher;
use entries::NO_TASK;
use rules::{View, at, codes};

// The processor copies in or executes.
fn is_working(kind: u8) -> bool
    ensures { OnProcessor kind result }
{
    kind == codes::COPYING_IN || kind == codes::EXECUTING
}

// The processor's half as it is shown: 0 before the first interval.
pub fn half_shown(half: u8) -> u8
    ensures value { result ≡ shown_half half }
    ensures a_bit { result ≤ 1 }
{
    u8::from(half == 1)
}

// A phase under way, in the places of its unit, which have that of nobody before: the end in one array, the task one place further on in
// the other.
fn show_phase(
    under_way: bool,
    n: u8,
    until: u64,
    place: usize,
    ticks: &mut [u64; 4],
    units: &mut [u8; 6],
)
    requires { place < 4 }
    ensures ticks_after { ticks.new ≡ stored_if under_way place until ticks.old }
    ensures units_after { units.new ≡ stored_if under_way (place + 1) n units.old }
{
    if under_way {
        ticks[place] = until;
        units[place + 1] = n;
    }
}

fn show_none(codes: &at::Codes, ticks: &mut [u64; 4], units: &mut [u8; 6])
    ensures { ShowsNone codes.now ticks.new units.new }
{
    *units = [
        0,
        codes::NO_WORK,
        NO_TASK,
        NO_TASK,
        NO_TASK,
        half_shown(codes[at::HALF]),
    ];
    *ticks = [0, 0, 0, 0];
}

fn show_open<'a>(
    times: &'a at::Times,
    codes: &'a at::Codes,
    ticks: &mut [u64; 4],
    units: &mut [u8; 6],
)
    ensures { ShowsOpen times.now codes.now ticks.new units.new }
{
    let works = is_working(codes[at::PROCESSOR]);
    let copies_in = codes[at::COPYIN] == codes::COPYING;
    let copies_out = codes[at::COPYOUT] == codes::COPYING_OUT;
    *units = [
        1,
        codes[at::WORK],
        NO_TASK,
        NO_TASK,
        NO_TASK,
        half_shown(codes[at::HALF]),
    ];
    *ticks = [times[at::BEGIN], 0, 0, 0];
    show_phase(works, codes[at::TASK], times[at::UNTIL], 1, ticks, units);
    show_phase(
        copies_in,
        codes[at::INTASK],
        times[at::INUNTIL],
        2,
        ticks,
        units,
    );
    show_phase(
        copies_out,
        codes[at::OUTTASK],
        times[at::OUTUNTIL],
        3,
        ticks,
        units,
    );
}

// Begin and ends, and whether an interval is open, its work and the four values, into the arrays of one who looks: each number is stored
// when it is known. Made first and stored then, they are too many for the registers.
pub fn show<'a>(
    times: &'a at::Times,
    codes: &'a at::Codes,
    ticks: &mut [u64; 4],
    units: &mut [u8; 6],
)
    ensures { ShowsNow times.now codes.now ticks.new units.new }
{
    if codes[at::COPYIN] == codes::NO_INTERVAL {
        show_none(codes, ticks, units);
        return;
    }
    show_open(times, codes, ticks, units);
}

// All of it as one value.
pub fn viewed<'a>(times: &'a at::Times, sets: &'a at::Sets, codes: &'a at::Codes) -> View
    ensures { ViewedAt times.now sets.now codes.now result }
{
    let mut ticks = [0u64; 4];
    let mut units = [0u8; 6];
    show(times, codes, &mut ticks, &mut units);
    View {
        begin: ticks[0],
        until: ticks[1],
        inuntil: ticks[2],
        outuntil: ticks[3],
        pending: sets[at::PENDING],
        waiting: sets[at::WAITING],
        marked: sets[at::MARKED],
        opened: units[0],
        work: units[1],
        processor: units[2],
        copyin: units[3],
        copyout: units[4],
        half: units[5],
    }
}

// Of a dispatcher by value.
pub fn viewed_of(d: Dispatcher) -> View
    ensures { result ≡ viewed (state_of d) }
{
    viewed(&d.times, &d.sets, &d.codes)
}
