// The table of tasks that the head of an input makes, and why an input is refused.
#![tactic(auto)]

ghost use Rattle.std.specs.Prelude.{◌≡◌, get_or, ◌+◌, ◌<◌, Some};
ghost use Rattle.table.specs.Table as table;
ghost use Rattle.table.specs.Refusals.{refusal_number, refusal_place, fault_number};
ghost use Rattle.table.specs.Types.{AtEntry};
ghost use Rattle.table.specs.Head as heads;

use entries::limits;

// Where the columns of the lengths of execution (C) and copy-out (U) begin, and that of the spacings (8/13); that of copy-in (L) is the
// first.
pub const EXECUTION: usize = limits::TASKS;

pub const COPYOUT: usize = 2 * limits::TASKS;

pub const SPACING: usize = 3 * limits::TASKS;

// What the table has for each task in 32 bits, a column behind the other. They are one array, so that whoever lends them lends one thing,
// and a further column changes no list of parameters.
pub type Columns = [u32; 4 * limits::TASKS];

// The tasks by number: which there are, which of them have a spacing, each one's priority, and the columns.
#[derive(Clone, Copy)]
pub struct Table {
    pub present: u32,
    pub spaced: u32,
    pub priority: [u8; limits::TASKS],
    pub columns: Columns,
}

// What is wrong with an entry of an input, by itself or where it stands.
#[derive(Clone, Copy, PartialEq, Eq)]
pub enum Fault {
    OutOfPlace,
    TaskNumber,
    Mark,
    Length,
    UnknownTask,
    NotRising,
    TooLate,
    TooMany,
    Spacing,
}

impl Fault {
    // Document 01's number.
    pub fn number(self) -> u8
        ensures { result ≡ fault_number self }
    {
        match self {
            Fault::OutOfPlace => 3,
            Fault::TaskNumber => 4,
            Fault::Mark => 6,
            Fault::Length => 7,
            Fault::UnknownTask => 8,
            Fault::NotRising => 9,
            Fault::TooLate => 10,
            Fault::TooMany => 11,
            Fault::Spacing => 19,
        }
    }

    // The refusal of the input whose entry at a place has it.
    pub fn at(self, place: usize) -> Refusal
        ensures { result ≡ AtEntry (fault_number self) place }
    {
        Refusal::AtEntry(self.number(), place)
    }
}

// Why an input is refused: a number alone, or a number and the place of the entry's kind byte.
#[derive(Clone, Copy, PartialEq, Eq)]
pub enum Refusal {
    Alone(u8),
    AtEntry(u8, usize),
}

impl Refusal {
    pub fn number(self) -> u8
        ensures { result ≡ refusal_number (Some self) }
    {
        match self {
            Refusal::Alone(n) => n,
            Refusal::AtEntry(n, _) => n,
        }
    }

    // 0 with a number alone.
    pub fn place(self) -> usize
        ensures { result ≡ refusal_place (Some self) }
    {
        match self {
            Refusal::Alone(_) => 0,
            Refusal::AtEntry(_, at) => at,
        }
    }
}

// The head of an input: the table, the set of marked tasks and the place behind it.
#[derive(Clone, Copy)]
pub struct Head {
    pub table: Table,
    pub marked: u32,
    pub end: usize,
}

// 0 where there is none.
pub fn number_of(refusal: Option<Refusal>) -> u8
    ensures { result ≡ refusal_number refusal }
{
    refusal.map_or(0, Refusal::number)
}

// 0 where there is none, and with a number alone.
pub fn place_of(refusal: Option<Refusal>) -> usize
    ensures { result ≡ refusal_place refusal }
{
    refusal.map_or(0, Refusal::place)
}

// The table with no task.
pub fn no_table() -> Table
    ensures { result ≡ heads.no_table }
{
    Table {
        present: 0,
        spaced: 0,
        priority: [0; limits::TASKS],
        columns: [0; 4 * limits::TASKS],
    }
}

// The number at a place of the columns, 0 past their end.
fn entry_of(columns: &[u32], column: usize, n: u8) -> u32
    requires { column < 256 }
    ensures { result ≡ get_or columns.now (column + n) 0 }
{
    columns.get(column + usize::from(n)).copied().unwrap_or(0)
}

// L, the length of a task's copy-in.
pub fn copyin_length(columns: &[u32], n: u8) -> u32
    ensures { result ≡ table.copyin_length columns.now n }
{
    entry_of(columns, 0, n)
}

// C, the length of its execution.
pub fn execution_length(columns: &[u32], n: u8) -> u32
    ensures { result ≡ table.execution_length columns.now n }
{
    entry_of(columns, EXECUTION, n)
}

// U, the length of its copy-out.
pub fn copyout_length(columns: &[u32], n: u8) -> u32
    ensures { result ≡ table.copyout_length columns.now n }
{
    entry_of(columns, COPYOUT, n)
}

// The spacing of its releases, where it has one.
pub fn spacing(columns: &[u32], n: u8) -> u32
    ensures { result ≡ table.spacing columns.now n }
{
    entry_of(columns, SPACING, n)
}
