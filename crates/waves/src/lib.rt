// A file's run as a value change dump.
#![tactic(auto)]

mod printing;
mod writing;

pub use writing::{HEADER, ROOM, header, put_instant, write};

// What a viewer shows: the task on the processor, the tasks being copied in and out by the engine, and the processor's half; 255 is nobody.
// Kept: numbers, 255 among them, as the wires show them. Tried, and the proof did not close: a struct for the half with its bound as an
// invariant, in place of the clauses; what holds one and is copied cannot be handed on by value twice.
#[derive(Clone, Copy, PartialEq, Eq)]
pub struct Shown {
    pub processor: u8,
    pub copyin: u8,
    pub copyout: u8,
    pub half: u8,
}
