// The numbers that stand for what a unit does, as specs/Registers reads them.

// Kept as numbers, since C keeps these very codes in its arrays (link/gateway.h).

// The processor's half is 0 or 1; before the first interval it has none.
pub const NO_HALF: u8 = 2;

// The processor.
pub const IDLE: u8 = 0;

pub const COPYING_IN: u8 = 1;

pub const EXECUTING: u8 = 2;

pub const FINISHED: u8 = 3;

// The engine's copy-out. Where no interval is open, the job of `outtask` awaits it, or there is none.
pub const NO_COPYOUT: u8 = 0;

pub const COPYING_OUT: u8 = 1;

pub const COPIED_OUT: u8 = 2;

// The engine's copy-in.
pub const UNCHOSEN: u8 = 0;

pub const NONE_CHOSEN: u8 = 1;

pub const COPYING: u8 = 2;

pub const LOADED: u8 = 3;

pub const CANCELLED: u8 = 4;

pub const THROWN_OUT: u8 = 5;

pub const NO_INTERVAL: u8 = 6;

// The processor's work in the open interval, or, where none is open, in the next one.
pub const NO_WORK: u8 = 0;

pub const EXECUTE: u8 = 1;

pub const COPY_IN_AND_EXECUTE: u8 = 2;

// The fate that an entry has where no copy-in was done or gave way. Else it is the copy-in's number less
// two: 1 done, 2 cancelled, 3 thrown out.
pub const FATE_NONE: u8 = 0;

// No task: the first number that is none.
pub const NO_TASK: u8 = entries::limits::TASKS as u8;
