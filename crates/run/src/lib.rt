// A file checked, and the instants of its run.
#![tactic(auto)]

mod check;
mod instant;
mod putting;
mod releases;

pub use check::{check_behind, check_file};
pub use instant::advance;

// A run advanced by one instant: the instant's time, how many bytes of the releases were read, and how many bytes the instant leaves in
// the record. The last tick stands for no instant: the run has come to its end.
#[derive(Clone, Copy)]
pub struct Advanced {
    pub time: u64,
    pub read: usize,
    pub size: usize,
}
