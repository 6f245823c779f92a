// From the task entries and a stored record, the release entries that made it.
#![tactic(auto)]

mod collecting;
mod listing;
mod order;
mod rebuilding;
mod replay;

pub use collecting::{Collected, Noted, collect};
pub use listing::read;
pub use order::sort;
pub use rebuilding::rebuild;
pub use replay::same;
