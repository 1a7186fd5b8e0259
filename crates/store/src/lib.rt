// The store: the edits and what is read.
#![tactic(auto)]

mod bytes;
mod copy_bytes;
mod edit;
mod edits;
mod fill;
mod kinds;
mod plan;
mod planner;
mod read;
mod seek;
mod store;

pub use edit::{Act, Edit, NoSpace, Source};
// Over lent tables one by one: these ask less than the methods of `Store`, which keep it sound.
pub use edits::apply;
pub use read::read_bytes;
pub use seek::{hole_at, piece_end, seek_file};
pub use store::Store;
