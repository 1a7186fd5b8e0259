// The compound runner: operations run and answered.
#![tactic(auto)]

mod check;
mod does;
mod edits;
mod handles;
mod pieces;
mod reads;
mod run;
mod served;
mod serving;
mod stateid;

pub use served::{Refused, Served};
pub use serving::serve;
