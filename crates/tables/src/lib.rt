// The store's tables: geometry, slot words and the table of holders; the survey, a file's room, an empty store, and one slot
// shown.
#![tactic(auto)]

mod counted;
mod files;
mod geometry;
mod groups;
mod lent;
mod make;
mod pool;
mod refusal;
mod sound;
mod space;
mod tally;
mod view;
mod words;

pub use counted::Survey;
pub use geometry::{Dimensions, Geometry};
pub use lent::{Lent, Seen, View};
pub use make::make_empty;
pub use pool::{fits_pool, lowest_free, takes_block};
pub use refusal::Refusal;
pub use sound::{judge_tables, survey};
pub use space::{Space, file_space};
pub use view::{Place, slot_place, slot_view};
pub use words::set_word;
