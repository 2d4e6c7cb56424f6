//! What a person is told of a run: why words are refused, why the run ended, and which edits did
//! nothing. And what a run ends as. Nothing here changes what a run writes.
#![tactic(auto)]

mod bad_boxes;
mod bad_edits;
mod beginnings;
mod counts;
mod ending;
mod late;
mod lines;
mod notes;
mod placed;
mod places;
mod ranges;
mod reasons;
mod report;
mod shared;

pub use bad_boxes::say_odd_boxes;
pub use beginnings::say_no_head;
pub use counts::is_wanted;
pub use ending::{Ending, Found, ending_of, order_status, tell_found};
pub use notes::say_boxes;
pub use places::Texts;
pub use ranges::Noted;
pub use reasons::{say_no_words, say_outside, say_reason};
pub use report::{Bare, write_report};
pub use shared::say_shared;
