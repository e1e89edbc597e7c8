// Lists of calls played on a chunk, and two chunks' figures compared: a file that is rebuilt from the same levels and
// values, with other pages, coders and sink, has the same figures.

#![tactic(auto)]

mod agreement;
mod both;
mod call;
mod replaying;

pub use agreement::{agree, has_same_figures};
pub use both::replay_both;
pub use call::{Answer, Call, Played, play};
pub use replaying::{Run, play_all, replay};
