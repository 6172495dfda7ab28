//! The code of counts, written to a pen and read by an eye.
#![tactic(auto)]

mod ahead;
mod count;
mod laws;
mod matching;
mod reading;
mod word;
mod writing;

pub use ahead::Ahead;
pub use count::Count;
pub use laws::{counts_are_completed, long_words, no_word_begins_another};
pub use matching::match_count;
pub use reading::{take_count, take_count_with};
pub use word::{CountWord, count_word};
pub use writing::{count_len, put_count, put_end};
