//! What no clause shows: worked examples over a desk in memory, of each command and of several in a row; words, texts, and
//! a desk that fails.

mod chain;
mod desk;
mod draws;
mod faults;
mod forecasts;
mod foreseen;
mod late;
mod listings;
mod long_chains;
mod mixed;
mod played;
mod reading;
mod recordings;
mod rehearsals;
mod rows;
mod samples;
mod short_chains;
mod shuffled;
mod sides;
mod stores;
mod streams;
mod tables;
mod texts;
mod trials;
mod words;
