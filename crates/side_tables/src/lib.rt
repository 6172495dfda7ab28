//! Side texts: tables that give flags, required robustness and copies to packets by their number, and lists of streams.
#![tactic(auto)]

mod claims;
mod columns;
mod decimal;
mod fault;
mod grammar;
mod laws;
mod lookup;
mod ranks;
mod rows;
mod schedule;
mod script;
mod span;
mod streams;
mod table;
mod text;

pub use decimal::{number, signed_number, wide_number};
pub use fault::{RowFault, SideFault};
pub use grammar::{ScheduleText, ScriptText, StreamText};
pub use laws::{robustness_of_texts, streams_of_texts};
pub use lookup::{CopyLookup, Lookup, Planned};
pub use rows::{CopyRow, FlagRow, RobustRow, RowGrammar, StreamRow, TableRow};
pub use schedule::Schedule;
pub use script::Script;
pub use span::Span;
pub use streams::Streams;
pub use table::Table;
pub use text::{MOST_TEXT_BYTES, read_rows, wrong_row};
