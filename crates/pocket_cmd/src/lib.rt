//! The command of `pocket`: its words, its runs over a desk, its refusals with their texts and exit numbers.
#![tactic(auto)]

mod command;
mod job;
mod laws;
mod mask;
mod rehearsal;
mod run;
mod status;
mod summary;
mod text;
mod told;
mod top;
mod verbs;
mod words;
mod work;

pub use laws::{
    commands_are_given, commands_compose, done_commands_wrote_all, forecasts_owe_their_text,
    late_stores_owe_their_order, streams_are_restored_apart, tables_owe_their_texts,
    trials_owe_their_summary,
};
pub use packet_store::StoreKind;
pub use rehearsal::rehearse;
pub use side_tables::MOST_TEXT_BYTES;
pub use status::{Refusal, Status, exit_code};
pub use told::refusal_row;
pub use top::pocket;
pub use trial_chain::{Summary, run_trial};
pub use verbs::{KeyRow, Port, VERB_WORDS, ValueKind, Verb, row_of};
pub use words::text_of;
