//! Packets as numbers: the fields of a recording as a table, and the values out of their limits.
#![tactic(auto)]

mod cells;
mod fields;
mod grammar;
mod laws;
mod line;
mod name;
mod rows;
mod tabler;
mod tabling;
mod texts;
mod writing;

pub use cells::cell;
pub use fields::Fields;
pub use flight_chain::FlightFault as TableFault;
pub use grammar::FieldText;
pub use laws::{
    fronts_owe_fronts, numbers_are_sums, whole_recordings_owe_their_texts, worked_tables,
};
pub use name::Name;
pub use rows::{Column, FieldRow, Limit};
pub use side_tables::SideFault as FieldFault;
pub use tabler::Tabler;
