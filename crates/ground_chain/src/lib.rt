//! The receiving end: from the packets that arrived to the restored packets and a report of those that can't be known.
#![tactic(auto)]

mod account;
mod arrivals;
mod deliveries;
mod digits;
mod judging;
mod laws;
mod lines;
mod lister;
mod listing;
mod receiving;
mod refusals;
mod report;
mod reporting;
mod restored;
mod restorer;
mod saved;
mod tallied;
mod unwrap;
mod verdict;

pub use account::Account;
pub use arrivals::Ground;
pub use deliveries::{
    histories_are_known, no_packet_is_refused, played_histories_are_restored,
    played_histories_arrive, rows_tell_of_listed_packets, unwritten_packets_are_reported,
    worked_deliveries, written_packets_are_restored,
};
pub use judging::Judging;
pub use laws::{
    contents_have_the_places, every_number_once, fronts_owe_fronts, numbers_are_the_next_ones,
    numbers_count_the_run, numbers_rise, one_exact_run, repeats_change_nothing,
    report_and_listing_agree, row_numbers_are_small, runs_grow, sound_runs_agree,
    whole_stores_owe_their_run, worked_runs,
};
pub use lister::Lister;
pub use packet_store::RunFault as RestoreFault;
pub use refusals::{
    commands_follow_the_exact_run, refused_means_lost, worked_refusals, wrong_bits_are_the_first,
};
pub use report::{HEADER, end_row, rows_of};
pub use reporting::Reporting;
pub use restored::Restored;
pub use restorer::Restorer;
pub use tallied::Tallied;
pub use unwrap::Unwrap;
pub use verdict::{Kind, Lost, Verdict};
