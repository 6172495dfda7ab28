//! Packets that arrive late: their arrivals are put in order within a window, and then judged.
#![tactic(auto)]

mod done;
mod late;
mod laws;
mod near;
mod place;
mod restorer;
mod row;
mod run;
mod sorter;

pub use done::LateDone;
pub use laws::{
    late_deliveries_are_restored, numbers_are_near, one_order, sorters_put_in_order,
    whole_stores_owe_their_order, within_the_window_all_are_kept, worked_orders,
};
pub use near::NearCount;
pub use restorer::LateRestorer;
pub use sorter::Sorter;
