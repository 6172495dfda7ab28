//! Both ends of a link, call by call: a sender that makes the packet of each input, and a receiver that judges each packet
//! that arrives. Every argument is answered.
#![tactic(auto)]

mod fault;
mod laws;
mod receiver;
mod sender;

pub use fault::{LoadFault, OpenFault, ReceiveFault, SendFault};
pub use laws::{
    deliveries_are_received, loaded_receivers_go_on, loaded_senders_go_on,
    receivers_are_their_states, senders_are_their_states, sent_inputs_are_received,
    sent_packets_are_stored, vectors_are_their_bytes, verdicts_are_those_of_restoring,
};
pub use receiver::{RECEIVER_KIND, Receiver, receiver_state_room};
pub use sender::{SENDER_KIND, Sender, Sent, sender_state_room};
