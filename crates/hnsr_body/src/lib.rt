// The bodies of the circuit messages, and the text of their details. It knows no table. Port of hns-hnsr-protocol's
// body.rs and envelope.rs as far as the relay needs them.
#![tactic(auto)]

pub mod accept_body;
pub mod data_body;
pub mod detail_body;
pub mod envelope;
pub mod error;
mod fields;
pub mod incoming_body;
pub mod layout;
pub mod messages;
pub mod open_body;
pub mod utf8;
pub mod values;
