// The relay machine. Names and order of fields are the Rust's; a record of a table has its used mark and its key in
// front.
// Circuit and context ids are numbers whose highest byte is the first byte on the wire.
#![tactic(auto)]

pub mod answer;
pub mod calls;
pub mod config;
mod entry;
mod messages;
mod output;
pub mod peer;
pub mod records;
pub mod runtime;
pub mod tables;
