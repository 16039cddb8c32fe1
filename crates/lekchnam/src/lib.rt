// What a host links: the readers and writers of bodies, the calls of the relay, and what the archive tells of itself,
// as C functions over structs, lent slices and numbers.
#![tactic(auto)]

pub mod body;
pub mod interface;
pub mod relay;
