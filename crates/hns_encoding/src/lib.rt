// Little-endian fields, a cursor that hands itself back, bytes as 32-bit words. The lowest crate: it knows no message.
// Port of hns-encoding's lib.rs as far as the relay needs it.
#![tactic(auto)]

pub mod decoder;
pub mod encoder;
pub mod room;
pub mod words;

pub use decoder::{DecodeError, Decoder};
pub use encoder::{Encoder, NoRoom};
