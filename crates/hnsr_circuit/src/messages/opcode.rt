// The opcodes of the messages that the relay sends. Those that it handles stand in `calls::handle::dispatch` too: a
// pattern is a number.

pub(crate) const INCOMING: u8 = 14;

pub(crate) const OPENED: u8 = 16;

pub(crate) const CLOSE: u8 = 19;

pub(crate) const ERROR: u8 = 20;
