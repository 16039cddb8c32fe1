// The messages: of each its rows by value, and the way through the tables (`handle_..`).
pub(crate) mod accept;
pub(crate) mod data;
pub(crate) mod draw;
pub(crate) mod handle_accept;
pub(crate) mod handle_close;
pub(crate) mod handle_data;
pub(crate) mod handle_open;
pub(crate) mod handle_window;
pub(crate) mod message;
pub(crate) mod opcode;
pub(crate) mod open;
pub(crate) mod window;
