// Output words, and the queueing of messages.
pub(crate) mod queue;
pub(crate) mod route;
