// The four lent tables (TAB). Nothing else indexes them. Calls pass them on as slices: with one struct of `&mut` slices
// each function would have to promise that the struct's references stay, and each read would need a wrapper over `&`.
pub(crate) mod circuits;
pub(crate) mod inflight;
pub(crate) mod ledger;
pub(crate) mod lookup;
pub mod places;
pub(crate) mod question;
pub mod record;
pub(crate) mod scan;
pub(crate) mod stores;
pub(crate) mod table;
