// The calls of a host. `silent` has those that send nothing.
pub mod acknowledge;
pub mod handle;
pub(crate) mod revocation;
pub mod revoking;
pub mod silent;
