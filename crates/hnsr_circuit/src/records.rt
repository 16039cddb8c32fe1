// The records of the four lent tables, by value; what is asked of each and what becomes of one has a file of its own.
// They lie as in C, in memory that is lent, so that a mark says whether a place is used: there is no heap for a map.
pub mod circuits;
pub(crate) mod inflight;
pub(crate) mod ledger;
pub mod pending;
pub(crate) mod runtime;

use crate::peer::HnsrPeerId;
use hnsr_body::values::ReservationId;

// Of the Rust's ticket the fields that the relay reads.
#[repr(C)]
#[derive(Clone, Copy)]
pub struct RelayTicket {
    pub reservation_id: ReservationId,
    pub expires_at: u64,
    pub max_active_circuits: u16,
    pub max_bytes_per_circuit: u64,
    pub max_total_bytes: u64,
}

#[repr(C)]
#[derive(Clone, Copy)]
pub struct RelayPending {
    pub used: bool,
    pub circuit_id: u64,
    pub requester: HnsrPeerId,
    pub endpoint: HnsrPeerId,
    pub requester_context: u64,
    pub ticket: RelayTicket,
    pub initial_window: u32,
    pub deadline: u64,
}

#[repr(C)]
#[derive(Clone, Copy)]
pub struct RelayCircuit {
    pub used: bool,
    pub circuit_id: u64,
    pub requester: HnsrPeerId,
    pub endpoint: HnsrPeerId,
    pub reservation_id: ReservationId,
    pub expires_at: u64,
    pub maximum_bytes: u64,
    pub maximum_total_bytes: u64,
    pub requester_credit: u32,
    pub endpoint_credit: u32,
    pub forwarded_bytes: u64,
    pub queued_to_requester: usize,
    pub queued_to_endpoint: usize,
}

// A side of a circuit or pending record.
#[derive(Clone, Copy)]
pub enum RelaySide {
    Requester,
    Endpoint,
}

#[repr(C)]
#[derive(Clone, Copy)]
pub struct ReservationUsage {
    pub used: bool,
    pub reservation_id: ReservationId,
    pub bytes: u64,
    pub expires_at: u64,
}

// kind: 0 Incoming, 1 Opened, 2 Data, 3 Control, anything else Close. to_endpoint and bytes are of Data.
#[repr(C)]
#[derive(Clone, Copy)]
pub struct InflightAction {
    pub used: bool,
    pub generation: u64,
    pub sequence: u64,
    pub circuit_id: u64,
    pub destination: HnsrPeerId,
    pub kind: u8,
    pub to_endpoint: bool,
    pub bytes: usize,
}

// What an action is for. Stored it is a number (`kind`).
#[derive(Clone, Copy)]
pub enum InflightKind {
    Incoming = 0,
    Opened = 1,
    Data = 2,
    Control = 3,
    Close = 4,
}
