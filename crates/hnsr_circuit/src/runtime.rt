// What a host keeps beside the tables, by value, what it hands over with a packet, and what calls hand back.
ghost use Rattle.std.specs.Prelude.{◌≡◌, Ok, Err};

use crate::answer::{HnsrAnswer, HnsrRuntimeError};
use crate::config::OpaqueRelayConfig;
use crate::peer::HnsrPeerId;
use crate::records::RelayTicket;
use crate::tables::places::Places;

// A packet but for its body, the clock, and what the host says of an OPEN: whether the key is valid, whether it is
// admitted, and its grant.
#[repr(C)]
#[derive(Clone, Copy)]
pub struct RelayPacket {
    pub opcode: u8,
    pub context_id: u64,
    pub now: u64,
    pub key_valid: bool,
    pub admitted: bool,
    pub ticket: RelayTicket,
}

#[repr(C)]
#[derive(Clone, Copy)]
pub struct RuntimeCounters {
    pub admitted_opens: u64,
    pub opened_circuits: u64,
    pub bytes_sent: u64,
    pub bytes_received: u64,
    pub revoked_work: u64,
}

#[repr(C)]
#[derive(Clone, Copy)]
pub struct OpaqueRelayRuntime {
    pub session: [u8; 16],
    pub generation: u64,
    pub enabled: bool,
    pub trusted_time_high_water: u64,
    pub config: OpaqueRelayConfig,
    pub next_action_sequence: u64,
    pub counters: RuntimeCounters,
}

#[repr(C)]
#[derive(Clone, Copy, Default)]
pub struct HnsrRuntimeStatus {
    pub generation: u64,
    pub enabled: bool,
    pub pending_circuits: usize,
    pub active_circuits: usize,
    pub queued_bytes: usize,
    pub queued_actions: usize,
    pub trusted_time_high_water: u64,
    pub admitted_opens: u64,
    pub opened_circuits: u64,
    pub bytes_sent: u64,
    pub bytes_received: u64,
    pub revoked_work: u64,
}

// What a host keeps by value from call to call: the runtime, and how many places of each table are in use.
#[derive(Clone, Copy)]
pub struct RelayState {
    pub runtime: OpaqueRelayRuntime,
    pub places: Places,
}

// A packet past entry and gate: the state with its clock moved, the packet, and the peer that sent it.
#[derive(Clone, Copy)]
pub struct Request {
    pub state: RelayState,
    pub packet: RelayPacket,
    pub peer: HnsrPeerId,
}

// What a call hands back: the state for the host to keep, the answer, and how many output words it wrote, none where it
// is refused. The state comes with a refusal too (the clock may have moved), so that the answer is a field.
#[derive(Clone, Copy)]
pub struct Relayed {
    pub state: RelayState,
    pub answer: HnsrAnswer,
    pub words: usize,
}

// A call under way: its state, and the output word that is next.
#[derive(Clone, Copy)]
pub struct Sending {
    pub state: RelayState,
    pub position: usize,
}

// What `status` tells. Beside the Rust's fields: how many further actions fit for the peer and the circuit that it was
// asked for.
#[derive(Clone, Copy)]
pub struct StatusTold {
    pub status: HnsrRuntimeStatus,
    pub action_capacity: usize,
}

impl RelayState {
    pub(crate) fn with_runtime(self, runtime: OpaqueRelayRuntime) -> Self
        ensures { (result.runtime ≡ runtime) × (result.places ≡ self.places) }
    {
        Self { runtime, ..self }
    }

    // A call begins.
    pub(crate) fn start(self) -> Sending
        ensures { (result.state ≡ self) × (result.position ≡ 0) }
    {
        Sending {
            state: self,
            position: 0,
        }
    }
}

impl Sending {
    // The call ends: it is taken.
    pub(crate) fn finish(self) -> Relayed
        ensures { (result.state ≡ self.state) × (result.answer ≡ Ok tt) × (result.words ≡ self.position) }
    {
        Relayed {
            state: self.state,
            answer: Ok(()),
            words: self.position,
        }
    }
}

// A call that writes nothing.
impl Relayed {
    pub(crate) fn refused(state: RelayState, error: HnsrRuntimeError) -> Self
        ensures { (result.state ≡ state) × (result.answer ≡ Err error) × (result.words ≡ 0) }
    {
        Self {
            state,
            answer: Err(error),
            words: 0,
        }
    }

    pub(crate) fn taken(state: RelayState) -> Self
        ensures { (result.state ≡ state) × (result.answer ≡ Ok tt) × (result.words ≡ 0) }
    {
        state.start().finish()
    }
}
