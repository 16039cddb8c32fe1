// What the archive tells of itself, for a host to compare before its first call: the number of its C interface, and a
// sample of every struct that passes, alone or in another. Each field of the sample has a number of its own, which
// fills the field: one that is elsewhere or of another width in the host's struct reads as another number. Of two
// `bool`s in a record one is true.
ghost use Rattle.std.specs.Prelude.{◌≡◌};
ghost use Rattle.lekchnam.specs.Interface.{interface_version, layout_sample};

use crate::relay::{DueReply, RelayReply, StatusReply};
use hnsr_body::accept_body::{AcceptBody, OpenedBody};
use hnsr_body::data_body::WindowBody;
use hnsr_body::detail_body::ReasonDetail;
use hnsr_body::error::Cause;
use hnsr_body::incoming_body::IncomingBody;
use hnsr_body::open_body::OpenBody;
use hnsr_body::values::ReservationId;
use hnsr_circuit::config::OpaqueRelayConfig;
use hnsr_circuit::peer::{HnsrPeerId, MAXIMUM_PEER};
use hnsr_circuit::records::{
    InflightAction, RelayCircuit, RelayPending, RelayTicket, ReservationUsage,
};
use hnsr_circuit::runtime::{HnsrRuntimeStatus, OpaqueRelayRuntime, RelayPacket, RuntimeCounters};
use hnsr_circuit::tables::places::Places;

// Raised with every change of a C function or of a struct that passes.
pub const VERSION: u32 = 3;

// One of each struct that passes; the answers of readers and writers are a cause and a body each.
#[repr(C)]
#[derive(Clone, Copy)]
pub struct Layout {
    pub pending: RelayPending,
    pub circuit: RelayCircuit,
    pub usage: ReservationUsage,
    pub action: InflightAction,
    pub packet: RelayPacket,
    pub reply: RelayReply,
    pub status_reply: StatusReply,
    pub due_reply: DueReply,
    pub open_body: OpenBody,
    pub incoming_body: IncomingBody,
    pub accept_body: AcceptBody,
    pub opened_body: OpenedBody,
    pub window_body: WindowBody,
    pub reason_detail: ReasonDetail,
}

// ---- what is lent and what goes with a packet

const PENDING: RelayPending = RelayPending {
    used: true,
    circuit_id: 0x8000_0000_0000_0002,
    requester: HnsrPeerId {
        len: 0x8000_0000_0000_0003,
        bytes: [0x84; MAXIMUM_PEER],
    },
    endpoint: HnsrPeerId {
        len: 0x8000_0000_0000_0005,
        bytes: [0x86; MAXIMUM_PEER],
    },
    requester_context: 0x8000_0000_0000_0007,
    ticket: RelayTicket {
        reservation_id: ReservationId {
            high: 0x8000_0000_0000_0008,
            low: 0x8000_0000_0000_0009,
        },
        expires_at: 0x8000_0000_0000_000a,
        max_active_circuits: 0x800b,
        max_bytes_per_circuit: 0x8000_0000_0000_000c,
        max_total_bytes: 0x8000_0000_0000_000d,
    },
    initial_window: 0x8000_000e,
    deadline: 0x8000_0000_0000_000f,
};

const CIRCUIT: RelayCircuit = RelayCircuit {
    used: true,
    circuit_id: 0x8000_0000_0000_0011,
    requester: HnsrPeerId {
        len: 0x8000_0000_0000_0012,
        bytes: [0x93; MAXIMUM_PEER],
    },
    endpoint: HnsrPeerId {
        len: 0x8000_0000_0000_0014,
        bytes: [0x95; MAXIMUM_PEER],
    },
    reservation_id: ReservationId {
        high: 0x8000_0000_0000_0016,
        low: 0x8000_0000_0000_0017,
    },
    expires_at: 0x8000_0000_0000_0018,
    maximum_bytes: 0x8000_0000_0000_0019,
    maximum_total_bytes: 0x8000_0000_0000_001a,
    requester_credit: 0x8000_001b,
    endpoint_credit: 0x8000_001c,
    forwarded_bytes: 0x8000_0000_0000_001d,
    queued_to_requester: 0x8000_0000_0000_001e,
    queued_to_endpoint: 0x8000_0000_0000_001f,
};

const USAGE: ReservationUsage = ReservationUsage {
    used: true,
    reservation_id: ReservationId {
        high: 0x8000_0000_0000_0021,
        low: 0x8000_0000_0000_0022,
    },
    bytes: 0x8000_0000_0000_0023,
    expires_at: 0x8000_0000_0000_0024,
};

const ACTION: InflightAction = InflightAction {
    used: true,
    generation: 0x8000_0000_0000_0026,
    sequence: 0x8000_0000_0000_0027,
    circuit_id: 0x8000_0000_0000_0028,
    destination: HnsrPeerId {
        len: 0x8000_0000_0000_0029,
        bytes: [0xaa; MAXIMUM_PEER],
    },
    kind: 0xab,
    to_endpoint: false,
    bytes: 0x8000_0000_0000_002d,
};

const PACKET: RelayPacket = RelayPacket {
    opcode: 0xae,
    context_id: 0x8000_0000_0000_002f,
    now: 0x8000_0000_0000_0030,
    key_valid: true,
    admitted: false,
    ticket: RelayTicket {
        reservation_id: ReservationId {
            high: 0x8000_0000_0000_0033,
            low: 0x8000_0000_0000_0034,
        },
        expires_at: 0x8000_0000_0000_0035,
        max_active_circuits: 0x8036,
        max_bytes_per_circuit: 0x8000_0000_0000_0037,
        max_total_bytes: 0x8000_0000_0000_0038,
    },
};

// ---- what comes back

const RUNTIME: OpaqueRelayRuntime = OpaqueRelayRuntime {
    session: [0xb9; 16],
    generation: 0x8000_0000_0000_003a,
    enabled: true,
    trusted_time_high_water: 0x8000_0000_0000_003c,
    config: OpaqueRelayConfig {
        maximum_pending: 0x8000_0000_0000_003d,
        maximum_circuits: 0x8000_0000_0000_003e,
        maximum_circuits_per_peer: 0x803f,
        maximum_queue_bytes: 0x8000_0000_0000_0040,
        maximum_inflight_actions: 0x8000_0000_0000_0041,
        maximum_inflight_actions_per_circuit: 0x8000_0000_0000_0042,
        maximum_inflight_actions_per_peer: 0x8000_0000_0000_0043,
        maximum_bytes_per_circuit: 0x8000_0000_0000_0044,
        accept_timeout_seconds: 0x8000_0000_0000_0045,
    },
    next_action_sequence: 0x8000_0000_0000_0046,
    counters: RuntimeCounters {
        admitted_opens: 0x8000_0000_0000_0047,
        opened_circuits: 0x8000_0000_0000_0048,
        bytes_sent: 0x8000_0000_0000_0049,
        bytes_received: 0x8000_0000_0000_004a,
        revoked_work: 0x8000_0000_0000_004b,
    },
};

const PLACES: Places = Places {
    pending: 0x8000_0000_0000_004c,
    circuits: 0x8000_0000_0000_004d,
    ledger: 0x8000_0000_0000_004e,
    actions: 0x8000_0000_0000_004f,
};

const REPLY: RelayReply = RelayReply {
    answer: 0x8000_0050,
    cause: Cause {
        kind: 0x8000_0051,
        first: 0x8000_0000_0000_0052,
        second: 0x8000_0000_0000_0053,
    },
    words: 0x8000_0000_0000_0054,
    runtime: RUNTIME,
    places: PLACES,
};

const STATUS_REPLY: StatusReply = StatusReply {
    answer: 0x8000_0055,
    status: HnsrRuntimeStatus {
        generation: 0x8000_0000_0000_0056,
        enabled: true,
        pending_circuits: 0x8000_0000_0000_0058,
        active_circuits: 0x8000_0000_0000_0059,
        queued_bytes: 0x8000_0000_0000_005a,
        queued_actions: 0x8000_0000_0000_005b,
        trusted_time_high_water: 0x8000_0000_0000_005c,
        admitted_opens: 0x8000_0000_0000_005d,
        opened_circuits: 0x8000_0000_0000_005e,
        bytes_sent: 0x8000_0000_0000_005f,
        bytes_received: 0x8000_0000_0000_0060,
        revoked_work: 0x8000_0000_0000_0061,
    },
    action_capacity: 0x8000_0000_0000_0079,
};

const DUE_REPLY: DueReply = DueReply {
    answer: 0x8000_0062,
    some: true,
    due: 0x8000_0000_0000_0064,
};

// ---- bodies

const OPEN_BODY: OpenBody = OpenBody {
    ticket_id: [0xe5; 32],
    reservation_id: ReservationId {
        high: 0x8000_0000_0000_0066,
        low: 0x8000_0000_0000_0067,
    },
    endpoint_key: [0xe8; 33],
    profile: 0x8069,
    requester_nonce: [0xea; 16],
    initial_window: 0x8000_006b,
};

const INCOMING_BODY: IncomingBody = IncomingBody {
    ticket_id: [0xec; 32],
    open_request_id: 0x8000_0000_0000_006d,
    profile: 0x806e,
    requester_nonce: [0xef; 16],
    initial_window: 0x8000_0070,
};

const ACCEPT_BODY: AcceptBody = AcceptBody {
    accepted_window: 0x8000_0071,
    endpoint_nonce: [0xf2; 16],
};

const OPENED_BODY: OpenedBody = OpenedBody {
    circuit_id: 0x8000_0000_0000_0073,
    accepted_window: 0x8000_0074,
    endpoint_nonce: [0xf5; 16],
};

const WINDOW_BODY: WindowBody = WindowBody {
    credit_delta: 0x8000_0076,
};

const REASON_DETAIL: ReasonDetail = ReasonDetail {
    reason: 0x8077,
    detail_length: 0x8000_0000_0000_0078,
};

// ---- what is told

#[unsafe(no_mangle)]
pub extern "C" fn lekchnam_version() -> u32
    ensures { result ≡ interface_version }
{
    VERSION
}

#[unsafe(no_mangle)]
pub extern "C" fn lekchnam_layout() -> Layout
    ensures { result ≡ layout_sample }
{
    Layout {
        pending: PENDING,
        circuit: CIRCUIT,
        usage: USAGE,
        action: ACTION,
        packet: PACKET,
        reply: REPLY,
        status_reply: STATUS_REPLY,
        due_reply: DUE_REPLY,
        open_body: OPEN_BODY,
        incoming_body: INCOMING_BODY,
        accept_body: ACCEPT_BODY,
        opened_body: OPENED_BODY,
        window_body: WINDOW_BODY,
        reason_detail: REASON_DETAIL,
    }
}
