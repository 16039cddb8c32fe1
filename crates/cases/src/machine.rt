// A relay over lent tables, and the calls of the cases.
use crate::script::{Case, Opcode, Peer, Step};
use hnsr_body::accept_body::AcceptBody;
use hnsr_body::data_body::DataBody;
use hnsr_body::open_body::OpenBody;
use hnsr_body::values::ReservationId;
use hnsr_circuit::answer::HnsrAnswer;
use hnsr_circuit::calls::acknowledge::acknowledge;
use hnsr_circuit::calls::handle::handle;
use hnsr_circuit::calls::silent::new;
use hnsr_circuit::config::OpaqueRelayConfig;
use hnsr_circuit::peer::{HnsrPeerId, MAXIMUM_PEER};
use hnsr_circuit::records::{
    InflightAction, RelayCircuit, RelayPending, RelayTicket, ReservationUsage,
};
use hnsr_circuit::runtime::{RelayPacket, RelayState, Relayed};

// ---- what is lent

const NOBODY: HnsrPeerId = HnsrPeerId {
    len: 0,
    bytes: [0; MAXIMUM_PEER],
};

const NO_RESERVATION: ReservationId = ReservationId { high: 0, low: 0 };

const NO_TICKET: RelayTicket = RelayTicket {
    reservation_id: NO_RESERVATION,
    expires_at: 0,
    max_active_circuits: 0,
    max_bytes_per_circuit: 0,
    max_total_bytes: 0,
};

const NO_PENDING: RelayPending = RelayPending {
    used: false,
    circuit_id: 0,
    requester: NOBODY,
    endpoint: NOBODY,
    requester_context: 0,
    ticket: NO_TICKET,
    initial_window: 0,
    deadline: 0,
};

const NO_CIRCUIT: RelayCircuit = RelayCircuit {
    used: false,
    circuit_id: 0,
    requester: NOBODY,
    endpoint: NOBODY,
    reservation_id: NO_RESERVATION,
    expires_at: 0,
    maximum_bytes: 0,
    maximum_total_bytes: 0,
    requester_credit: 0,
    endpoint_credit: 0,
    forwarded_bytes: 0,
    queued_to_requester: 0,
    queued_to_endpoint: 0,
};

const NO_USAGE: ReservationUsage = ReservationUsage {
    used: false,
    reservation_id: NO_RESERVATION,
    bytes: 0,
    expires_at: 0,
};

const NO_ACTION: InflightAction = InflightAction {
    used: false,
    generation: 0,
    sequence: 0,
    circuit_id: 0,
    destination: NOBODY,
    kind: 0,
    to_endpoint: false,
    bytes: 0,
};

// As many words as `handle` needs (OUT.8).
pub(crate) const OUT_WORDS: usize = 4136;

// The tables and the output.
#[derive(Drop)]
pub(crate) struct Lent {
    pending: [RelayPending; 2],
    circuits: [RelayCircuit; 2],
    ledger: [ReservationUsage; 1],
    inflight: [InflightAction; 8],
    out: [u32; OUT_WORDS],
}

impl Lent {
    // Before the first `new` (NEW.4).
    pub(crate) const EMPTY: Self = Self {
        pending: [NO_PENDING; 2],
        circuits: [NO_CIRCUIT; 2],
        ledger: [NO_USAGE; 1],
        inflight: [NO_ACTION; 8],
        out: [0; OUT_WORDS],
    };
}

// ---- what the calls are given

const RESERVATION: ReservationId = ReservationId { high: 0, low: 5 };

// The grant of the OPEN.
pub(crate) const TICKET: RelayTicket = RelayTicket {
    reservation_id: RESERVATION,
    expires_at: 1000,
    max_active_circuits: 1,
    max_bytes_per_circuit: 20000,
    max_total_bytes: 30000,
};

pub(crate) const OPEN_PACKET: RelayPacket = RelayPacket {
    opcode: Opcode::Open as u8,
    context_id: 9,
    now: 100,
    key_valid: true,
    admitted: true,
    ticket: TICKET,
};

pub(crate) const OPEN: OpenBody = OpenBody {
    ticket_id: [1; 32],
    reservation_id: RESERVATION,
    endpoint_key: [2; 33],
    profile: 1,
    requester_nonce: [3; 16],
    initial_window: 32768,
};

const ACCEPT: AcceptBody = AcceptBody {
    accepted_window: 32768,
    endpoint_nonce: [4; 16],
};

// One byte more than a DATA may have.
const DATA: [u8; DataBody::MAX_SIZE + 1] = [65; DataBody::MAX_SIZE + 1];

pub(crate) fn config(maximum_queue_bytes: usize) -> OpaqueRelayConfig {
    OpaqueRelayConfig {
        maximum_pending: 2,
        maximum_circuits: 2,
        maximum_queue_bytes,
        maximum_inflight_actions: 8,
        maximum_inflight_actions_per_circuit: 8,
        maximum_inflight_actions_per_peer: 8,
        ..OpaqueRelayConfig::default()
    }
}

// ---- the calls, each given what the call before it handed back

impl Lent {
    // A new relay, whatever the tables hold.
    fn begin(&self, queue: usize) -> Relayed {
        new(
            &self.pending,
            &self.circuits,
            &self.ledger,
            &self.inflight,
            [1; 16],
            1,
            config(queue),
            100,
        )
    }

    fn open(&mut self, state: RelayState) -> Relayed {
        handle(
            &mut self.pending,
            &mut self.circuits,
            &mut self.ledger,
            &mut self.inflight,
            &mut self.out,
            state,
            OPEN_PACKET,
            &[Peer::Requester as u8],
            &OPEN.to_bytes(),
            &[Peer::Endpoint as u8],
            &[0, 0, 0, 0, 0, 0, 0, 7],
        )
    }

    // Any other packet, on the circuit.
    fn deliver(
        &mut self,
        state: RelayState,
        opcode: Opcode,
        peer: Peer,
        now: u64,
        body: &[u8],
    ) -> Relayed {
        let packet = RelayPacket {
            opcode: opcode as u8,
            context_id: 7,
            now,
            admitted: false,
            ticket: NO_TICKET,
            ..OPEN_PACKET
        };
        handle(
            &mut self.pending,
            &mut self.circuits,
            &mut self.ledger,
            &mut self.inflight,
            &mut self.out,
            state,
            packet,
            &[peer as u8],
            body,
            &[0],
            &[0],
        )
    }

    fn delivered(&mut self, state: RelayState, sequence: u64) -> Relayed {
        acknowledge(
            &mut self.pending,
            &mut self.circuits,
            &mut self.inflight,
            &mut self.out,
            state,
            1,
            sequence,
            true,
        )
    }

    fn step(&mut self, state: RelayState, step: Step) -> Relayed {
        match step {
            Step::Accept(now) => {
                let body = ACCEPT.to_bytes();
                self.deliver(state, Opcode::Accept, Peer::Endpoint, now, &body)
            }
            Step::Data(peer, now, size) => {
                let size = size.min(DATA.len());
                self.deliver(state, Opcode::Data, peer, now, &DATA[..size])
            }
            Step::Packet(opcode, peer, body) => self.deliver(state, opcode, peer, 100, body),
            // INCOMING was 1, OPENED 2.
            Step::Delivered => self.delivered(state, 3),
        }
    }

    // The answer of the last call (CASE.2).
    pub(crate) fn run(&mut self, case: Case) -> HnsrAnswer {
        let Case(queue, steps) = case;
        let made = self.begin(queue);
        let mut kept = self.open(made.state);
        for step in steps {
            kept = self.step(kept.state, *step);
        }
        kept.answer
    }
}
