// What another crate can ask of the machine's records, by the traits of `tables::record`.
ghost use Rattle.std.specs.Prelude.{◌≡◌, ◌&&◌, leb, refl};
ghost use Rattle.hnsr_circuit.specs.declared.records.RelayCircuit.{RelayCircuit};

use crate::machine::{OPEN, OPEN_PACKET, OUT_WORDS, TICKET, config};
use crate::script::Peer;
use hnsr_circuit::answer::number;
use hnsr_circuit::calls::handle::handle;
use hnsr_circuit::calls::silent::new;
use hnsr_circuit::config::OpaqueRelayConfig;
use hnsr_circuit::records::{
    InflightAction, RelayCircuit, RelayPending, RelayTicket, ReservationUsage,
};
use hnsr_circuit::runtime::RelayPacket;
use hnsr_circuit::tables::record::{Numbered, Question, TableRecord, Timed, Worked};

// A question of this crate's own: whether a circuit has passed so many bytes.
#[derive(Clone, Copy)]
struct Passed {
    bytes: u64,
}

impl Question<RelayCircuit> for Passed {
    ghost holds = { λ question row. row.used && leb question.bytes row.forwarded_bytes };

    ghost of_used = { λ question row. refl };

    fn holds(&self, row: &RelayCircuit) -> bool {
        row.used && self.bytes <= row.forwarded_bytes
    }
}

// A used record loses its mark; of what stays a field is asked.
#[test]
fn marks(rt: HostRuntime) {
    let pending = RelayPending {
        used: true,
        circuit_id: 7,
        ..RelayPending::none()
    };
    assert!(rt; pending.is_used() && !pending.unmarked().is_used());
    assert_eq!(rt; pending.unmarked().circuit_id, 7);
    let circuit = RelayCircuit {
        used: true,
        forwarded_bytes: 20000,
        ..RelayCircuit::none()
    };
    assert!(rt; circuit.is_used() && !circuit.unmarked().is_used());
    assert_eq!(rt; circuit.unmarked().forwarded_bytes, 20000);
    let usage = ReservationUsage {
        used: true,
        expires_at: 900,
        ..ReservationUsage::none()
    };
    assert!(rt; usage.is_used() && !usage.unmarked().is_used());
    assert_eq!(rt; usage.unmarked().expires_at, 900);
    let action = InflightAction {
        used: true,
        circuit_id: 7,
        ..InflightAction::none()
    };
    assert!(rt; action.is_used() && !action.unmarked().is_used());
    assert_eq!(rt; action.unmarked().circuit_id, 7);
}

// What stands past the end of a table is unused, and its id and its time are 0.
#[test]
fn past_the_end(rt: HostRuntime) {
    let (pending, circuit) = (RelayPending::none(), RelayCircuit::none());
    let (usage, action) = (ReservationUsage::none(), InflightAction::none());
    assert!(rt; !pending.is_used() && !circuit.is_used());
    assert!(rt; !usage.is_used() && !action.is_used());
    assert_eq!(rt; pending.id(), 0);
    assert_eq!(rt; circuit.id(), 0);
    assert_eq!(rt; pending.due_at(), 0);
    assert_eq!(rt; circuit.due_at(), 0);
    assert_eq!(rt; usage.due_at(), 0);
}

// A pending record is due at its deadline, a circuit and a reservation's bytes at their expiry.
#[test]
fn ids_and_times(rt: HostRuntime) {
    let pending = RelayPending {
        circuit_id: 7,
        requester_context: 9,
        deadline: 110,
        ..RelayPending::none()
    };
    assert_eq!(rt; pending.id(), 7);
    assert_eq!(rt; pending.due_at(), 110);
    let circuit = RelayCircuit {
        circuit_id: 8,
        expires_at: 1000,
        ..RelayCircuit::none()
    };
    assert_eq!(rt; circuit.id(), 8);
    assert_eq!(rt; circuit.due_at(), 1000);
    let usage = ReservationUsage {
        bytes: 20000,
        expires_at: 900,
        ..ReservationUsage::none()
    };
    assert_eq!(rt; usage.due_at(), 900);
}

// The question of this crate's own holds of no unused circuit.
#[test]
fn a_question(rt: HostRuntime) {
    let question = Passed { bytes: 20000 };
    let circuit = RelayCircuit {
        used: true,
        forwarded_bytes: 20000,
        ..RelayCircuit::none()
    };
    assert!(rt; question.holds(&circuit));
    assert!(rt; !question.holds(&circuit.unmarked()));
    assert!(rt; !Passed { bytes: 20001 }.holds(&circuit));
}

// Another crate can name this trait; its step takes a question that the machine alone makes, for OPEN and ACCEPT.
fn used<R: Worked>(row: &R) -> bool
    ensures { result ≡ R.is_used row.now }
{
    row.is_used()
}

// The same OPEN again finds itself, where the reservation has room for two circuits.
#[test]
fn work(rt: HostRuntime) {
    assert!(rt; !used(&RelayPending::none()));
    assert!(rt; !used(&RelayCircuit::none()));
    let mut pending = [RelayPending::none(); 2];
    let mut circuits = [RelayCircuit::none(); 2];
    let mut ledger = [ReservationUsage::none(); 1];
    let mut inflight = [InflightAction::none(); 8];
    let mut out = [0; OUT_WORDS];
    let limits = config(OpaqueRelayConfig::MAX_CIRCUIT_QUEUE);
    let made = new(
        &pending, &circuits, &ledger, &inflight, [1; 16], 1, limits, 100,
    );
    let ticket = RelayTicket {
        max_active_circuits: 2,
        ..TICKET
    };
    let mut state = made.state;
    for want in [0, 10] {
        let opened = handle(
            &mut pending,
            &mut circuits,
            &mut ledger,
            &mut inflight,
            &mut out,
            state,
            RelayPacket {
                ticket,
                ..OPEN_PACKET
            },
            &[Peer::Requester as u8],
            &OPEN.to_bytes(),
            &[Peer::Endpoint as u8],
            &[0, 0, 0, 0, 0, 0, 0, 7],
        );
        assert_eq!(rt; number(opened.answer), want);
        state = opened.state;
    }
}
