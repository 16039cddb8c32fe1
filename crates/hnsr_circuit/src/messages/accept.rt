// ACCEPT: its rows, and what it writes, by value.
ghost use Rattle.std.specs.Prelude.{◌≡◌};
ghost use Rattle.hnsr_circuit.specs.Accept.{accept_answer, circuit_for, opened_for};
ghost use Rattle.hnsr_circuit.specs.Code.Opening.{accept_entry, accept_rows, accept_work, replacing, opened_out};

use crate::answer::{HnsrAnswer, HnsrRuntimeError, check};
use crate::config::OpaqueRelayConfig;
use crate::messages::opcode::OPENED;
use crate::output::queue::Outgoing;
use crate::peer::HnsrPeerId;
use crate::records::inflight::capacity_answer;
use crate::records::pending::overdue;
use crate::records::{InflightKind, RelayCircuit, RelayPending};
use crate::tables::lookup::Found;
use crate::tables::scan::{ActionQuestion, InflightTally, Work, WorkQuestion};
use hnsr_body::accept_body::{AcceptBody, OpenedBody};
use hnsr_body::layout::Read;

// What is accepted, by the packet and its pending record alone. 13, 15, 11 (ACCEPT.1 to ACCEPT.3): nothing such is
// pending, or not for this peer, or no longer; 1: what the body refuses
#[tactic(auto, unfolding(crate::specs::Accept::request_answer))]
pub(crate) fn accept_entry(
    named: Option<Found<RelayPending>>,
    peer: HnsrPeerId,
    now: u64,
    read: Read<AcceptBody>,
) -> Result<Found<RelayPending>, HnsrRuntimeError>
    ensures { result ≡ accept_entry named peer now read }
{
    let found = named.ok_or(HnsrRuntimeError::UnknownRequest)?;
    check(found.row.endpoint != peer, HnsrRuntimeError::WrongPeer)?;
    check(overdue(now, found.row), HnsrRuntimeError::InvalidAdmission)?;
    read.result?;
    Ok(found)
}

// An ACCEPT of a pending record: the record, and what the body says.
#[derive(Clone, Copy)]
pub struct Acceptance {
    pub pending: RelayPending,
    pub body: AcceptBody,
}

impl Acceptance {
    // 10 (ACCEPT.5); the pending record is among the reservation's work (ACCEPT.12)
    #[tactic(auto, unfolding(crate::specs::Accept::accept_answer))]
    fn accept_answer(self, config: OpaqueRelayConfig, circuits: usize, under: usize) -> HnsrAnswer
        ensures { result ≡ accept_answer config self.pending self.body circuits under }
    {
        check(
            self.pending.initial_window < self.body.accepted_window
                || config.maximum_circuits <= circuits
                || usize::from(self.pending.ticket.max_active_circuits) < under,
            HnsrRuntimeError::Capacity,
        )
    }

    // The rows that ask all records. The reservation's work is its pending records and its circuits.
    #[tactic(auto, using(crate::specs::Laws::Opening::ltb_sum), unfolding(crate::specs::Accept::accept_answer))]
    pub(crate) fn accept_rows(
        self,
        config: OpaqueRelayConfig,
        waiting: Work,
        running: Work,
        tally: InflightTally,
    ) -> HnsrAnswer
        ensures { result ≡ accept_rows config self.pending self.body waiting running tally }
    {
        let under = waiting.under.saturating_add(running.under);
        self.accept_answer(config, running.used, under)?;
        capacity_answer(config, tally)
    }

    // What ACCEPT asks of all records: the work of the ticket's reservation.
    pub(crate) fn accept_work(self) -> WorkQuestion
        ensures { result ≡ accept_work self.pending }
    {
        WorkQuestion {
            peer: self.pending.requester,
            other: self.pending.requester,
            reservation: self.pending.ticket.reservation_id,
            context: 0,
            id: self.pending.circuit_id,
        }
    }

    // What ACCEPT asks of the actions before it drops its own.
    pub(crate) fn replacing(self, id: u64) -> ActionQuestion
        ensures { result ≡ replacing self.pending id }
    {
        ActionQuestion {
            replacing: true,
            circuit_id: id,
            peer: self.pending.requester,
            generation: 0,
            sequence: 0,
        }
    }

    // The circuit as it begins (ACCEPT.10).
    pub(crate) fn circuit_for(self, config: OpaqueRelayConfig) -> RelayCircuit
        ensures { result ≡ circuit_for config self.pending self.body }
    {
        let ticket = self.pending.ticket;
        RelayCircuit {
            used: true,
            circuit_id: self.pending.circuit_id,
            requester: self.pending.requester,
            endpoint: self.pending.endpoint,
            reservation_id: ticket.reservation_id,
            expires_at: ticket.expires_at,
            maximum_bytes: ticket
                .max_bytes_per_circuit
                .min(config.maximum_bytes_per_circuit),
            maximum_total_bytes: ticket.max_total_bytes,
            requester_credit: self.body.accepted_window,
            endpoint_credit: self.body.accepted_window,
            forwarded_bytes: 0,
            queued_to_requester: 0,
            queued_to_endpoint: 0,
        }
    }

    // OPENED: nonce and window are the ACCEPT's.
    pub(crate) fn opened_for(self) -> OpenedBody
        ensures { result ≡ opened_for self.pending self.body }
    {
        // an array is copied to a variable before a literal holds it
        let endpoint_nonce = self.body.endpoint_nonce;
        OpenedBody {
            circuit_id: self.pending.circuit_id,
            accepted_window: self.body.accepted_window,
            endpoint_nonce,
        }
    }

    // ACCEPT.11: under the context that the OPEN had.
    pub(crate) fn opened_out(self) -> Outgoing
        ensures { result ≡ opened_out self.pending }
    {
        let RelayPending {
            circuit_id,
            requester,
            requester_context,
            ..
        } = self.pending;
        Outgoing::new(
            requester,
            circuit_id,
            OPENED,
            requester_context,
            InflightKind::Opened,
        )
    }
}
