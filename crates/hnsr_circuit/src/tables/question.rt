// The questions that are asked of the records of a table where they stand.
ghost use Rattle.hnsr_circuit.specs.Pending.{pending_at, named_by};
ghost use Rattle.hnsr_circuit.specs.Circuits.{circuit_at};
ghost use Rattle.hnsr_circuit.specs.Ledger.{usage_at, usage_over};
ghost use Rattle.hnsr_circuit.specs.Inflight.{action_at, action_toward};
ghost use Rattle.hnsr_circuit.specs.Laws.Records.{pending_at_used, named_by_used, circuit_at_used};
ghost use Rattle.hnsr_circuit.specs.Laws.Records.{usage_at_used, usage_over_used, action_at_used, action_toward_used};

use crate::peer::HnsrPeerId;
use crate::records::inflight::{action_is, action_toward};
use crate::records::ledger::usage_is;
use crate::records::{InflightAction, RelayCircuit, RelayPending, ReservationUsage};
use crate::tables::record::{Question, TableRecord};
use hnsr_body::values::ReservationId;

// Whether the record is used.
#[derive(Clone, Copy)]
pub struct InUse;

impl<R: TableRecord> Question<R> for InUse {
    ghost holds = { λ question row. R.is_used row };

    ghost of_used = { λ question row. R.unused row };

    fn holds(&self, row: &R) -> bool {
        row.is_used()
    }
}

// By id: a lookup reads ids and marks alone. One `impl` over `Numbered` would have a definition that is neither
// record's: theorems speak of `pending_at` and `circuit_at`.
#[derive(Clone, Copy)]
pub struct ById {
    pub id: u64,
}

impl Question<RelayPending> for ById {
    ghost holds = { λ question row. pending_at question.id row };

    ghost of_used = { λ question row. pending_at_used question.id row };

    #[tactic(auto, unfolding(crate::specs::Pending::pending_at))]
    fn holds(&self, row: &RelayPending) -> bool {
        row.used && row.circuit_id == self.id
    }
}

impl Question<RelayCircuit> for ById {
    ghost holds = { λ question row. circuit_at question.id row };

    ghost of_used = { λ question row. circuit_at_used question.id row };

    #[tactic(auto, unfolding(crate::specs::Circuits::circuit_at))]
    fn holds(&self, row: &RelayCircuit) -> bool {
        row.used && row.circuit_id == self.id
    }
}

// CLOSE.9: whether the peer names the pending record by the context. The requester's is its own, the endpoint's the
// circuit's id.
#[derive(Clone, Copy)]
pub struct NamedBy {
    pub peer: HnsrPeerId,
    pub context: u64,
}

impl Question<RelayPending> for NamedBy {
    ghost holds = { λ question row. named_by question.peer question.context row };

    ghost of_used = { λ question row. named_by_used question.peer question.context row };

    #[tactic(auto, unfolding(crate::specs::Pending::named_by))]
    fn holds(&self, row: &RelayPending) -> bool {
        row.used
            && ((row.requester_context == self.context && row.requester == self.peer)
                || (row.circuit_id == self.context && row.endpoint == self.peer))
    }
}

// By the reservation's id.
#[derive(Clone, Copy)]
pub struct ByReservation {
    pub id: ReservationId,
}

impl Question<ReservationUsage> for ByReservation {
    ghost holds = { λ question row. usage_at question.id row };

    ghost of_used = { λ question row. usage_at_used question.id row };

    fn holds(&self, row: &ReservationUsage) -> bool {
        usage_is(row, self.id)
    }
}

// Whether the ledger record is over at the time.
#[derive(Clone, Copy)]
pub struct Lapsed {
    pub time: u64,
}

impl Question<ReservationUsage> for Lapsed {
    ghost holds = { λ question row. usage_over question.time row };

    ghost of_used = { λ question row. usage_over_used question.time row };

    #[tactic(auto, unfolding(crate::specs::Ledger::usage_over))]
    fn holds(&self, row: &ReservationUsage) -> bool {
        row.used && row.expires_at <= self.time
    }
}

// By the action's number.
#[derive(Clone, Copy)]
pub struct ByNumber {
    pub generation: u64,
    pub sequence: u64,
}

impl Question<InflightAction> for ByNumber {
    ghost holds = { λ question row. action_at question.generation question.sequence row };

    ghost of_used = { λ question row. action_at_used question.generation question.sequence row };

    fn holds(&self, row: &InflightAction) -> bool {
        action_is(row, self.generation, self.sequence)
    }
}

// Whether the action goes to the peer.
#[derive(Clone, Copy)]
pub struct Toward {
    pub peer: HnsrPeerId,
}

impl Question<InflightAction> for Toward {
    ghost holds = { λ question row. action_toward question.peer row };

    ghost of_used = { λ question row. action_toward_used question.peer row };

    fn holds(&self, row: &InflightAction) -> bool {
        action_toward(row, &self.peer)
    }
}

// What a revoking call asks of each pending record and circuit, by why it revokes: whether the record is used, has the
// peer for a side, stores the reservation's id, is over at the time.
#[derive(Clone, Copy)]
pub enum Revoking {
    Disabled,
    Disconnected(HnsrPeerId),
    Reservation(ReservationId),
    Expired(u64),
}
