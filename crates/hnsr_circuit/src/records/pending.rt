// Pending records: a table's records, and what is asked of one where it stands. An unused record answers no question
// but that it is unused.
ghost use Rattle.std.specs.Prelude.{refl, ◌≡◌};
ghost use Rattle.hnsr_circuit.specs.Pending.{no_pending, clear_pending, is_pending, pending_id};
ghost use Rattle.hnsr_circuit.specs.NextDue.{deadline_of};
ghost use Rattle.hnsr_circuit.specs.Laws.Records.{pending_unused, pending_still};
ghost use Rattle.hnsr_circuit.specs.Pending.{pending_of, pending_under, requested_by, overdue};
ghost use Rattle.hnsr_circuit.specs.Code.Question.{pending_work};
ghost use Rattle.hnsr_circuit.specs.Code.Turns.{pending_worked};
ghost use Rattle.hnsr_circuit.specs.Laws.Turns.{pending_work_lem};
ghost use Rattle.hnsr_circuit.specs.Laws.HeldTables.{pending-idle};

use crate::peer::HnsrPeerId;
use crate::records::{RelayPending, RelayTicket};
use crate::tables::record::{Numbered, TableRecord, Timed, Worked};
use crate::tables::scan::{Work, WorkQuestion, work_on};
use hnsr_body::values::ReservationId;

impl TableRecord for RelayPending {
    ghost is_used = { is_pending };

    ghost unmarked = { clear_pending };

    ghost none = { no_pending };

    ghost unused = { pending_unused };

    ghost still = { pending_still };

    #[tactic(auto, unfolding(crate::specs::Pending::is_pending))]
    fn is_used(&self) -> bool {
        self.used
    }

    fn unmarked(self) -> RelayPending {
        RelayPending {
            used: false,
            ..self
        }
    }

    fn none() -> RelayPending {
        let ticket = RelayTicket {
            reservation_id: ReservationId::NONE,
            expires_at: 0,
            max_active_circuits: 0,
            max_bytes_per_circuit: 0,
            max_total_bytes: 0,
        };
        RelayPending {
            used: false,
            circuit_id: 0,
            requester: HnsrPeerId::NOBODY,
            endpoint: HnsrPeerId::NOBODY,
            requester_context: 0,
            ticket,
            initial_window: 0,
            deadline: 0,
        }
    }
}

impl Numbered for RelayPending {
    ghost id = { pending_id };

    fn id(&self) -> u64 {
        self.circuit_id
    }
}

impl Timed for RelayPending {
    ghost due_at = { deadline_of };

    fn due_at(&self) -> u64 {
        self.deadline
    }
}

impl Worked for RelayPending {
    ghost work = { pending_work };

    ghost worked = { pending_worked };

    ghost anywhere = { λ question w row place. refl };

    ghost folds = { pending_work_lem };

    ghost idle = { pending-idle };

    #[tactic(auto, unfolding(crate::specs::Pending::is_pending, crate::specs::Pending::pending_at))]
    fn worked(&self, so_far: Work, question: &WorkQuestion) -> Work {
        if self.used {
            let peer = pending_of(self, &question.peer);
            let other = pending_of(self, &question.other);
            let under = pending_under(self, question.reservation);
            let again = requested_by(self, &question.peer, question.context);
            let is = self.circuit_id == question.id;
            return work_on(so_far, peer, other, under, again, is);
        }
        so_far
    }
}

// ---- questions: a line each over the record's own fields, as of a circuit

// The peer is a side of it.
#[tactic(auto, unfolding(crate::specs::Pending::pending_of))]
pub fn pending_of(p: &RelayPending, peer: &HnsrPeerId) -> bool
    ensures { result ≡ pending_of peer.now p.now }
{
    p.used && (p.requester == *peer || p.endpoint == *peer)
}

// It stores the reservation's id.
#[tactic(auto, unfolding(crate::specs::Pending::pending_under))]
pub(crate) fn pending_under(p: &RelayPending, id: ReservationId) -> bool
    ensures { result ≡ pending_under id p.now }
{
    p.used && p.ticket.reservation_id == id
}

// The same requester and context.
#[tactic(auto, unfolding(crate::specs::Pending::requested_by))]
fn requested_by(p: &RelayPending, peer: &HnsrPeerId, context: u64) -> bool
    ensures { result ≡ requested_by peer.now context p.now }
{
    p.used && p.requester_context == context && p.requester == *peer
}

// ACCEPT.3, EXPIRE.4: it is too late for it.
pub(crate) fn overdue(now: u64, p: RelayPending) -> bool
    ensures { result ≡ overdue now p }
{
    p.deadline <= now || p.ticket.expires_at <= now
}
