// Circuits: a table's records, what is asked of one where it stands, what is asked of one by side, and what becomes of
// one.
ghost use Rattle.std.specs.Prelude.{refl, ◌≡◌, ◌+◌, ◌-◌, ◌<◌};
ghost use Rattle.hnsr_circuit.specs.Circuits.{no_circuit, clear_circuit, charged, raised, lowered, is_circuit};
ghost use Rattle.hnsr_circuit.specs.Circuits.{circuit_id, is_side, circuit_of, circuit_under};
ghost use Rattle.hnsr_circuit.specs.Circuits.{side_of, other_side, part_of, peer_at, credit_of, queued_to, queued_in};
ghost use Rattle.hnsr_circuit.specs.Packet.{receiver};
ghost use Rattle.hnsr_circuit.specs.NextDue.{expiry_of};
ghost use Rattle.hnsr_circuit.specs.Laws.Records.{circuit_unused, circuit_still};
ghost use Rattle.hnsr_circuit.specs.Code.Question.{circuit_work};
ghost use Rattle.hnsr_circuit.specs.Code.Turns.{circuit_worked};
ghost use Rattle.hnsr_circuit.specs.Laws.Turns.{circuit_work_lem};
ghost use Rattle.hnsr_circuit.specs.Laws.HeldTables.{circuit-idle};

use crate::peer::HnsrPeerId;
use crate::records::{RelayCircuit, RelaySide};
use crate::tables::record::{Numbered, TableRecord, Timed, Worked};
use crate::tables::scan::{Work, WorkQuestion, work_on};
use hnsr_body::values::ReservationId;

impl TableRecord for RelayCircuit {
    ghost is_used = { is_circuit };

    ghost unmarked = { clear_circuit };

    ghost none = { no_circuit };

    ghost unused = { circuit_unused };

    ghost still = { circuit_still };

    #[tactic(auto, unfolding(crate::specs::Circuits::is_circuit))]
    fn is_used(&self) -> bool {
        self.used
    }

    fn unmarked(self) -> RelayCircuit {
        RelayCircuit {
            used: false,
            ..self
        }
    }

    fn none() -> RelayCircuit {
        RelayCircuit {
            used: false,
            circuit_id: 0,
            requester: HnsrPeerId::NOBODY,
            endpoint: HnsrPeerId::NOBODY,
            reservation_id: ReservationId::NONE,
            expires_at: 0,
            maximum_bytes: 0,
            maximum_total_bytes: 0,
            requester_credit: 0,
            endpoint_credit: 0,
            forwarded_bytes: 0,
            queued_to_requester: 0,
            queued_to_endpoint: 0,
        }
    }
}

impl Numbered for RelayCircuit {
    ghost id = { circuit_id };

    fn id(&self) -> u64 {
        self.circuit_id
    }
}

impl Timed for RelayCircuit {
    ghost due_at = { expiry_of };

    fn due_at(&self) -> u64 {
        self.expires_at
    }
}

// A circuit repeats no OPEN.
impl Worked for RelayCircuit {
    ghost work = { circuit_work };

    ghost worked = { circuit_worked };

    ghost anywhere = { λ question w row place. refl };

    ghost folds = { circuit_work_lem };

    ghost idle = { circuit-idle };

    #[tactic(auto, unfolding(crate::specs::Circuits::is_circuit, crate::specs::Circuits::circuit_at))]
    fn worked(&self, so_far: Work, question: &WorkQuestion) -> Work {
        if self.used {
            let peer = circuit_of(self, &question.peer);
            let other = circuit_of(self, &question.other);
            let under = circuit_under(self, question.reservation);
            let is = self.circuit_id == question.id;
            return work_on(so_far, peer, other, under, false, is);
        }
        so_far
    }
}

// ---- questions: a line each over the record's own fields, which a trait of the four records would not make shorter

// The peer is a side of it.
#[tactic(auto, unfolding(crate::specs::Circuits::circuit_of))]
pub fn circuit_of(c: &RelayCircuit, peer: &HnsrPeerId) -> bool
    ensures { result ≡ circuit_of peer.now c.now }
{
    c.used && is_side(peer, c)
}

// It stores the reservation's id.
#[tactic(auto, unfolding(crate::specs::Circuits::circuit_under))]
pub(crate) fn circuit_under(c: &RelayCircuit, id: ReservationId) -> bool
    ensures { result ≡ circuit_under id c.now }
{
    c.used && c.reservation_id == id
}

// ---- sides, of a circuit that was found

pub(crate) fn is_side(peer: &HnsrPeerId, c: &RelayCircuit) -> bool
    ensures { result ≡ is_side peer.now c.now }
{
    c.requester == *peer || c.endpoint == *peer
}

// A peer that is both is the requester.
#[tactic(auto, unfolding(crate::specs::Circuits::side_of))]
pub(crate) fn side_of(peer: HnsrPeerId, c: RelayCircuit) -> RelaySide
    ensures { result ≡ side_of peer c }
{
    if c.requester == peer {
        return RelaySide::Requester;
    }
    RelaySide::Endpoint
}

impl RelaySide {
    pub(crate) fn other(self) -> RelaySide
        ensures { result ≡ other_side self }
    {
        match self {
            RelaySide::Requester => RelaySide::Endpoint,
            RelaySide::Endpoint => RelaySide::Requester,
        }
    }

    // The side's part of what both sides have: a peer, a credit, a queue.
    fn part<T: Copy>(self, requester: T, endpoint: T) -> T
        ensures { result ≡ part_of self requester endpoint }
    {
        match self {
            RelaySide::Requester => requester,
            RelaySide::Endpoint => endpoint,
        }
    }
}

pub(crate) fn peer_at(side: RelaySide, c: RelayCircuit) -> HnsrPeerId
    ensures { result ≡ peer_at side c }
{
    *side.part(&c.requester, &c.endpoint)
}

// The peer that a circuit's packet goes on to.
pub(crate) fn receiver(c: RelayCircuit, peer: HnsrPeerId) -> HnsrPeerId
    ensures { result ≡ receiver c peer }
{
    let side = side_of(peer, c);
    let other = side.other();
    peer_at(other, c)
}

// A side's credit, and below what is queued to it: a name for each, over fields of its own.
pub(crate) fn credit_of(side: RelaySide, circuit: RelayCircuit) -> u32
    ensures { result ≡ credit_of side circuit }
{
    side.part(circuit.requester_credit, circuit.endpoint_credit)
}

// The queue toward a side.
pub(crate) fn queued_to(side: RelaySide, circuit: RelayCircuit) -> usize
    ensures { result ≡ queued_to side circuit }
{
    side.part(circuit.queued_to_requester, circuit.queued_to_endpoint)
}

// Both queues of a used circuit, 0 of an unused one.
#[tactic(auto, unfolding(crate::specs::Circuits::queued_in))]
pub(crate) fn queued_in(c: &RelayCircuit) -> usize
    ensures { result ≡ queued_in c.now }
{
    if c.used {
        return c.queued_to_requester.saturating_add(c.queued_to_endpoint);
    }
    0
}

// ---- changes: each moves fields of its own, and WINDOW those of the other side

fn less_credit(credit: u32, n: usize) -> u32
    ensures { result ≡ credit - n }
{
    let left = (credit as usize).saturating_sub(n);
    left as u32
}

impl RelayCircuit {
    // DATA of n bytes from a side, as far as the circuit is charged (DATA.9).
    pub(crate) fn charge(&mut self, side: RelaySide, n: usize)
        ensures { self.new ≡ charged side n self.old }
    {
        self.forwarded_bytes = self.forwarded_bytes.saturating_add(n as u64);
        match side {
            RelaySide::Requester => {
                self.requester_credit = less_credit(self.requester_credit, n);
                self.queued_to_endpoint = self.queued_to_endpoint.saturating_add(n);
            }
            RelaySide::Endpoint => {
                self.endpoint_credit = less_credit(self.endpoint_credit, n);
                self.queued_to_requester = self.queued_to_requester.saturating_add(n);
            }
        }
    }

    // WINDOW.7: the side that did not send gets more. A sum that would not fit stops at its top.
    pub(crate) fn raise(&mut self, side: RelaySide, delta: u32)
        ensures { credit_of (other_side side) self.old + delta < 4294967296 → self.new ≡ raised side delta self.old }
    {
        match side {
            RelaySide::Requester => {
                self.endpoint_credit = self.endpoint_credit.saturating_add(delta);
            }
            RelaySide::Endpoint => {
                self.requester_credit = self.requester_credit.saturating_add(delta);
            }
        }
    }

    // An acknowledged Data lowers the queue that it stood in, toward the side that it went to.
    pub(crate) fn lower(&mut self, side: RelaySide, n: usize)
        ensures { self.new ≡ lowered side n self.old }
    {
        match side {
            RelaySide::Requester => {
                self.queued_to_requester = self.queued_to_requester.saturating_sub(n);
            }
            RelaySide::Endpoint => {
                self.queued_to_endpoint = self.queued_to_endpoint.saturating_sub(n);
            }
        }
    }
}
