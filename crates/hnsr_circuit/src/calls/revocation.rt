// The end of a record, and revocation (REVOKE); a walk revokes what has a property, by ascending id, each record at its
// place (TAB.8).
ghost use Rattle.std.specs.Prelude.{◌≡◌, ℕ, Bool, false, List, refl, get_or, set};
ghost use Rattle.hnsr_circuit.specs.declared.calls.revocation.Closings.{Closings};
ghost use Rattle.hnsr_circuit.specs.declared.records.RelayPending.{RelayPending};
ghost use Rattle.hnsr_circuit.specs.declared.records.RelayCircuit.{RelayCircuit};
ghost use Rattle.hnsr_circuit.specs.declared.records.ReservationUsage.{ReservationUsage};
ghost use Rattle.hnsr_circuit.specs.declared.records.InflightAction.{InflightAction};
ghost use Rattle.hnsr_circuit.specs.declared.runtime.OpaqueRelayRuntime.{OpaqueRelayRuntime};
ghost use Rattle.hnsr_circuit.specs.declared.tables.places.Places.{Places};
ghost use Rattle.hnsr_circuit.specs.declared.tables.question.Revoking.{Revoking};
ghost use Rattle.hnsr_circuit.specs.Inflight.{action_under, dropped};
ghost use Rattle.hnsr_circuit.specs.Runtime.{count_revoked, with_counters};
ghost use Rattle.hnsr_circuit.specs.Table.{not_yet, next};
ghost use Rattle.hnsr_circuit.specs.World.{World, with_pending, with_circuits};
ghost use Rattle.hnsr_circuit.specs.Queue.{finished};
ghost use Rattle.hnsr_circuit.specs.Revocation.{walk, pending_table, circuit_table, revoke_circuit};
ghost use Rattle.hnsr_circuit.specs.Revocation.{end_pending_there, end_circuit_there};
ghost use Rattle.hnsr_circuit.specs.Code.Held.{held, held_pending, held_circuits, state_seen, handed_seen};
ghost use Rattle.hnsr_circuit.specs.Code.Held.{lent_seen, sending_seen};
ghost use Rattle.hnsr_circuit.specs.Code.Progress.{advance, ending};
ghost use Rattle.hnsr_circuit.specs.Code.Revoking.{notice_of, error_out, close_both, told, ended};
ghost use Rattle.hnsr_circuit.specs.Code.Revoking.{pending_closings, circuit_closings, walks_of, revoking_all};
ghost use Rattle.hnsr_circuit.specs.Code.Question.{pending_revoked, circuit_revoked};
ghost use Rattle.hnsr_circuit.specs.Laws.Records.{pending_revoked_used, circuit_revoked_used};
ghost use Rattle.hnsr_circuit.specs.Laws.Revocation.{pending_ends, circuit_ends};

use crate::messages::message::{closing, translated_on};
use crate::messages::opcode::{CLOSE, ERROR};
use crate::output::queue::{Outgoing, drop_and_tell, tell_notice};
use crate::records::circuits::{circuit_of, circuit_under};
use crate::records::pending::{pending_of, pending_under};
use crate::records::{InflightAction, RelayCircuit, RelayPending};
use crate::runtime::{RelayState, Relayed, Sending};
use crate::tables::lookup::look_up;
use crate::tables::places::Places;
use crate::tables::question::{ById, Revoking};
use crate::tables::record::{Numbered, Question, TableRecord};
use crate::tables::scan::Walked;
use crate::tables::table;
use crate::tables::table::{at, unmark};
use hnsr_body::messages::Notice;

// The walks of a revoking call: why records end, and the first that each walk takes, which the pass at entry finds.
#[derive(Clone, Copy)]
pub struct Walks {
    pub revoking: Revoking,
    pub pending: Option<Walked>,
    pub circuits: Option<Walked>,
}

// What is told of a record's end: to one peer, or to two, by one notice.
#[derive(Clone, Copy)]
pub struct Closings {
    pub notice: Notice,
    pub first: Outgoing,
    pub second: Option<Outgoing>,
}

// ---- what a revocation asks of a record

// A record of a table of the world that ends before its time.
pub trait Revocable: Numbered {
    ghost table: { World → List Self };

    ghost with_table: { World → List Self → World };

    ghost in_use: { Places → ℕ };

    ghost is_revoked: { Revoking → Self → Bool };

    ghost closings: { Revoking → Self → Closings };

    ghost without: { World → ℕ → World };

    // How many places of its table are in use.
    fn in_use(places: Places) -> usize
        ensures { result ≡ in_use places };

    fn is_revoked(&self, revoking: &Revoking) -> bool
        ensures { result ≡ is_revoked revoking.now self.now };

    fn closings(self, revoking: Revoking) -> Closings
        ensures { result ≡ closings revoking self };

    ghost of_used: { (v : Revoking) (row : Self) → is_revoked v (Self.unmarked row) ≡ false };

    ghost stands: { (h : OpaqueRelayRuntime) (n : Places) (w : World) (t : List Self) (i : List InflightAction)
        → table (lent_seen h n (with_table w t) i) ≡ held Self.unmarked (in_use n) t };

    ghost ends: { (h : OpaqueRelayRuntime) (n : Places) (w : World) (t t' : List Self) (i : List InflightAction)
        (place : ℕ)
        → held Self.unmarked (in_use n) t'
        ≡ set (held Self.unmarked (in_use n) t) place
        (Self.unmarked (get_or (held Self.unmarked (in_use n) t) place Self.none))
        → without (lent_seen h n (with_table w t) i) place
        ≡ lent_seen (with_counters h (count_revoked h.counters)) n (with_table w t')
        (dropped (action_under (Self.id (get_or (held Self.unmarked (in_use n) t) place Self.none))) i) };
}

impl<R: Revocable> Question<R> for Revoking {
    ghost holds = { R.is_revoked };

    ghost of_used = { R.of_used };

    fn holds(&self, row: &R) -> bool {
        row.is_revoked(self)
    }
}

impl Revoking {
    // The notice by which a record ends, given the one for a record that is over.
    fn notice(self, over: Notice) -> Notice
        ensures { result ≡ notice_of over self }
    {
        match self {
            Revoking::Disabled => Notice::RelayDisabled,
            Revoking::Disconnected(_) => Notice::PeerDisconnected,
            Revoking::Reservation(_) => Notice::ReservationRevoked,
            Revoking::Expired(_) => over,
        }
    }
}

// To the requester of a pending record under its own context.
pub(crate) fn error_to_requester(pending: RelayPending) -> Outgoing
    ensures { result ≡ error_out pending }
{
    closing(
        pending.requester,
        pending.circuit_id,
        ERROR,
        pending.requester_context,
    )
}

impl Revocable for RelayPending {
    ghost table = { pending_table };

    ghost with_table = { with_pending };

    ghost in_use = { λ n. n.pending };

    ghost is_revoked = { pending_revoked };

    ghost closings = { pending_closings };

    ghost without = { end_pending_there };

    ghost of_used = { pending_revoked_used };

    ghost stands = { λ h n w t i. refl };

    ghost ends = { pending_ends };

    fn in_use(places: Places) -> usize {
        places.pending
    }

    #[tactic(auto, unfolding(crate::specs::Code::Question::pending_revoked, crate::specs::Pending::pending_over))]
    fn is_revoked(&self, revoking: &Revoking) -> bool {
        match revoking {
            Revoking::Disabled => self.is_used(),
            Revoking::Disconnected(peer) => pending_of(self, peer),
            Revoking::Reservation(id) => pending_under(self, *id),
            Revoking::Expired(time) => {
                self.used && (self.deadline <= *time || self.ticket.expires_at <= *time)
            }
        }
    }

    // ERROR to the requester and CLOSE to the endpoint (REVOKE.3); where one is gone, CLOSE to the other (DISC.4).
    #[tactic(auto, unfolding(crate::specs::Code::Revoking::pending_closings))]
    fn closings(self, revoking: Revoking) -> Closings {
        let id = self.circuit_id;
        let notice = revoking.notice(Notice::AcceptanceExpired);
        let endpoint = closing(self.endpoint, id, CLOSE, id);
        let Revoking::Disconnected(peer) = revoking else {
            return Closings {
                notice,
                first: error_to_requester(self),
                second: Some(endpoint),
            };
        };
        Closings {
            notice,
            first: translated_on(CLOSE, self, peer),
            second: None,
        }
    }
}

// CLOSE to both sides of a circuit (REVOKE.2).
fn close_both(circuit: RelayCircuit, notice: Notice) -> Closings
    ensures { result ≡ close_both notice circuit }
{
    let id = circuit.circuit_id;
    Closings {
        notice,
        first: closing(circuit.requester, id, CLOSE, id),
        second: Some(closing(circuit.endpoint, id, CLOSE, id)),
    }
}

impl Revocable for RelayCircuit {
    ghost table = { circuit_table };

    ghost with_table = { with_circuits };

    ghost in_use = { λ n. n.circuits };

    ghost is_revoked = { circuit_revoked };

    ghost closings = { circuit_closings };

    ghost without = { end_circuit_there };

    ghost of_used = { circuit_revoked_used };

    ghost stands = { λ h n w t i. refl };

    ghost ends = { circuit_ends };

    fn in_use(places: Places) -> usize {
        places.circuits
    }

    #[tactic(auto, unfolding(crate::specs::Code::Question::circuit_revoked, crate::specs::Circuits::circuit_over))]
    fn is_revoked(&self, revoking: &Revoking) -> bool {
        match revoking {
            Revoking::Disabled => self.is_used(),
            Revoking::Disconnected(peer) => circuit_of(self, peer),
            Revoking::Reservation(id) => circuit_under(self, *id),
            Revoking::Expired(time) => self.used && self.expires_at <= *time,
        }
    }

    #[tactic(auto, unfolding(crate::specs::Code::Revoking::circuit_closings))]
    fn closings(self, revoking: Revoking) -> Closings {
        close_both(self, revoking.notice(Notice::TicketExpired))
    }
}

// ---- one record

// The record at a place ended: its mark cleared, the actions under its id dropped, its end counted and told.
pub(crate) fn end<R: Revocable>(
    rows: &mut [R],
    inflight: &mut [InflightAction],
    out: &mut [u32],
    sending: Sending,
    place: usize,
    closings: Closings,
) -> Sending
    ensures { (w : World)
        → sending_seen result (R.with_table w rows.new) inflight.new out.new
        ≡ advance (λ v. told closings (R.without v place))
        (sending_seen sending (R.with_table w rows.old) inflight.old out.old) }
{
    let state = sending.state;
    let number = R::in_use(state.places);
    let id = at(rows, number, place).id();
    let after = Sending {
        state: state.with_runtime(state.runtime.revoked()),
        ..sending
    };
    unmark(rows, number, place);
    let first = drop_and_tell(inflight, out, after, id, closings.first, closings.notice);
    match closings.second {
        Some(second) => tell_notice(inflight, out, first, second, closings.notice),
        None => first,
    }
}

// ---- walks

// Again and again the least id and place above the last that has the property, whose record is ended; at most as many
// turns as there are places.
pub(crate) fn walk<R: Revocable>(
    rows: &mut [R],
    inflight: &mut [InflightAction],
    out: &mut [u32],
    sending: Sending,
    revoking: Revoking,
    first: Option<Walked>,
) -> Sending
    requires { first
        ≡ next R.id (R.is_revoked revoking) not_yet
        (held R.unmarked (R.in_use sending.state.places) rows.old) }
    ensures { (w : World)
        → sending_seen result (R.with_table w rows.new) inflight.new out.new
        ≡ advance (walk R.id R.table (R.is_revoked revoking)
        (ended R.table R.none (R.closings revoking) R.without))
        (sending_seen sending (R.with_table w rows.old) inflight.old out.old) }
{
    let mut sent = sending;
    let mut next = first;
    for _ in 0..rows.len() {
        let Some(here) = next else {
            return sent;
        };
        let row = at(rows, R::in_use(sent.state.places), here.place);
        sent = end(
            rows,
            inflight,
            out,
            sent,
            here.place,
            row.closings(revoking),
        );
        next = table::next(rows, R::in_use(sent.state.places), &revoking, next);
    }
    sent
}

// ---- all that has the property (REVOKE.5)

pub(crate) fn revoke_all(
    pending: &mut [RelayPending],
    circuits: &mut [RelayCircuit],
    inflight: &mut [InflightAction],
    out: &mut [u32],
    state: RelayState,
    walks: Walks,
) -> Relayed
    requires { walks
        ≡ walks_of walks.revoking (held_pending state.places pending.old) (held_circuits state.places circuits.old) }
    ensures { (l : List ReservationUsage)
        → handed_seen result pending.new circuits.new l inflight.new out.new
        ≡ ending out.old
        (revoking_all walks.revoking
        (state_seen state pending.old circuits.old l inflight.old)) }
{
    let start = state.start();
    let revoking = walks.revoking;
    let sent = walk(pending, inflight, out, start, revoking, walks.pending);
    walk(circuits, inflight, out, sent, revoking, walks.circuits).finish()
}

// The circuit of an id alone, at the end of a call: none where there is none.
pub(crate) fn revoke_one(
    circuits: &mut [RelayCircuit],
    inflight: &mut [InflightAction],
    out: &mut [u32],
    state: RelayState,
    notice: Notice,
    id: u64,
) -> Relayed
    ensures { (p : List RelayPending) (l : List ReservationUsage)
        → handed_seen result p circuits.new l inflight.new out.new
        ≡ ending out.old
        (finished
        (revoke_circuit notice (state_seen state p circuits.old l inflight.old) id)) }
{
    let start = state.start();
    match look_up(circuits, state.places.circuits, &ById { id }) {
        Some(found) => {
            let closings = close_both(found.row, notice);
            end(circuits, inflight, out, start, found.place, closings).finish()
        }
        None => start.finish(),
    }
}
