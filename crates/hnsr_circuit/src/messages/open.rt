// OPEN: its rows, and what it writes, over numbers, tests and records by value.
ghost use Rattle.std.specs.Prelude.{◌≡◌};
ghost use Rattle.hnsr_circuit.specs.Open.{open_answer, admission_answer, endpoint_answer};
ghost use Rattle.hnsr_circuit.specs.Open.{deadline_answer, deadline_for, pending_for, incoming_for};
ghost use Rattle.hnsr_circuit.specs.Code.Opening.{open_rows, open_plan, placed_plan, placed_rows};
ghost use Rattle.hnsr_circuit.specs.Code.Opening.{opening_of, incoming_out, booked_in};

use crate::answer::{HnsrAnswer, HnsrRuntimeError, check};
use crate::config::OpaqueRelayConfig;
use crate::entry::peer_answer;
use crate::messages::opcode::INCOMING;
use crate::output::queue::Outgoing;
use crate::peer::HnsrPeerId;
use crate::records::inflight::capacity_answer;
use crate::records::ledger::{fresh_usage, ledger_answer};
use crate::records::{InflightKind, RelayPending, RelayTicket, ReservationUsage};
use crate::runtime::{RelayPacket, Request};
use crate::tables::lookup::Found;
use crate::tables::scan::{InflightTally, LedgerScan, Work};
use hnsr_body::error::HnsrProtocolError;
use hnsr_body::incoming_body::IncomingBody;
use hnsr_body::layout::Read;
use hnsr_body::open_body::OpenBody;

// 10 (OPEN.1): no more fit for the relay or for the requester, or it is pending already
#[tactic(auto, unfolding(crate::specs::Open::open_answer))]
pub(crate) fn open_answer(
    config: OpaqueRelayConfig,
    pending: usize,
    circuits: usize,
    work: usize,
    repeated: bool,
) -> HnsrAnswer
    ensures { result ≡ open_answer config pending circuits work repeated }
{
    let most = usize::from(config.maximum_circuits_per_peer);
    check(
        config.maximum_pending <= pending
            || config.maximum_circuits <= circuits
            || most <= work
            || repeated,
        HnsrRuntimeError::Capacity,
    )
}

// 1 (OPEN.3): the host does not admit it, or what it granted is over
#[tactic(auto, unfolding(crate::specs::Open::admission_answer))]
pub(crate) fn admission_answer(admitted: bool, expiry: u64, now: u64) -> HnsrAnswer
    ensures { result ≡ admission_answer admitted expiry now }
{
    check(
        !admitted || expiry <= now,
        HnsrRuntimeError::Protocol(HnsrProtocolError::Admission),
    )
}

// 10 (OPEN.5): it asks for its own peer, or endpoint or reservation take no more
#[tactic(auto, unfolding(crate::specs::Open::endpoint_answer))]
pub(crate) fn endpoint_answer(
    config: OpaqueRelayConfig,
    ticket: RelayTicket,
    same: bool,
    work: usize,
    under: usize,
) -> HnsrAnswer
    ensures { result ≡ endpoint_answer config ticket same work under }
{
    let most = usize::from(config.maximum_circuits_per_peer);
    let active = usize::from(ticket.max_active_circuits);
    check(
        same || most <= work || active <= under,
        HnsrRuntimeError::Capacity,
    )
}

// 12 (OPEN.8): the deadline does not fit 64 bits
#[tactic(auto, unfolding(crate::specs::Open::deadline_answer))]
pub(crate) fn deadline_answer(config: OpaqueRelayConfig, now: u64) -> HnsrAnswer
    ensures { result ≡ deadline_answer config now }
{
    check(
        now.checked_add(config.accept_timeout_seconds).is_none(),
        HnsrRuntimeError::Deadline,
    )
}

// OPEN.14: the deadline.
pub(crate) fn deadline_for(config: OpaqueRelayConfig, ticket: RelayTicket, now: u64) -> u64
    ensures { result ≡ deadline_for config ticket now }
{
    now.saturating_add(config.accept_timeout_seconds)
        .min(ticket.expires_at)
}

// What an OPEN comes with: the packet and its peer, the endpoint, the body, the work that there is, and the first draw,
// if it is no record's id.
#[derive(Clone, Copy)]
pub struct OpenGathered {
    pub request: Request,
    pub endpoint: HnsrPeerId,
    pub read: Read<OpenBody>,
    pub waiting: Work,
    pub running: Work,
    pub free: Option<u64>,
}

impl OpenGathered {
    // The rows of OPEN before the ledger is touched, in order. The requester's work is its pending records and its
    // circuits.
    #[tactic(auto, using(crate::specs::Laws::Opening::leb_sum), unfolding(crate::specs::Open::open_answer))]
    pub(crate) fn open_rows(self) -> HnsrAnswer
        ensures { result ≡ open_rows self }
    {
        let packet = self.request.packet;
        let work = self.waiting.of_peer.saturating_add(self.running.of_peer);
        open_answer(
            self.request.state.runtime.config,
            self.waiting.used,
            self.running.used,
            work,
            self.waiting.repeated,
        )?;
        self.read.result?;
        admission_answer(packet.admitted, packet.ticket.expires_at, packet.now)
    }

    fn open_plan(&self, id: u64) -> OpenPlan
        ensures { result ≡ open_plan self.now id }
    {
        let RelayPacket {
            context_id,
            ticket,
            now,
            ..
        } = self.request.packet;
        OpenPlan {
            requester: self.request.peer,
            context: context_id,
            body: self.read.body,
            endpoint: self.endpoint,
            ticket,
            id,
            deadline: deadline_for(self.request.state.runtime.config, ticket, now),
        }
    }

    // What is written and sent under the id that is drawn. 4, 10 and 8: the rows that ask nothing of actions and
    // ledger. The endpoint's work and the reservation's are their pending records and their circuits.
    #[tactic(auto, using(crate::specs::Laws::Opening::leb_sum), unfolding(crate::specs::Open::endpoint_answer))]
    pub(crate) fn placed_plan(self, drawn: Option<u64>) -> Result<OpenPlan, HnsrRuntimeError>
        ensures { result ≡ placed_plan self drawn }
    {
        peer_answer(self.endpoint.len)?;
        let config = self.request.state.runtime.config;
        let same = self.endpoint == self.request.peer;
        let work = self.waiting.of_other.saturating_add(self.running.of_other);
        let under = self.waiting.under.saturating_add(self.running.under);
        endpoint_answer(config, self.request.packet.ticket, same, work, under)?;
        let id = drawn.ok_or(HnsrRuntimeError::Randomness)?;
        Ok(self.open_plan(id))
    }
}

// What an OPEN writes and sends, once its grant is good.
#[derive(Clone, Copy)]
pub struct OpenPlan {
    pub requester: HnsrPeerId,
    pub context: u64,
    pub body: OpenBody,
    pub endpoint: HnsrPeerId,
    pub ticket: RelayTicket,
    pub id: u64,
    pub deadline: u64,
}

impl OpenPlan {
    pub(crate) fn pending_for(&self) -> RelayPending
        ensures { result ≡ pending_for (opening_of self.now) }
    {
        RelayPending {
            used: true,
            circuit_id: self.id,
            requester: self.requester,
            endpoint: self.endpoint,
            requester_context: self.context,
            ticket: self.ticket,
            initial_window: self.body.initial_window,
            deadline: self.deadline,
        }
    }

    // INCOMING: ticket, profile, nonce and window are the OPEN's.
    pub(crate) fn incoming_for(&self) -> IncomingBody
        ensures { result ≡ incoming_for (opening_of self.now) }
    {
        // an array is copied to a variable before a literal holds it
        let ticket_id = self.body.ticket_id;
        let requester_nonce = self.body.requester_nonce;
        IncomingBody {
            ticket_id,
            open_request_id: self.context,
            profile: self.body.profile,
            requester_nonce,
            initial_window: self.body.initial_window,
        }
    }

    pub(crate) fn incoming_out(&self) -> Outgoing
        ensures { result ≡ incoming_out self.now }
    {
        Outgoing::new(
            self.endpoint,
            self.id,
            INCOMING,
            self.id,
            InflightKind::Incoming,
        )
    }
}

// The rows of a placed OPEN, in order.
pub(crate) fn placed_rows(
    config: OpaqueRelayConfig,
    now: u64,
    tally: InflightTally,
    ledger: LedgerScan,
) -> HnsrAnswer
    ensures { result ≡ placed_rows config now tally ledger }
{
    capacity_answer(config, tally)?;
    deadline_answer(config, now)?;
    ledger_answer(ledger)
}

// The ledger record of a grant, and where it stands: the one that is found, else a fresh one at the lowest unused
// place.
pub(crate) fn booked(ledger: LedgerScan, ticket: RelayTicket) -> Found<ReservationUsage>
    ensures { result ≡ booked_in ledger ticket }
{
    ledger.found.unwrap_or(Found {
        place: ledger.spare.unwrap_or(ledger.places),
        row: fresh_usage(ticket),
    })
}
