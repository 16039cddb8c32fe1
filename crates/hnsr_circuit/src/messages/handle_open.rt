// OPEN: a requester asks for a circuit. Three stages, as in specs/Open.antt: admitted, and ledger records past their
// expiry dropped; placed, and the missing ledger record made; written, and INCOMING sent.
ghost use Rattle.std.specs.Prelude.{◌≡◌, false, is_none, List, ℕ};
ghost use Rattle.hnsr_circuit.specs.Table.{any};
ghost use Rattle.hnsr_circuit.specs.Pending.{pending_at};
ghost use Rattle.hnsr_circuit.specs.Ledger.{usage_of};
ghost use Rattle.hnsr_circuit.specs.Code.Held.{held_pending, held_circuits, held_ledger};
ghost use Rattle.hnsr_circuit.specs.Code.Held.{held_actions, state_seen, world_given, handed_seen};
ghost use Rattle.hnsr_circuit.specs.Code.Turns.{actions_scanned};
ghost use Rattle.hnsr_circuit.specs.Draw.{draws, draw_all};
ghost use Rattle.hnsr_circuit.specs.Peer.{peer_of};
ghost use Rattle.hnsr_circuit.specs.Code.Progress.{packet_of, asking, ending};
ghost use Rattle.hnsr_circuit.specs.Open.{open_booked, open_lapsed, handle_open};
ghost use Rattle.hnsr_circuit.specs.Code.Opening.{is_taken, first_draw, gathering, opening_of};
ghost use Rattle.hnsr_circuit.specs.Code.Opening.{incoming_out, open_drawn};
ghost use Rattle.hnsr_circuit.specs.declared.records.RelayCircuit.{RelayCircuit};
ghost use Rattle.hnsr_circuit.specs.declared.records.ReservationUsage.{ReservationUsage};

use crate::messages::draw::{DRAW_BYTES, MOST_DRAWS, first_draw};
use crate::messages::open::{OpenGathered, OpenPlan, booked, placed_rows};
use crate::output::queue::{asking, send};
use crate::output::route::PacketBody;
use crate::peer::HnsrPeerId;
use crate::records::ledger::usage_answer;
use crate::records::{InflightAction, RelayCircuit, RelayPending, ReservationUsage};
use crate::runtime::{RelayState, Relayed, Request};
use crate::tables::inflight::scan_actions;
use crate::tables::ledger::{drop_lapsed, scan_ledger};
use crate::tables::places::Places;
use crate::tables::question::ById;
use crate::tables::scan::{ActionScan, WorkQuestion};
use crate::tables::table::{find, put, put_new, work};
use hnsr_body::open_body::OpenBody;

// Whether an id is a pending record's or a circuit's; of the first draw it is known.
pub(crate) fn id_taken(
    pending: &[RelayPending],
    circuits: &[RelayCircuit],
    places: Places,
    first: u64,
    known: bool,
    id: u64,
) -> bool
    requires { known ≡ is_taken (held_pending places pending.now) (held_circuits places circuits.now) first }
    ensures { result ≡ is_taken (held_pending places pending.now) (held_circuits places circuits.now) id }
{
    if id == first {
        return known;
    }
    find(pending, places.pending, &ById { id }).is_some()
        || find(circuits, places.circuits, &ById { id }).is_some()
}

// The draws in order, by eight bytes while so many are left, until one ends the drawing (DRAW.1 to DRAW.5). Whether the
// first is taken is known, and it is not looked up, however often it is drawn.
pub(crate) fn draw(
    pending: &[RelayPending],
    circuits: &[RelayCircuit],
    places: Places,
    random: &[u8],
    known: bool,
) -> Option<u64>
    requires { known ≡ is_taken (held_pending places pending.now) (held_circuits places circuits.now)
        (first_draw random.now) }
    ensures { result ≡ draw_all (is_taken (held_pending places pending.now) (held_circuits places circuits.now))
        0 0 (draws random.now) }
{
    let first = first_draw(random);
    let mut zeros: u8 = 0;
    let mut candidates: u8 = 0;
    let (chunks, _) = random.as_chunks::<DRAW_BYTES>();
    for bytes in chunks {
        let id = u64::from_be_bytes(*bytes);
        if id == 0 {
            zeros += 1;
            if MOST_DRAWS <= zeros {
                return None;
            }
        } else if id_taken(pending, circuits, places, first, known, id) {
            zeros = 0;
            candidates += 1;
            if MOST_DRAWS <= candidates {
                return None;
            }
        } else {
            return Some(id);
        }
    }
    None
}

// What an OPEN comes with.
pub(crate) fn gather(
    pending: &[RelayPending],
    circuits: &[RelayCircuit],
    request: Request,
    body: &[u8],
    endpoint: &[u8],
    random: &[u8],
) -> OpenGathered
    ensures { result ≡ gathering request body.now endpoint.now random.now
        (held_pending request.state.places pending.now)
        (held_circuits request.state.places circuits.now) }
{
    let other = HnsrPeerId::new(endpoint);
    let read = OpenBody::decode(body, request.packet.key_valid);
    let id = first_draw(random);
    // the work of both peers and of the reservation, whether it repeats one, and whether its first draw is an id
    let question = WorkQuestion {
        peer: request.peer,
        other,
        reservation: read.body.reservation_id,
        context: request.packet.context_id,
        id,
    };
    let waiting = work(pending, request.state.places.pending, &question);
    let running = work(circuits, request.state.places.circuits, &question);
    OpenGathered {
        request,
        endpoint: other,
        read,
        waiting,
        running,
        free: (!waiting.holds && !running.holds).then_some(id),
    }
}

// The last stage: the ledger record stands; the pending record is written, under an id that no record has, and INCOMING
// sent.
#[tactic(auto, using(crate::specs::Laws::Opening::booked_refused))]
pub(crate) fn open_booked(
    pending: &mut [RelayPending],
    inflight: &mut [InflightAction],
    out: &mut [u32],
    state: RelayState,
    plan: OpenPlan,
    usage: ReservationUsage,
    scan: ActionScan,
) -> Relayed
    requires { scan ≡ actions_scanned (asking state.runtime (incoming_out plan))
        (held_actions state.places inflight.old) }
    ensures { (c : List RelayCircuit) (l : List ReservationUsage)
        → usage ≡ usage_of plan.ticket.reservation_id (held_ledger state.places l)
        → any (pending_at plan.id) (held_pending state.places pending.old) ≡ false
        → handed_seen result pending.new c l inflight.new out.new
        ≡ ending out.old
        (open_booked (state_seen state pending.old c l inflight.old) (opening_of plan)) }
{
    match usage_answer(plan.ticket, usage) {
        Ok(()) => {
            let number = put_new(pending, state.places.pending, plan.pending_for());
            let opened = RelayState {
                runtime: state.runtime.opened(),
                places: Places {
                    pending: number,
                    ..state.places
                },
            };
            let incoming = PacketBody {
                bytes: &plan.incoming_for().to_bytes(),
            };
            send(inflight, out, opened, plan.incoming_out(), scan, incoming)
        }
        Err(error) => Relayed::refused(state, error),
    }
}

// The second stage, past the rows that ask nothing of actions and ledger: the ledger record that is found stays as it
// is, a missing one is made.
#[tactic(auto, using(crate::specs::Laws::Opening::placed_refused, crate::specs::Laws::Opening::booked_upto))]
pub(crate) fn open_placed(
    pending: &mut [RelayPending],
    ledger: &mut [ReservationUsage],
    inflight: &mut [InflightAction],
    out: &mut [u32],
    state: RelayState,
    now: u64,
    plan: OpenPlan,
) -> Relayed
    ensures { (c : List RelayCircuit) → any (pending_at plan.id) (held_pending state.places pending.old) ≡ false
        → handed_seen result pending.new c ledger.new inflight.new out.new
        ≡ ending out.old
        (open_drawn (state_seen state pending.old c ledger.old inflight.old) now (opening_of plan)) }
{
    let RelayState { runtime, places } = state;
    let scan = scan_actions(inflight, places, asking(runtime, plan.incoming_out()));
    let asked = scan_ledger(ledger, places, plan.ticket.reservation_id);
    match placed_rows(runtime.config, now, scan.tally, asked) {
        Ok(()) => {
            let usage = booked(asked, plan.ticket);
            let number = put(ledger, places.ledger, usage.place, usage.row);
            let after = RelayState {
                runtime,
                places: Places {
                    ledger: number,
                    ..places
                },
            };
            open_booked(pending, inflight, out, after, plan, usage.row, scan)
        }
        Err(error) => Relayed::refused(state, error),
    }
}

// The second stage: ledger records past their expiry are dropped.
pub(crate) fn open_lapsed(
    pending: &mut [RelayPending],
    circuits: &[RelayCircuit],
    ledger: &mut [ReservationUsage],
    inflight: &mut [InflightAction],
    out: &mut [u32],
    gathered: OpenGathered,
    random: &[u8],
) -> Relayed
    requires { is_none gathered.free
        ≡ is_taken (held_pending gathered.request.state.places pending.old)
        (held_circuits gathered.request.state.places circuits.now) (first_draw random.now) }
    ensures { (source body endpoint : List ℕ) → gathered.request.peer ≡ peer_of source
        → gathered ≡ gathering gathered.request body endpoint random.now
        (held_pending gathered.request.state.places pending.old)
        (held_circuits gathered.request.state.places circuits.now)
        → handed_seen result pending.new circuits.now ledger.new inflight.new out.new
        ≡ ending out.old
        (open_lapsed (world_given gathered.request pending.old circuits.now ledger.old inflight.old)
        (packet_of gathered.request.packet source body endpoint random.now)) }
{
    let Request { state, packet, .. } = gathered.request;
    let known = gathered.free.is_none();
    let drawn = draw(pending, circuits, state.places, random, known);
    match gathered.placed_plan(drawn) {
        Ok(plan) => open_placed(pending, ledger, inflight, out, state, packet.now, plan),
        Err(error) => Relayed::refused(state, error),
    }
}

// What the tables as lent refuse costs no pass over ledger and actions.
pub(crate) fn handle_open(
    pending: &mut [RelayPending],
    circuits: &mut [RelayCircuit],
    ledger: &mut [ReservationUsage],
    inflight: &mut [InflightAction],
    out: &mut [u32],
    request: Request,
    body: &[u8],
    endpoint: &[u8],
    random: &[u8],
) -> Relayed
    ensures { (source : List ℕ) → request.peer ≡ peer_of source
        → handed_seen result pending.new circuits.new ledger.new inflight.new
        out.new
        ≡ ending out.old
        (handle_open (world_given request pending.old circuits.old ledger.old
        inflight.old)
        (packet_of request.packet source body.now endpoint.now random.now)) }
{
    let gathered = gather(pending, circuits, request, body, endpoint, random);
    match gathered.open_rows() {
        Ok(()) => {
            drop_lapsed(ledger, request.state.places, request.packet.now);
            open_lapsed(pending, circuits, ledger, inflight, out, gathered, random)
        }
        Err(error) => Relayed::refused(request.state, error),
    }
}
