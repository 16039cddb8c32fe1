// ACCEPT: an endpoint takes a pending circuit.
ghost use Rattle.std.specs.Prelude.{◌≡◌, true, List, ℕ, Some};
ghost use Rattle.hnsr_circuit.specs.Code.Lookup.{pending_found};
ghost use Rattle.hnsr_circuit.specs.Code.Held.{held_pending, held_circuits};
ghost use Rattle.hnsr_circuit.specs.Code.Held.{held_actions, world_given, handed_seen};
ghost use Rattle.hnsr_circuit.specs.Pending.{pending_at};
ghost use Rattle.hnsr_circuit.specs.Inflight.{tallied};
ghost use Rattle.hnsr_circuit.specs.Code.Question.{pending_work, circuit_work};
ghost use Rattle.hnsr_circuit.specs.Peer.{peer_of};
ghost use Rattle.hnsr_circuit.specs.Code.Progress.{packet_of, ending};
ghost use Rattle.hnsr_circuit.specs.Accept.{handle_accept};
ghost use Rattle.hnsr_circuit.specs.Code.Opening.{accept_rows, accept_work, accept_named};
ghost use Rattle.hnsr_circuit.specs.declared.records.ReservationUsage.{ReservationUsage};

use crate::answer::HnsrAnswer;
use crate::messages::accept::{Acceptance, accept_entry};
use crate::output::queue::{asking, send};
use crate::output::route::PacketBody;
use crate::records::{InflightAction, RelayCircuit, RelayPending};
use crate::runtime::{RelayState, Relayed, Request};
use crate::tables::inflight::{drop_and_scan, scan_actions};
use crate::tables::lookup::{Found, look_up};
use crate::tables::places::Places;
use crate::tables::question::ById;
use crate::tables::stores::put_circuit;
use crate::tables::table::{unmark, work};
use hnsr_body::accept_body::AcceptBody;

// The rows behind the entry's, over the tables as lent.
#[tactic(auto, unfolding(crate::specs::Code::Turns::actions_scanned))]
pub(crate) fn accept_answered(
    pending: &[RelayPending],
    circuits: &[RelayCircuit],
    inflight: &[InflightAction],
    request: Request,
    accepted: Acceptance,
) -> HnsrAnswer
    ensures { result ≡ accept_rows request.state.runtime.config accepted.pending accepted.body
        (pending_work (accept_work accepted.pending) (held_pending request.state.places pending.now))
        (circuit_work (accept_work accepted.pending) (held_circuits request.state.places circuits.now))
        (tallied true request.packet.context_id accepted.pending.requester
        (held_actions request.state.places inflight.now)) }
{
    let RelayState { runtime, places } = request.state;
    let question = accepted.accept_work();
    let waiting = work(pending, places.pending, &question);
    let running = work(circuits, places.circuits, &question);
    let asked = accepted.replacing(request.packet.context_id);
    let scan = scan_actions(inflight, places, asked);
    accepted.accept_rows(runtime.config, waiting, running, scan.tally)
}

// An ACCEPT of a pending record, whose body is read: one pass over the actions for its rows, and one that drops the
// pending record's.
#[tactic(auto, using(crate::specs::Laws::Opening::found_refused))]
pub(crate) fn accept_found(
    pending: &mut [RelayPending],
    circuits: &mut [RelayCircuit],
    inflight: &mut [InflightAction],
    out: &mut [u32],
    request: Request,
    found: Found<RelayPending>,
    body: AcceptBody,
) -> Relayed
    ensures { (l : List ReservationUsage)
        → pending_found (pending_at request.packet.context_id) (held_pending request.state.places pending.old)
        ≡ Some found
        → handed_seen result pending.new circuits.new l inflight.new out.new
        ≡ ending out.old
        (accept_named (world_given request pending.old circuits.old l inflight.old)
        request.packet.context_id found.row body) }
{
    let RelayState { runtime, places } = request.state;
    let accepted = Acceptance {
        pending: found.row,
        body,
    };
    match accept_answered(pending, circuits, inflight, request, accepted) {
        Ok(()) => {
            let id = found.row.circuit_id;
            unmark(pending, places.pending, found.place);
            let circuit = accepted.circuit_for(runtime.config);
            let number = put_circuit(circuits, places, id, circuit);
            let state = RelayState {
                runtime: runtime.accepted(),
                places: Places {
                    circuits: number,
                    ..places
                },
            };
            let message = accepted.opened_out();
            let asked = asking(state.runtime, message);
            let scan = drop_and_scan(inflight, state.places, id, asked);
            let opened = PacketBody {
                bytes: &accepted.opened_for().to_bytes(),
            };
            send(inflight, out, state, message, scan, opened)
        }
        Err(error) => Relayed::refused(request.state, error),
    }
}

#[tactic(auto, using(crate::specs::Laws::Opening::accept_refused))]
pub(crate) fn handle_accept(
    pending: &mut [RelayPending],
    circuits: &mut [RelayCircuit],
    inflight: &mut [InflightAction],
    out: &mut [u32],
    request: Request,
    body: &[u8],
) -> Relayed
    ensures { (l : List ReservationUsage) (source e rs : List ℕ) → request.peer ≡ peer_of source
        → handed_seen result pending.new circuits.new l inflight.new out.new
        ≡ ending out.old
        (handle_accept (world_given request pending.old circuits.old l inflight.old)
        (packet_of request.packet source body.now e rs)) }
{
    let id = request.packet.context_id;
    let named = look_up(pending, request.state.places.pending, &ById { id });
    let read = AcceptBody::decode(body);
    match accept_entry(named, request.peer, request.packet.now, read) {
        Ok(found) => accept_found(pending, circuits, inflight, out, request, found, read.body),
        Err(error) => Relayed::refused(request.state, error),
    }
}
