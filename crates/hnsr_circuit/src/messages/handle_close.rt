// CLOSE and ERROR, as they go through the tables.
ghost use Rattle.std.specs.Prelude.{◌≡◌, List, ℕ};
ghost use Rattle.hnsr_circuit.specs.Code.Plans.{close_planned, pending_closed, circuits_closed};
ghost use Rattle.hnsr_circuit.specs.Code.Held.{held_pending, held_circuits, world_given, handed_seen};
ghost use Rattle.hnsr_circuit.specs.declared.records.ReservationUsage.{ReservationUsage};
ghost use Rattle.hnsr_circuit.specs.Close.{handle_close};
ghost use Rattle.hnsr_circuit.specs.Peer.{peer_of};
ghost use Rattle.hnsr_circuit.specs.Code.Progress.{packet_of, ending};

use crate::answer::{HnsrRuntimeError, check};
use crate::messages::message::{own_circuit, passed_on, translated_on};
use crate::output::queue::{Outgoing, asking, send};
use crate::output::route::PacketBody;
use crate::records::{InflightAction, InflightKind, RelayCircuit, RelayPending};
use crate::runtime::{Relayed, Request};
use crate::tables::inflight::drop_and_scan;
use crate::tables::lookup::look_up;
use crate::tables::question::{ById, NamedBy};
use crate::tables::table::{count, unmark};
use hnsr_body::detail_body::ReasonDetail;

// The mark of what a CLOSE or ERROR ends, cleared, and the message that tells the other side. 11 (CLOSE.2); what is
// pending comes before a circuit (CLOSE.10), which has its 14 and 15 (CLOSE.3, CLOSE.4)
#[tactic(auto, unfolding(crate::specs::Code::Plans::close_planned))]
fn close(
    pending: &mut [RelayPending],
    circuits: &mut [RelayCircuit],
    request: Request,
    body: &[u8],
) -> Result<Outgoing, HnsrRuntimeError>
    ensures { (result ≡ close_planned (held_pending request.state.places pending.old)
        (held_circuits request.state.places circuits.old) request.packet request.peer body.now)
        × (held_pending request.state.places pending.new
        ≡ pending_closed result request.packet request.peer (held_pending request.state.places pending.old))
        × (held_circuits request.state.places circuits.new
        ≡ circuits_closed result request.packet request.peer (held_pending request.state.places pending.old)
        (held_circuits request.state.places circuits.old)) }
{
    let places = request.state.places;
    let peer = request.peer;
    let id = request.packet.context_id;
    ReasonDetail::decode(body).result?;
    let named = NamedBy { peer, context: id };
    let matches = count(pending, places.pending, &named);
    check(2 <= matches, HnsrRuntimeError::InvalidAdmission)?;
    match look_up(pending, places.pending, &named) {
        Some(found) => {
            unmark(pending, places.pending, found.place);
            Ok(translated_on(request.packet.opcode, found.row, peer))
        }
        None => {
            let found = own_circuit(look_up(circuits, places.circuits, &ById { id }), peer)?;
            unmark(circuits, places.circuits, found.place);
            Ok(passed_on(request.packet, found.row, peer, InflightKind::Close))
        }
    }
}

// What the rows refuse costs no pass over the actions, what they take one.
#[tactic(auto, using(crate::specs::Laws::Handlers::close_refused))]
pub(crate) fn handle_close(
    pending: &mut [RelayPending],
    circuits: &mut [RelayCircuit],
    inflight: &mut [InflightAction],
    out: &mut [u32],
    request: Request,
    body: PacketBody,
) -> Relayed
    ensures { (l : List ReservationUsage) (source e rs : List ℕ) → request.peer ≡ peer_of source
        → handed_seen result pending.new circuits.new l inflight.new out.new
        ≡ ending out.old
        (handle_close (world_given request pending.old circuits.old l inflight.old)
        (packet_of request.packet source body.entry.bytes.now e rs)) }
{
    let state = request.state;
    match close(pending, circuits, request, body.bytes) {
        Ok(message) => {
            let counted = state.with_runtime(state.runtime.revoked());
            let asked = asking(counted.runtime, message);
            let scan = drop_and_scan(inflight, state.places, message.circuit_id, asked);
            send(inflight, out, counted, message, scan, body)
        }
        Err(error) => Relayed::refused(state, error),
    }
}
