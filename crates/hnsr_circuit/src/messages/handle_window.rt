// WINDOW, as it goes through the tables.
ghost use Rattle.std.specs.Prelude.{◌≡◌, List, ℕ};
ghost use Rattle.hnsr_circuit.specs.Code.Plans.{window_planned};
ghost use Rattle.hnsr_circuit.specs.Code.Held.{held_circuits, held_actions, world_given, handed_seen};
ghost use Rattle.hnsr_circuit.specs.declared.records.RelayPending.{RelayPending};
ghost use Rattle.hnsr_circuit.specs.declared.records.ReservationUsage.{ReservationUsage};
ghost use Rattle.hnsr_circuit.specs.Window.{handle_window};
ghost use Rattle.hnsr_circuit.specs.Peer.{peer_of};
ghost use Rattle.hnsr_circuit.specs.Code.Progress.{packet_of, ending};

use crate::answer::HnsrRuntimeError;
use crate::messages::message::{own_circuit, passed_on};
use crate::messages::window::{WindowPlan, credit_answer};
use crate::output::queue::{asking, send};
use crate::output::route::PacketBody;
use crate::records::circuits::side_of;
use crate::records::inflight::capacity_answer;
use crate::records::{InflightAction, InflightKind, RelayCircuit};
use crate::runtime::{Relayed, Request};
use crate::tables::inflight::scan_actions;
use crate::tables::lookup::look_up;
use crate::tables::question::ById;
use crate::tables::stores::raise_circuit;
use hnsr_body::data_body::WindowBody;

// The rows of a WINDOW, in order. Its body and its circuit decide first: what they refuse costs no pass over the
// actions.
#[tactic(auto, unfolding(crate::specs::Code::Plans::window_planned))]
fn plan_window(
    circuits: &[RelayCircuit],
    inflight: &[InflightAction],
    request: Request,
    body: &[u8],
) -> Result<WindowPlan, HnsrRuntimeError>
    ensures { result ≡ window_planned request.state.runtime (held_circuits request.state.places circuits.now)
        (held_actions request.state.places inflight.now) request.packet request.peer body.now }
{
    let runtime = request.state.runtime;
    let places = request.state.places;
    let peer = request.peer;
    let id = request.packet.context_id;
    let read = WindowBody::decode(body);
    read.result?;
    let named = own_circuit(look_up(circuits, places.circuits, &ById { id }), peer)?;
    let circuit = named.row;
    let message = passed_on(request.packet, circuit, peer, InflightKind::Control);
    let scan = scan_actions(inflight, places, asking(runtime, message));
    capacity_answer(runtime.config, scan.tally)?;
    let side = side_of(peer, circuit);
    let delta = read.body.credit_delta;
    credit_answer(circuit, side, delta)?;
    Ok(WindowPlan {
        place: named.place,
        side,
        delta,
        message,
        scan,
    })
}

#[tactic(auto, using(crate::specs::Laws::Handlers::window_refused, crate::specs::Laws::Handlers::window_asked))]
pub(crate) fn handle_window(
    circuits: &mut [RelayCircuit],
    inflight: &mut [InflightAction],
    out: &mut [u32],
    request: Request,
    body: PacketBody,
) -> Relayed
    ensures { (p : List RelayPending) (l : List ReservationUsage) (source e rs : List ℕ) → request.peer ≡ peer_of source
        → handed_seen result p circuits.new l inflight.new out.new
        ≡ ending out.old
        (handle_window (world_given request p circuits.old l inflight.old)
        (packet_of request.packet source body.entry.bytes.now e rs)) }
{
    let state = request.state;
    match plan_window(circuits, inflight, request, body.bytes) {
        Ok(plan) => {
            raise_circuit(circuits, plan.place, plan.side, plan.delta);
            send(inflight, out, state, plan.message, plan.scan, body)
        }
        Err(error) => Relayed::refused(state, error),
    }
}
