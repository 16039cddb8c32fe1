// DATA, as it goes through the tables.
ghost use Rattle.std.specs.Prelude.{◌≡◌, List, ℕ};
ghost use Rattle.hnsr_circuit.specs.Code.Plans.{data_planned};
ghost use Rattle.hnsr_circuit.specs.Code.Held.{held_circuits, held_ledger, held_actions, world_given, handed_seen};
ghost use Rattle.hnsr_circuit.specs.declared.records.RelayPending.{RelayPending};
ghost use Rattle.hnsr_circuit.specs.Data.{handle_data};
ghost use Rattle.hnsr_circuit.specs.Peer.{peer_of};
ghost use Rattle.hnsr_circuit.specs.Code.Progress.{packet_of, ending};

use crate::answer::HnsrRuntimeError;
use crate::messages::data::{DataPlan, booked_for, flow_answer};
use crate::messages::message::{data_on, own_circuit};
use crate::output::queue::{asking, send};
use crate::output::route::PacketBody;
use crate::records::circuits::side_of;
use crate::records::inflight::capacity_answer;
use crate::records::{InflightAction, RelayCircuit, ReservationUsage};
use crate::runtime::{Relayed, Request};
use crate::tables::inflight::scan_actions;
use crate::tables::lookup::look_up;
use crate::tables::question::{ById, ByReservation};
use crate::tables::stores::{charge_circuit, spend};
use hnsr_body::data_body::DataBody;

// The rows of a DATA of n bytes, in order. Its size and its circuit decide first: what they refuse costs no pass over
// the actions.
#[tactic(auto, unfolding(crate::specs::Code::Plans::data_planned))]
fn plan_data(
    circuits: &[RelayCircuit],
    ledger: &[ReservationUsage],
    inflight: &[InflightAction],
    request: Request,
    n: u16,
) -> Result<DataPlan, HnsrRuntimeError>
    ensures { result ≡ data_planned request.state.runtime (held_circuits request.state.places circuits.now)
        (held_ledger request.state.places ledger.now) (held_actions request.state.places inflight.now)
        request.packet request.peer n }
{
    let runtime = request.state.runtime;
    let places = request.state.places;
    let peer = request.peer;
    let id = request.packet.context_id;
    DataBody::check(usize::from(n))?;
    let named = own_circuit(look_up(circuits, places.circuits, &ById { id }), peer)?;
    let circuit = named.row;
    let message = data_on(request.packet, circuit, peer, usize::from(n));
    let scan = scan_actions(inflight, places, asking(runtime, message));
    capacity_answer(runtime.config, scan.tally)?;
    let reservation = ByReservation {
        id: circuit.reservation_id,
    };
    let booked = look_up(ledger, places.ledger, &reservation);
    let booked = booked_for(booked, circuit, u64::from(n))?;
    let side = side_of(peer, circuit);
    flow_answer(runtime.config, circuit, side, usize::from(n))?;
    Ok(DataPlan {
        place: named.place,
        side,
        usage_place: booked.place,
        message,
        scan,
    })
}

#[tactic(auto, using(crate::specs::Laws::Handlers::data_refused, crate::specs::Laws::Handlers::data_asked))]
pub(crate) fn handle_data(
    circuits: &mut [RelayCircuit],
    ledger: &mut [ReservationUsage],
    inflight: &mut [InflightAction],
    out: &mut [u32],
    request: Request,
    body: PacketBody,
) -> Relayed
    ensures { (p : List RelayPending) (source e rs : List ℕ) → request.peer ≡ peer_of source
        → handed_seen result p circuits.new ledger.new inflight.new out.new
        ≡ ending out.old
        (handle_data (world_given request p circuits.old ledger.old inflight.old)
        (packet_of request.packet source body.entry.bytes.now e rs)) }
{
    let state = request.state;
    let n = body.length();
    match plan_data(circuits, ledger, inflight, request, n) {
        Ok(plan) => {
            let bytes = u64::from(n);
            charge_circuit(circuits, plan.place, plan.side, usize::from(n));
            spend(ledger, plan.usage_place, bytes);
            let counted = state.with_runtime(state.runtime.transferred(bytes));
            send(inflight, out, counted, plan.message, plan.scan, body)
        }
        Err(error) => Relayed::refused(state, error),
    }
}
