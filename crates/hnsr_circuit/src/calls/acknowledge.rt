// `acknowledge` (ACK): an action goes, and with it what it held; what was not delivered ends its record.
ghost use Rattle.std.specs.Prelude.{◌≡◌, ◌||◌, Some, List, ℕ, ltb, length};
ghost use Rattle.hnsr_body.specs.Messages.{notice_body};
ghost use Rattle.hnsr_circuit.specs.Code.Held.{held_circuits, held_actions, state_seen, handed_seen};
ghost use Rattle.std.specs.Option.{ok_or};
ghost use Rattle.std.specs.Result.{result_and};
ghost use Rattle.hnsr_circuit.specs.declared.answer.HnsrRuntimeError.TheVariants.{Short, UnknownAction};
ghost use Rattle.hnsr_circuit.specs.declared.records.RelayPending.{RelayPending};
ghost use Rattle.hnsr_circuit.specs.declared.records.RelayCircuit.{RelayCircuit};
ghost use Rattle.hnsr_circuit.specs.declared.records.ReservationUsage.{ReservationUsage};
ghost use Rattle.hnsr_circuit.specs.Answers.{check};
ghost use Rattle.hnsr_circuit.specs.Inflight.{action_at, kind_of};
ghost use Rattle.hnsr_circuit.specs.Entry.{acknowledge_words};
ghost use Rattle.hnsr_circuit.specs.Acknowledge.{generation_answer};
ghost use Rattle.hnsr_circuit.specs.Acknowledge.{lower_for, fail_incoming, acknowledge_action, settled};
ghost use Rattle.hnsr_circuit.specs.Queue.{send};
ghost use Rattle.hnsr_circuit.specs.Code.Progress.{message_of, ending, outcome};
ghost use Rattle.hnsr_circuit.specs.Code.Lookup.{action_found};
ghost use Rattle.hnsr_circuit.specs.declared.records.InflightAction.{InflightAction};
ghost use Rattle.hnsr_circuit.specs.Call.{step, call_acknowledge};

use crate::answer::{HnsrRuntimeError, check};
use crate::calls::revocation::{error_to_requester, revoke_one};
use crate::entry::{generation_answer, too_few};
use crate::output::queue::{Outgoing, asking, send};
use crate::output::route::{CLOSING_WORDS, PacketBody};
use crate::records::{InflightAction, InflightKind, RelayCircuit, RelayPending};
use crate::runtime::{RelayState, Relayed};
use crate::tables::inflight::scan_actions;
use crate::tables::lookup::{Found, look_up};
use crate::tables::places::Places;
use crate::tables::question::{ById, ByNumber};
use crate::tables::stores::lower_circuit;
use crate::tables::table::unmark;
use hnsr_body::messages::Notice;

// The action that is acknowledged. 22, 5, 20 (ACK.1, ACK.2), in this order: too short, another generation, no such
// action
fn outstanding(
    current: u64,
    few: bool,
    room: usize,
    generation: u64,
    numbered: Option<Found<InflightAction>>,
) -> Result<Found<InflightAction>, HnsrRuntimeError>
    ensures { result ≡ result_and (check (ltb room acknowledge_words || few) Short)
        (result_and (generation_answer current generation) (ok_or numbered UnknownAction)) }
{
    check(room < CLOSING_WORDS || few, HnsrRuntimeError::Short)?;
    generation_answer(current, generation)?;
    numbered.ok_or(HnsrRuntimeError::UnknownAction)
}

// ACK.4: a Data's bytes leave the queue.
#[tactic(auto, unfolding(crate::specs::Acknowledge::lower_for))]
fn lower_for(circuits: &mut [RelayCircuit], places: Places, action: InflightAction)
    ensures { held_circuits places circuits.new
        ≡ lower_for (kind_of action.kind) action (held_circuits places circuits.old) }
{
    match InflightKind::from(action.kind) {
        InflightKind::Data => lower_circuit(
            circuits,
            places,
            action.circuit_id,
            action.toward_side(),
            action.bytes,
        ),
        InflightKind::Incoming
        | InflightKind::Opened
        | InflightKind::Control
        | InflightKind::Close => {}
    }
}

// ---- undelivered

// A message of the relay's own, as the last step of a call.
#[tactic(auto, using(crate::specs::Laws::Route::notice_slice, crate::specs::Laws::Route::notice_short))]
pub(crate) fn send_notice(
    inflight: &mut [InflightAction],
    out: &mut [u32],
    state: RelayState,
    message: Outgoing,
    notice: Notice,
) -> Relayed
    ensures { (p : List RelayPending) (c : List RelayCircuit) (l : List ReservationUsage)
        → handed_seen result p c l inflight.new out.new
        ≡ ending out.old
        (send (state_seen state p c l inflight.old) (message_of message (notice_body notice))) }
{
    let scan = scan_actions(inflight, state.places, asking(state.runtime, message));
    let written = notice.encode();
    let body = PacketBody {
        bytes: written.as_slice(),
    };
    send(inflight, out, state, message, scan, body)
}

// ACK.6: a lost Incoming ends its pending record and no other action.
pub(crate) fn fail_incoming(
    pending: &mut [RelayPending],
    inflight: &mut [InflightAction],
    out: &mut [u32],
    state: RelayState,
    id: u64,
) -> Relayed
    ensures { (c : List RelayCircuit) (l : List ReservationUsage)
        → handed_seen result pending.new c l inflight.new out.new
        ≡ ending out.old
        (fail_incoming (state_seen state pending.old c l inflight.old) id) }
{
    match look_up(pending, state.places.pending, &ById { id }) {
        Some(found) => {
            unmark(pending, state.places.pending, found.place);
            let after = state.with_runtime(state.runtime.revoked());
            let message = error_to_requester(found.row);
            send_notice(inflight, out, after, message, Notice::EndpointWriteFailed)
        }
        None => Relayed::taken(state),
    }
}

// ACK.6 to ACK.9: by kind, and by what is still there.
pub(crate) fn settle(
    pending: &mut [RelayPending],
    circuits: &mut [RelayCircuit],
    inflight: &mut [InflightAction],
    out: &mut [u32],
    state: RelayState,
    action: InflightAction,
    delivered: bool,
) -> Relayed
    ensures { (l : List ReservationUsage)
        → handed_seen result pending.new circuits.new l inflight.new out.new
        ≡ ending out.old
        (settled (state_seen state pending.old circuits.old l inflight.old)
        action delivered) }
{
    if delivered {
        return Relayed::taken(state);
    }
    match InflightKind::from(action.kind) {
        InflightKind::Incoming => fail_incoming(pending, inflight, out, state, action.circuit_id),
        InflightKind::Opened | InflightKind::Data | InflightKind::Control => revoke_one(
            circuits,
            inflight,
            out,
            state,
            Notice::OuterWriteFailed,
            action.circuit_id,
        ),
        InflightKind::Close => Relayed::taken(state),
    }
}

pub(crate) fn acknowledge_action(
    pending: &mut [RelayPending],
    circuits: &mut [RelayCircuit],
    inflight: &mut [InflightAction],
    out: &mut [u32],
    state: RelayState,
    found: Found<InflightAction>,
    delivered: bool,
) -> Relayed
    ensures { (l : List ReservationUsage) (generation sequence : ℕ)
        → action_found (action_at generation sequence) (held_actions state.places inflight.old) ≡ Some found
        → handed_seen result pending.new circuits.new l inflight.new out.new
        ≡ ending out.old
        (acknowledge_action
        (state_seen state pending.old circuits.old l inflight.old) generation
        sequence delivered found.row) }
{
    unmark(inflight, state.places.actions, found.place);
    lower_for(circuits, state.places, found.row);
    settle(
        pending, circuits, inflight, out, state, found.row, delivered,
    )
}

pub fn acknowledge(
    pending: &mut [RelayPending],
    circuits: &mut [RelayCircuit],
    inflight: &mut [InflightAction],
    out: &mut [u32],
    state: RelayState,
    generation: u64,
    sequence: u64,
    delivered: bool,
) -> Relayed
    ensures { (l : List ReservationUsage)
        → handed_seen result pending.new circuits.new l inflight.new out.new
        ≡ outcome out.old
        (step (state_seen state pending.old circuits.old l inflight.old)
        (call_acknowledge generation sequence delivered (length out.old))) }
{
    let config = state.runtime.config;
    let number = ByNumber {
        generation,
        sequence,
    };
    let numbered = look_up(inflight, state.places.actions, &number);
    let few = too_few(config, pending, circuits, inflight);
    match outstanding(
        state.runtime.generation,
        few,
        out.len(),
        generation,
        numbered,
    ) {
        Ok(found) => acknowledge_action(pending, circuits, inflight, out, state, found, delivered),
        Err(error) => Relayed::refused(state, error),
    }
}
