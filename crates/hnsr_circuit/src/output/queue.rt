// Queueing (QUEUE): a message becomes a route and an outstanding action.
ghost use Rattle.std.specs.Prelude.{◌≡◌, List, [], ◌<◌, ◌≤◌, length, unwrap_or, IfOk};
ghost use Rattle.hnsr_body.specs.Messages.{notice_body};
ghost use Rattle.hnsr_circuit.specs.Inflight.{action_under, dropped};
ghost use Rattle.hnsr_circuit.specs.Code.Held.{held_actions, state_seen, handed_seen, underway_seen};
ghost use Rattle.hnsr_circuit.specs.Code.Held.{held_pending, held_circuits, held_ledger};
ghost use Rattle.hnsr_circuit.specs.Queue.{queue_answer, action_for, send, tell};
ghost use Rattle.hnsr_circuit.specs.Code.Turns.{actions_scanned};
ghost use Rattle.hnsr_circuit.specs.Code.Progress.{message_of, ending, advance, asking, underway};
ghost use Rattle.hnsr_circuit.specs.Code.Message.{outgoing};
ghost use Rattle.hnsr_circuit.specs.Code.Queueing.{queueing, Written};
ghost use Rattle.hnsr_circuit.specs.declared.records.RelayPending.{RelayPending};
ghost use Rattle.hnsr_circuit.specs.declared.records.RelayCircuit.{RelayCircuit};
ghost use Rattle.hnsr_circuit.specs.declared.records.ReservationUsage.{ReservationUsage};

use crate::answer::{HnsrAnswer, HnsrRuntimeError, check};
use crate::config::OpaqueRelayConfig;
use crate::output::route::{PacketBody, put_route, route_size};
use crate::peer::HnsrPeerId;
use crate::records::inflight::capacity_answer;
use crate::records::{InflightAction, InflightKind};
use crate::runtime::{OpaqueRelayRuntime, RelayState, Relayed, Sending};
use crate::tables::inflight::{drop_and_scan, scan_actions};
use crate::tables::places::Places;
use crate::tables::scan::{ActionQuestion, ActionScan, InflightTally};
use crate::tables::table::put;
use hnsr_body::error::{HnsrInvalid, HnsrProtocolError};
use hnsr_body::messages::Notice;

// A message but for its body: where it goes, the circuit that it is about, opcode and context, and what its action
// holds. `to_endpoint` and `bytes` are of Data alone: they stand here for every kind, as in the definition's message
// and in the stored action, which lies as in C.
#[derive(Clone, Copy)]
pub struct Outgoing {
    pub destination: HnsrPeerId,
    pub circuit_id: u64,
    pub opcode: u8,
    pub context_id: u64,
    pub kind: InflightKind,
    pub to_endpoint: bool,
    pub bytes: usize,
}

impl Outgoing {
    // Any but a Data.
    pub(crate) fn new(
        destination: HnsrPeerId,
        circuit_id: u64,
        opcode: u8,
        context_id: u64,
        kind: InflightKind,
    ) -> Self
        ensures { result ≡ outgoing destination circuit_id opcode context_id kind }
    {
        Self {
            destination,
            circuit_id,
            opcode,
            context_id,
            kind,
            to_endpoint: false,
            bytes: 0,
        }
    }
}

// 1, 10, 6 (QUEUE.6): no context, no room, no number.
#[tactic(auto, unfolding(crate::specs::Queue::queue_answer))]
pub(crate) fn queue_answer(
    config: OpaqueRelayConfig,
    tally: InflightTally,
    sequence: u64,
    context: u64,
) -> HnsrAnswer
    ensures answer { result ≡ queue_answer config tally sequence context }
    ensures below { IfOk result (λ _. sequence < 18446744073709551615) }
{
    let zero = HnsrRuntimeError::Protocol(HnsrProtocolError::Invalid(HnsrInvalid::ContextZero));
    check(context == 0, zero)?;
    capacity_answer(config, tally)?;
    check(sequence == u64::MAX, HnsrRuntimeError::GenerationExhausted)
}

// The action that a message leaves outstanding.
pub(crate) fn action_for(message: Outgoing, generation: u64, sequence: u64) -> InflightAction
    ensures { result ≡ action_for (message_of message []) generation sequence }
{
    InflightAction {
        used: true,
        generation,
        sequence,
        circuit_id: message.circuit_id,
        destination: message.destination,
        kind: u8::from(message.kind),
        to_endpoint: message.to_endpoint,
        bytes: message.bytes,
    }
}

// What a message asks of the actions.
pub(crate) fn asking(runtime: OpaqueRelayRuntime, message: Outgoing) -> ActionQuestion
    ensures { result ≡ asking runtime message }
{
    ActionQuestion {
        replacing: false,
        circuit_id: message.circuit_id,
        peer: message.destination,
        generation: runtime.generation,
        sequence: runtime.next_action_sequence,
    }
}

// How a message is queued: the runtime with the sequence moved on, and the action with its place: the one that its
// number finds, else the lowest unused one, if there is one.
#[derive(Clone, Copy)]
pub struct Queued {
    pub runtime: OpaqueRelayRuntime,
    pub place: Option<usize>,
    pub action: InflightAction,
}

// The message is queued, or refused.
pub(crate) fn queue(
    runtime: OpaqueRelayRuntime,
    message: Outgoing,
    scan: ActionScan,
) -> Result<Queued, HnsrRuntimeError>
    ensures { result ≡ queueing runtime message scan }
{
    let sequence = runtime.next_action_sequence;
    queue_answer(runtime.config, scan.tally, sequence, message.context_id)?;
    Ok(Queued {
        runtime: runtime.with_sequence(sequence + 1),
        place: scan.found.or(scan.spare),
        action: action_for(message, runtime.generation, sequence),
    })
}

// A queued message: its action stored, and its route behind what the call has written. Compiled into its two callers:
// from a parameter the action would go into its place by `memmove`, which the archive does not need otherwise.
#[inline(always)]
fn write(
    inflight: &mut [InflightAction],
    out: &mut [u32],
    sending: Sending,
    message: Outgoing,
    queued: Queued,
    body: PacketBody,
) -> Sending
    requires { unwrap_or queued.place (length inflight.old) < length inflight.old
        → unwrap_or queued.place (length inflight.old) ≤ sending.state.places.actions }
    ensures { Written message body.entry.bytes.now queued sending.state sending.position inflight.old out.old result
        inflight.new out.new }
{
    let runtime = sending.state.runtime;
    let places = sending.state.places;
    let place = queued.place.unwrap_or(inflight.len());
    let actions = put(inflight, places.actions, place, queued.action);
    put_route(
        out,
        sending.position,
        message,
        runtime.generation,
        runtime.next_action_sequence,
        body,
    );
    Sending {
        state: RelayState {
            runtime: queued.runtime,
            places: Places { actions, ..places },
        },
        position: sending.position.saturating_add(route_size(body)),
    }
}

// The last step of a call.
#[tactic(auto, using(crate::specs::Laws::Queueing::queued_upto, crate::specs::Laws::Queueing::send_refused))]
pub(crate) fn send(
    inflight: &mut [InflightAction],
    out: &mut [u32],
    state: RelayState,
    message: Outgoing,
    scan: ActionScan,
    body: PacketBody,
) -> Relayed
    requires { scan ≡ actions_scanned (asking state.runtime message) (held_actions state.places inflight.old) }
    ensures { (p : List RelayPending) (c : List RelayCircuit) (l : List ReservationUsage)
        → handed_seen result p c l inflight.new out.new
        ≡ ending out.old
        (send (state_seen state p c l inflight.old) (message_of message body.entry.bytes.now)) }
{
    match queue(state.runtime, message, scan) {
        Ok(queued) => write(inflight, out, state.start(), message, queued, body).finish(),
        Err(error) => Relayed::refused(state, error),
    }
}

// A part of a call that cannot be refused: what cannot be queued is left out (QUEUE.8).
#[tactic(auto, using(crate::specs::Laws::Queueing::queued_upto, crate::specs::Laws::Queueing::tell_refused))]
pub(crate) fn tell(
    inflight: &mut [InflightAction],
    out: &mut [u32],
    sending: Sending,
    message: Outgoing,
    scan: ActionScan,
    body: PacketBody,
) -> Sending
    requires { scan
        ≡ actions_scanned (asking sending.state.runtime message) (held_actions sending.state.places inflight.old) }
    ensures { (p : List RelayPending) (c : List RelayCircuit) (l : List ReservationUsage)
        → underway_seen result p c l inflight.new out.new
        ≡ advance (tell (message_of message body.entry.bytes.now))
        (underway_seen sending p c l inflight.old out.old) }
{
    match queue(sending.state.runtime, message, scan) {
        Ok(queued) => write(inflight, out, sending, message, queued, body),
        Err(_) => sending,
    }
}

// A message of the relay's own, the actions of its record dropped before it, in the same pass. Beside `tell_notice`,
// since the two passes differ in what they borrow and in what they leave.
#[tactic(auto, using(crate::specs::Laws::Route::notice_slice, crate::specs::Laws::Route::notice_short))]
pub(crate) fn drop_and_tell(
    inflight: &mut [InflightAction],
    out: &mut [u32],
    sending: Sending,
    id: u64,
    message: Outgoing,
    notice: Notice,
) -> Sending
    ensures { (p : List RelayPending) (c : List RelayCircuit) (l : List ReservationUsage)
        → underway_seen result p c l inflight.new out.new
        ≡ advance (tell (message_of message (notice_body notice)))
        (underway sending (held_pending sending.state.places p) (held_circuits sending.state.places c)
        (held_ledger sending.state.places l)
        (dropped (action_under id) (held_actions sending.state.places inflight.old)) out.old) }
{
    let state = sending.state;
    let scan = drop_and_scan(inflight, state.places, id, asking(state.runtime, message));
    let written = notice.encode();
    let body = PacketBody {
        bytes: written.as_slice(),
    };
    tell(inflight, out, sending, message, scan, body)
}

// A message of the relay's own.
#[tactic(auto, using(crate::specs::Laws::Route::notice_slice, crate::specs::Laws::Route::notice_short))]
pub(crate) fn tell_notice(
    inflight: &mut [InflightAction],
    out: &mut [u32],
    sending: Sending,
    message: Outgoing,
    notice: Notice,
) -> Sending
    ensures { (p : List RelayPending) (c : List RelayCircuit) (l : List ReservationUsage)
        → underway_seen result p c l inflight.new out.new
        ≡ advance (tell (message_of message (notice_body notice)))
        (underway_seen sending p c l inflight.old out.old) }
{
    let state = sending.state;
    let scan = scan_actions(inflight, state.places, asking(state.runtime, message));
    let written = notice.encode();
    let body = PacketBody {
        bytes: written.as_slice(),
    };
    tell(inflight, out, sending, message, scan, body)
}
