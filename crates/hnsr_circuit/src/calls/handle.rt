// `handle`: entry, clock, gate, and then the message that the opcode names (HANDLE).
ghost use Rattle.std.specs.Prelude.{◌≡◌, ◌||◌, ◌<◌, ltb, length, List, ℕ};
ghost use Rattle.hnsr_circuit.specs.Peer.{peer_of};
ghost use Rattle.hnsr_circuit.specs.Code.Held.{state_seen, world_given, handed_seen};
ghost use Rattle.hnsr_circuit.specs.declared.answer.HnsrRuntimeError.TheVariants.{Short};
ghost use Rattle.hnsr_circuit.specs.Answers.{check, ◌then◌};
ghost use Rattle.hnsr_circuit.specs.Entry.{handle_words, peer_answer, packet_answer, clock_answer};
ghost use Rattle.hnsr_circuit.specs.Handle.{handling_of, dispatch, gate_answer, handle_gate};
ghost use Rattle.hnsr_circuit.specs.Call.{step, call_handle};
ghost use Rattle.hnsr_circuit.specs.Code.Progress.{packet_of, ending, outcome};

use crate::answer::{HnsrAnswer, HnsrRuntimeError, check};
use crate::entry::{clock_answer, peer_answer, too_few};
use crate::messages::handle_accept::handle_accept;
use crate::messages::handle_close::handle_close;
use crate::messages::handle_data::handle_data;
use crate::messages::handle_open::handle_open;
use crate::messages::handle_window::handle_window;
use crate::output::route::{HANDLE_WORDS, PacketBody};
use crate::peer::HnsrPeerId;
use crate::records::{InflightAction, RelayCircuit, RelayPending, ReservationUsage};
use crate::runtime::{OpaqueRelayRuntime, RelayPacket, RelayState, Relayed, Request};
use crate::tables::lookup::trim;
use hnsr_body::envelope::HnsrPacket;

// ---- entry

// 22 (ENTRY.1): the output or a table is too short
fn room_answer(room: usize, few: bool) -> HnsrAnswer
    ensures { result ≡ check (ltb room handle_words || few) Short }
{
    check(room < HANDLE_WORDS || few, HnsrRuntimeError::Short)
}

// 1 (ENTRY.3): what the packet rule refuses
#[tactic(auto, unfolding(crate::specs::Entry::packet_answer))]
fn packet_answer(packet: RelayPacket, body_size: usize) -> HnsrAnswer
    ensures { result ≡ packet_answer packet.opcode packet.context_id body_size }
{
    let envelope = HnsrPacket {
        opcode: packet.opcode,
        context_id: packet.context_id,
        body_length: body_size,
    };
    Ok(envelope.validate()?)
}

// 4, 1 and 7, in this order, behind 22.
fn entry_answer(
    lent: HnsrAnswer,
    runtime: OpaqueRelayRuntime,
    packet: RelayPacket,
    source: usize,
    body: usize,
) -> HnsrAnswer
    ensures { result ≡ ((lent then peer_answer source then packet_answer packet.opcode packet.context_id body)
        then clock_answer runtime.trusted_time_high_water packet.now) }
{
    lent?;
    peer_answer(source)?;
    packet_answer(packet, body)?;
    clock_answer(runtime.trusted_time_high_water, packet.now)
}

// 9 (HANDLE.2): the relay is off
#[tactic(auto, unfolding(crate::specs::Handle::gate_answer))]
pub(crate) fn gate_answer(enabled: bool) -> HnsrAnswer
    ensures { result ≡ gate_answer enabled }
{
    check(!enabled, HnsrRuntimeError::Disabled)
}

// ---- by opcode

// HANDLE.4: six opcodes; the rest a relay does not take (HANDLE.3). By the number, in ranges: every byte has an arm.
pub(crate) fn dispatch(
    pending: &mut [RelayPending],
    circuits: &mut [RelayCircuit],
    ledger: &mut [ReservationUsage],
    inflight: &mut [InflightAction],
    out: &mut [u32],
    request: Request,
    body: PacketBody,
    endpoint: &[u8],
    random: &[u8],
) -> Relayed
    ensures { (source : List ℕ) → request.peer ≡ peer_of source
        → handed_seen result pending.new circuits.new ledger.new inflight.new
        out.new
        ≡ ending out.old
        (dispatch (handling_of request.packet.opcode)
        (world_given request pending.old circuits.old ledger.old
        inflight.old)
        (packet_of request.packet source body.entry.bytes.now endpoint.now random.now)) }
{
    let opcode = request.packet.opcode;
    match opcode {
        13 => handle_open(
            pending, circuits, ledger, inflight, out, request, body.bytes, endpoint, random,
        ),
        15 => handle_accept(pending, circuits, inflight, out, request, body.bytes),
        17 => handle_data(circuits, ledger, inflight, out, request, body),
        18 => handle_window(circuits, inflight, out, request, body),
        19..=20 => handle_close(pending, circuits, inflight, out, request, body),
        0..=12 | 14 | 16 | 21..=255 => {
            Relayed::refused(request.state, HnsrRuntimeError::UnexpectedOpcode)
        }
    }
}

// ENTRY.5: the clock has moved.
pub(crate) fn handle_gate(
    pending: &mut [RelayPending],
    circuits: &mut [RelayCircuit],
    ledger: &mut [ReservationUsage],
    inflight: &mut [InflightAction],
    out: &mut [u32],
    state: RelayState,
    packet: RelayPacket,
    source: &[u8],
    body: PacketBody,
    endpoint: &[u8],
    random: &[u8],
) -> Relayed
    ensures { handed_seen result pending.new circuits.new ledger.new inflight.new
        out.new
        ≡ ending out.old
        (handle_gate (state_seen state pending.old circuits.old ledger.old
        inflight.old)
        (packet_of packet source.now body.entry.bytes.now endpoint.now random.now)) }
{
    match gate_answer(state.runtime.enabled) {
        Ok(()) => {
            let peer = HnsrPeerId::new(source);
            let request = Request {
                state,
                packet,
                peer,
            };
            dispatch(
                pending, circuits, ledger, inflight, out, request, body, endpoint, random,
            )
        }
        Err(error) => Relayed::refused(state, error),
    }
}

pub fn handle(
    pending: &mut [RelayPending],
    circuits: &mut [RelayCircuit],
    ledger: &mut [ReservationUsage],
    inflight: &mut [InflightAction],
    out: &mut [u32],
    state: RelayState,
    packet: RelayPacket,
    source: &[u8],
    body: &[u8],
    endpoint: &[u8],
    random: &[u8],
) -> Relayed
    ensures { handed_seen result pending.new circuits.new ledger.new inflight.new
        out.new
        ≡ outcome out.old
        (step (state_seen state pending.old circuits.old ledger.old
        inflight.old)
        (call_handle
        (packet_of packet source.now body.now endpoint.now random.now)
        (length out.old))) }
{
    let config = state.runtime.config;
    let few = too_few(config, pending, circuits, inflight);
    let lent = room_answer(out.len(), few);
    match entry_answer(lent, state.runtime, packet, source.len(), body.len()) {
        Ok(()) => {
            let moved = RelayState {
                runtime: state.runtime.with_clock(packet.now),
                places: trim(pending, circuits, ledger, inflight, state.places),
            };
            handle_gate(
                pending,
                circuits,
                ledger,
                inflight,
                out,
                moved,
                packet,
                source,
                PacketBody { bytes: body },
                endpoint,
                random,
            )
        }
        Err(error) => Relayed::refused(state, error),
    }
}
