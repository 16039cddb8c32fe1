// The calls of the relay. Tables, output and bytes are lent; the runtime and the places in use go in and come back by
// value. An answer is the number that the rules (docs/RULES.md) have, 0 where the call is taken, and the cause of a 1.
// No call asks anything of what it is lent. Each table and the output is a parameter of its own, as in C.
ghost use Rattle.std.specs.Prelude.{◌≡◌, List, ℕ, length};
ghost use Rattle.hnsr_circuit.specs.declared.records.RelayPending.{RelayPending};
ghost use Rattle.hnsr_circuit.specs.declared.records.RelayCircuit.{RelayCircuit};
ghost use Rattle.hnsr_circuit.specs.declared.records.ReservationUsage.{ReservationUsage};
ghost use Rattle.hnsr_circuit.specs.declared.records.InflightAction.{InflightAction};
ghost use Rattle.hnsr_circuit.specs.declared.runtime.OpaqueRelayRuntime.{OpaqueRelayRuntime};
ghost use Rattle.hnsr_circuit.specs.Answers.{number};
ghost use Rattle.hnsr_circuit.specs.Config.{default_config, validate_config};
ghost use Rattle.hnsr_circuit.specs.Code.Held.{held_pending, held_circuits, held_ledger, held_actions, world_seen};
ghost use Rattle.hnsr_circuit.specs.Code.Progress.{packet_of, outcome};
ghost use Rattle.hnsr_circuit.specs.World.{world_of};
ghost use Rattle.hnsr_circuit.specs.Code.Told.{status_told, due_told};
ghost use Rattle.hnsr_circuit.specs.Call.{start, step, call_handle, call_acknowledge, call_disconnect};
ghost use Rattle.hnsr_circuit.specs.Call.{call_revoke_reservation, call_expire, call_replace_enabled};
ghost use Rattle.hnsr_circuit.specs.Call.{call_observe_time, call_status, call_next_due};
ghost use Rattle.lekchnam.specs.Replies.{reply_of, replied, numbered, MadeReply};
ghost use Rattle.lekchnam.specs.Replies.{status_numbered, due_numbered};

use hnsr_body::error::Cause;
use hnsr_body::values::ReservationId;
use hnsr_circuit::answer::{HnsrRuntimeError, cause_of, number};
use hnsr_circuit::calls::acknowledge::acknowledge;
use hnsr_circuit::calls::handle::handle;
use hnsr_circuit::calls::revoking::{disconnect, expire, replace_enabled, revoke_reservation};
use hnsr_circuit::calls::silent::{new, next_due, observe_time, status};
use hnsr_circuit::config::OpaqueRelayConfig;
use hnsr_circuit::records::{InflightAction, RelayCircuit, RelayPending, ReservationUsage};
use hnsr_circuit::runtime::{
    HnsrRuntimeStatus, OpaqueRelayRuntime, RelayPacket, RelayState, Relayed, StatusTold,
};
use hnsr_circuit::tables::places::Places;

// What a call hands back: the answer, how many output words it wrote, and what the host keeps: the runtime and the
// places in use.
#[repr(C)]
#[derive(Clone, Copy)]
pub struct RelayReply {
    pub answer: u32,
    pub cause: Cause,
    pub words: usize,
    pub runtime: OpaqueRelayRuntime,
    pub places: Places,
}

// A refused one tells zeros. The action capacity is that of the peer and the circuit which were asked for.
#[repr(C)]
#[derive(Clone, Copy)]
pub struct StatusReply {
    pub answer: u32,
    pub status: HnsrRuntimeStatus,
    pub action_capacity: usize,
}

// Whether something is due, and when; a refused one tells that nothing is. A mark beside the time: C has no Option.
#[repr(C)]
#[derive(Clone, Copy)]
pub struct DueReply {
    pub answer: u32,
    pub some: bool,
    pub due: u64,
}

// ---- answers in numbers

impl From<Relayed> for RelayReply {
    ghost from_gives = { λ relayed reply. reply ≡ reply_of relayed };

    fn from(relayed: Relayed) -> Self {
        Self {
            answer: number(relayed.answer),
            cause: cause_of(relayed.answer),
            words: relayed.words,
            runtime: relayed.state.runtime,
            places: relayed.state.places,
        }
    }
}

impl From<Result<StatusTold, HnsrRuntimeError>> for StatusReply {
    ghost from_gives = { λ told reply. reply ≡ status_numbered told };

    fn from(told: Result<StatusTold, HnsrRuntimeError>) -> Self {
        match told {
            Ok(told) => Self {
                answer: 0,
                status: told.status,
                action_capacity: told.action_capacity,
            },
            Err(error) => Self {
                answer: error.into(),
                status: HnsrRuntimeStatus::default(),
                action_capacity: 0,
            },
        }
    }
}

impl From<Result<Option<u64>, HnsrRuntimeError>> for DueReply {
    ghost from_gives = { λ told reply. reply ≡ due_numbered told };

    fn from(told: Result<Option<u64>, HnsrRuntimeError>) -> Self {
        match told {
            Ok(due) => Self {
                answer: 0,
                some: due.is_some(),
                due: due.unwrap_or(0),
            },
            Err(error) => Self {
                answer: error.into(),
                some: false,
                due: 0,
            },
        }
    }
}

// ---- the configuration

#[unsafe(no_mangle)]
pub extern "C" fn opaque_relay_default_config() -> OpaqueRelayConfig
    ensures { result ≡ default_config }
{
    OpaqueRelayConfig::default()
}

#[unsafe(no_mangle)]
pub extern "C" fn opaque_relay_validate_config(config: OpaqueRelayConfig) -> u32
    ensures { result ≡ number (validate_config config) }
{
    number(config.validate())
}

// ---- the calls: each is a name of the C interface, also where two take the same things

#[unsafe(no_mangle)]
pub extern "C" fn opaque_relay_new(
    pending: &[RelayPending],
    circuits: &[RelayCircuit],
    ledger: &[ReservationUsage],
    inflight: &[InflightAction],
    session: &[u8; 16],
    generation: u64,
    config: OpaqueRelayConfig,
    time: u64,
) -> RelayReply
    ensures { (h : OpaqueRelayRuntime)
        → MadeReply result (held_pending result.places pending.now)
        (held_circuits result.places circuits.now) (held_ledger result.places ledger.now)
        (held_actions result.places inflight.now)
        (start (world_of h pending.now circuits.now ledger.now inflight.now)
        (record { session = session.now; generation = generation; config = config; now = time })) }
{
    new(
        pending, circuits, ledger, inflight, *session, generation, config, time,
    )
    .into()
}

#[unsafe(no_mangle)]
pub extern "C" fn opaque_relay_handle(
    pending: &mut [RelayPending],
    circuits: &mut [RelayCircuit],
    ledger: &mut [ReservationUsage],
    inflight: &mut [InflightAction],
    out: &mut [u32],
    runtime: OpaqueRelayRuntime,
    places: Places,
    packet: RelayPacket,
    source: &[u8],
    body: &[u8],
    endpoint: &[u8],
    random: &[u8],
) -> RelayReply
    ensures { replied result pending.new circuits.new ledger.new inflight.new
        out.new
        ≡ numbered (outcome out.old
        (step (world_seen runtime places pending.old circuits.old ledger.old
        inflight.old)
        (call_handle
        (packet_of packet source.now body.now endpoint.now random.now)
        (length out.old)))) }
{
    let state = RelayState { runtime, places };
    handle(
        pending, circuits, ledger, inflight, out, state, packet, source, body, endpoint, random,
    )
    .into()
}

#[unsafe(no_mangle)]
pub extern "C" fn opaque_relay_acknowledge(
    pending: &mut [RelayPending],
    circuits: &mut [RelayCircuit],
    inflight: &mut [InflightAction],
    out: &mut [u32],
    runtime: OpaqueRelayRuntime,
    places: Places,
    generation: u64,
    sequence: u64,
    delivered: bool,
) -> RelayReply
    ensures { (l : List ReservationUsage)
        → replied result pending.new circuits.new l inflight.new out.new
        ≡ numbered (outcome out.old
        (step (world_seen runtime places pending.old circuits.old l inflight.old)
        (call_acknowledge generation sequence delivered (length out.old)))) }
{
    let state = RelayState { runtime, places };
    acknowledge(
        pending, circuits, inflight, out, state, generation, sequence, delivered,
    )
    .into()
}

#[unsafe(no_mangle)]
pub extern "C" fn opaque_relay_disconnect(
    pending: &mut [RelayPending],
    circuits: &mut [RelayCircuit],
    inflight: &mut [InflightAction],
    out: &mut [u32],
    runtime: OpaqueRelayRuntime,
    places: Places,
    peer: &[u8],
) -> RelayReply
    ensures { (l : List ReservationUsage)
        → replied result pending.new circuits.new l inflight.new out.new
        ≡ numbered (outcome out.old
        (step (world_seen runtime places pending.old circuits.old l inflight.old)
        (call_disconnect peer.now (length out.old)))) }
{
    let state = RelayState { runtime, places };
    disconnect(pending, circuits, inflight, out, state, peer).into()
}

#[unsafe(no_mangle)]
pub extern "C" fn opaque_relay_revoke_reservation(
    pending: &mut [RelayPending],
    circuits: &mut [RelayCircuit],
    ledger: &mut [ReservationUsage],
    inflight: &mut [InflightAction],
    out: &mut [u32],
    runtime: OpaqueRelayRuntime,
    places: Places,
    id: ReservationId,
) -> RelayReply
    ensures { replied result pending.new circuits.new ledger.new inflight.new
        out.new
        ≡ numbered (outcome out.old
        (step (world_seen runtime places pending.old circuits.old ledger.old
        inflight.old) (call_revoke_reservation id (length out.old)))) }
{
    let state = RelayState { runtime, places };
    revoke_reservation(pending, circuits, ledger, inflight, out, state, id).into()
}

#[unsafe(no_mangle)]
pub extern "C" fn opaque_relay_expire(
    pending: &mut [RelayPending],
    circuits: &mut [RelayCircuit],
    ledger: &mut [ReservationUsage],
    inflight: &mut [InflightAction],
    out: &mut [u32],
    runtime: OpaqueRelayRuntime,
    places: Places,
    time: u64,
) -> RelayReply
    ensures { replied result pending.new circuits.new ledger.new inflight.new
        out.new
        ≡ numbered (outcome out.old
        (step (world_seen runtime places pending.old circuits.old ledger.old
        inflight.old) (call_expire time (length out.old)))) }
{
    let state = RelayState { runtime, places };
    expire(pending, circuits, ledger, inflight, out, state, time).into()
}

#[unsafe(no_mangle)]
pub extern "C" fn opaque_relay_replace_enabled(
    pending: &mut [RelayPending],
    circuits: &mut [RelayCircuit],
    inflight: &mut [InflightAction],
    out: &mut [u32],
    runtime: OpaqueRelayRuntime,
    places: Places,
    expected_generation: u64,
    enabled: bool,
) -> RelayReply
    ensures { (l : List ReservationUsage)
        → replied result pending.new circuits.new l inflight.new out.new
        ≡ numbered (outcome out.old
        (step (world_seen runtime places pending.old circuits.old l inflight.old)
        (call_replace_enabled expected_generation enabled (length out.old)))) }
{
    let state = RelayState { runtime, places };
    replace_enabled(
        pending,
        circuits,
        inflight,
        out,
        state,
        expected_generation,
        enabled,
    )
    .into()
}

#[unsafe(no_mangle)]
pub extern "C" fn opaque_relay_observe_time(
    runtime: OpaqueRelayRuntime,
    places: Places,
    time: u64,
) -> RelayReply
    ensures { (p : List RelayPending) (c : List RelayCircuit) (l : List ReservationUsage) (i : List InflightAction)
        (out : List ℕ)
        → replied result p c l i out
        ≡ numbered (outcome out (step (world_seen runtime places p c l i) (call_observe_time time))) }
{
    let state = RelayState { runtime, places };
    observe_time(state, time).into()
}

#[unsafe(no_mangle)]
pub extern "C" fn opaque_relay_status(
    pending: &[RelayPending],
    circuits: &[RelayCircuit],
    inflight: &[InflightAction],
    runtime: OpaqueRelayRuntime,
    places: Places,
    peer: &[u8],
    circuit_id: u64,
) -> StatusReply
    ensures { (l : List ReservationUsage)
        → result ≡ status_numbered (status_told
        (step (world_seen runtime places pending.now circuits.now l inflight.now)
        (call_status peer.now circuit_id))) }
{
    let state = RelayState { runtime, places };
    status(pending, circuits, inflight, state, peer, circuit_id).into()
}

#[unsafe(no_mangle)]
pub extern "C" fn opaque_relay_next_due(
    pending: &[RelayPending],
    circuits: &[RelayCircuit],
    ledger: &[ReservationUsage],
    inflight: &[InflightAction],
    runtime: OpaqueRelayRuntime,
    places: Places,
) -> DueReply
    ensures { result ≡ due_numbered (due_told
        (step
        (world_seen runtime places pending.now circuits.now ledger.now
        inflight.now)
        call_next_due)) }
{
    let state = RelayState { runtime, places };
    next_due(pending, circuits, ledger, inflight, state).into()
}
