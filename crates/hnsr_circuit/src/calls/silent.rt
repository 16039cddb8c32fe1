// The calls that send nothing: new, status, next_due, observe_time.
ghost use Rattle.std.specs.Prelude.{◌≡◌, ◌||◌, List, ℕ, eqb};
ghost use Rattle.hnsr_circuit.specs.Code.Held.{held_pending, held_circuits, held_ledger};
ghost use Rattle.hnsr_circuit.specs.Code.Held.{held_actions, state_seen, handed_seen};
ghost use Rattle.hnsr_circuit.specs.declared.records.RelayPending.{RelayPending};
ghost use Rattle.hnsr_circuit.specs.declared.records.RelayCircuit.{RelayCircuit};
ghost use Rattle.hnsr_circuit.specs.declared.records.ReservationUsage.{ReservationUsage};
ghost use Rattle.hnsr_circuit.specs.declared.records.InflightAction.{InflightAction};
ghost use Rattle.hnsr_circuit.specs.declared.runtime.OpaqueRelayRuntime.{OpaqueRelayRuntime};
ghost use Rattle.hnsr_circuit.specs.declared.answer.HnsrRuntimeError.TheVariants.{Short};
ghost use Rattle.hnsr_circuit.specs.Answers.{check, ◌then◌};
ghost use Rattle.hnsr_circuit.specs.Config.{validate_config};
ghost use Rattle.hnsr_circuit.specs.Entry.{peer_answer};
ghost use Rattle.hnsr_circuit.specs.Inflight.{capacity_left};
ghost use Rattle.hnsr_circuit.specs.Code.Question.{capacity_question};
ghost use Rattle.hnsr_circuit.specs.New.{session_answer};
ghost use Rattle.hnsr_circuit.specs.Code.Told.{status_told, due_told, Made};
ghost use Rattle.hnsr_circuit.specs.Status.{status_from};
ghost use Rattle.hnsr_circuit.specs.Code.Progress.{outcome};
ghost use Rattle.hnsr_circuit.specs.World.{world_of};
ghost use Rattle.hnsr_circuit.specs.Call.{start, step, call_status, call_next_due, call_observe_time};

use crate::answer::{HnsrAnswer, HnsrRuntimeError, check};
use crate::config::OpaqueRelayConfig;
use crate::entry::{clock_answer, peer_answer, too_few};
use crate::peer::HnsrPeerId;
use crate::records::inflight::capacity_left;
use crate::records::{InflightAction, RelayCircuit, RelayPending, ReservationUsage};
use crate::runtime::{HnsrRuntimeStatus, OpaqueRelayRuntime, RelayState, Relayed, StatusTold};
use crate::tables::circuits::circuit_totals;
use crate::tables::inflight::scan_actions;
use crate::tables::places::Places;
use crate::tables::question::InUse;
use crate::tables::scan::{ActionQuestion, CircuitTotals, InflightTally};
use crate::tables::table::{count, due};
use hnsr_body::values::is_zero;

// ---- new

// 3 (NEW.1): a session of zeros, or no generation
#[tactic(auto, unfolding(crate::specs::New::session_answer))]
fn session_answer(session: [u8; 16], generation: u64) -> HnsrAnswer
    ensures { result ≡ session_answer session generation }
{
    check(
        is_zero(&session) || generation == 0,
        HnsrRuntimeError::InvalidSession,
    )
}

// 3, 2, 22, in this order (NEW.1 to NEW.3)
fn new_answer(
    session: [u8; 16],
    generation: u64,
    config: OpaqueRelayConfig,
    few: bool,
    ledger: usize,
) -> HnsrAnswer
    ensures { result ≡ (session_answer session generation
        then validate_config config
        then check (few || eqb ledger 0) Short) }
{
    session_answer(session, generation)?;
    config.validate()?;
    check(few || ledger == 0, HnsrRuntimeError::Short)
}

// NEW.4: taken, no place is in use, whatever the tables hold. NEW.7: refused, zeros, off, the largest numbers. No
// table is touched.
pub fn new(
    pending: &[RelayPending],
    circuits: &[RelayCircuit],
    ledger: &[ReservationUsage],
    inflight: &[InflightAction],
    session: [u8; 16],
    generation: u64,
    config: OpaqueRelayConfig,
    time: u64,
) -> Relayed
    ensures { (h : OpaqueRelayRuntime)
        → Made result (held_pending result.state.places pending.now) (held_circuits result.state.places circuits.now)
        (held_ledger result.state.places ledger.now) (held_actions result.state.places inflight.now)
        (start (world_of h pending.now circuits.now ledger.now inflight.now)
        (record { session = session; generation = generation; config = config; now = time })) }
{
    let few = too_few(config, pending, circuits, inflight);
    match new_answer(session, generation, config, few, ledger.len()) {
        Ok(()) => {
            let runtime = OpaqueRelayRuntime::new(session, generation, config, time);
            Relayed::taken(RelayState {
                runtime,
                places: Places::NONE,
            })
        }
        Err(error) => {
            let off = RelayState {
                runtime: OpaqueRelayRuntime::OFF,
                places: Places::EVERY,
            };
            Relayed::refused(off, error)
        }
    }
}

// ---- status

fn status_of(
    runtime: OpaqueRelayRuntime,
    waiting: usize,
    totals: CircuitTotals,
    actions: usize,
) -> HnsrRuntimeStatus
    ensures { result ≡ status_from runtime waiting totals actions }
{
    let counters = runtime.counters;
    HnsrRuntimeStatus {
        generation: runtime.generation,
        enabled: runtime.enabled,
        pending_circuits: waiting,
        active_circuits: totals.used,
        queued_bytes: totals.queued_bytes,
        queued_actions: actions,
        trusted_time_high_water: runtime.trusted_time_high_water,
        admitted_opens: counters.admitted_opens,
        opened_circuits: counters.opened_circuits,
        bytes_sent: counters.bytes_sent,
        bytes_received: counters.bytes_received,
        revoked_work: counters.revoked_work,
    }
}

// 22, 4, in this order (STATUS.5)
fn status_answer(few: bool, size: usize) -> HnsrAnswer
    ensures { result ≡ (check few Short then peer_answer size) }
{
    check(few, HnsrRuntimeError::Short)?;
    peer_answer(size)
}

// What is asked of the actions: the three counts that the action capacity goes by. The place of a number is not asked:
// the zeros stand for none.
fn capacity_question(circuit_id: u64, peer: HnsrPeerId) -> ActionQuestion
    ensures { result ≡ capacity_question circuit_id peer }
{
    ActionQuestion {
        replacing: false,
        circuit_id,
        peer,
        generation: 0,
        sequence: 0,
    }
}

// The twelve fields, and how many further actions fit (STATUS.2, STATUS.6).
fn status_told(
    runtime: OpaqueRelayRuntime,
    waiting: usize,
    totals: CircuitTotals,
    tally: InflightTally,
) -> StatusTold
    ensures { (result.status ≡ status_from runtime waiting totals tally.total)
        × (result.action_capacity ≡ capacity_left runtime.config tally) }
{
    let status = status_of(runtime, waiting, totals, tally.total);
    let action_capacity = capacity_left(runtime.config, tally);
    StatusTold {
        status,
        action_capacity,
    }
}

pub fn status(
    pending: &[RelayPending],
    circuits: &[RelayCircuit],
    inflight: &[InflightAction],
    state: RelayState,
    peer: &[u8],
    circuit_id: u64,
) -> Result<StatusTold, HnsrRuntimeError>
    ensures { (l : List ReservationUsage)
        → result ≡ status_told
        (step (state_seen state pending.now circuits.now l inflight.now)
        (call_status peer.now circuit_id)) }
{
    let few = too_few(state.runtime.config, pending, circuits, inflight);
    status_answer(few, peer.len())?;
    let name = HnsrPeerId::new(peer);
    let question = capacity_question(circuit_id, name);
    let waiting = count(pending, state.places.pending, &InUse);
    let totals = circuit_totals(circuits, state.places);
    let scan = scan_actions(inflight, state.places, question);
    Ok(status_told(state.runtime, waiting, totals, scan.tally))
}

// ---- next due

// DUE.5: what ends first.
pub fn next_due(
    pending: &[RelayPending],
    circuits: &[RelayCircuit],
    ledger: &[ReservationUsage],
    inflight: &[InflightAction],
    state: RelayState,
) -> Result<Option<u64>, HnsrRuntimeError>
    ensures { result ≡ due_told
        (step
        (state_seen state pending.now circuits.now ledger.now
        inflight.now)
        call_next_due) }
{
    let few = too_few(state.runtime.config, pending, circuits, inflight);
    check(few, HnsrRuntimeError::Short)?;
    let first = due(pending, state.places.pending, None);
    let second = due(circuits, state.places.circuits, first);
    Ok(due(ledger, state.places.ledger, second))
}

// ---- observe_time: it is lent no table, and asks no 22

pub fn observe_time(state: RelayState, time: u64) -> Relayed
    ensures { (p : List RelayPending) (c : List RelayCircuit) (l : List ReservationUsage) (i : List InflightAction)
        (out : List ℕ)
        → handed_seen result p c l i out
        ≡ outcome out (step (state_seen state p c l i) (call_observe_time time)) }
{
    match clock_answer(state.runtime.trusted_time_high_water, time) {
        Ok(()) => Relayed::taken(state.with_runtime(state.runtime.with_clock(time))),
        Err(error) => Relayed::refused(state, error),
    }
}
