// The revoking calls: disconnect (DISC), revoke_reservation (RES), expire (EXPIRE), replace_enabled (SWITCH).
ghost use Rattle.std.specs.Prelude.{◌≡◌, List, ◌+◌, ◌*◌, ◌<◌, ltb, length};
ghost use Rattle.hnsr_circuit.specs.Code.Held.{held_pending, held_circuits, state_seen, handed_seen};
ghost use Rattle.hnsr_circuit.specs.declared.records.ReservationUsage.{ReservationUsage};
ghost use Rattle.hnsr_circuit.specs.declared.tables.question.Revoking.TheVariants.{Disabled};
ghost use Rattle.hnsr_circuit.specs.Entry.{closing_words};
ghost use Rattle.hnsr_circuit.specs.Call.{step, call_disconnect, call_revoke_reservation};
ghost use Rattle.hnsr_circuit.specs.Call.{call_expire, call_replace_enabled};
ghost use Rattle.hnsr_circuit.specs.Code.Progress.{outcome, ending};
ghost use Rattle.hnsr_circuit.specs.RevokingCalls.{change_answer, switch_to};
ghost use Rattle.hnsr_circuit.specs.Code.Revoking.{walks_of, entered};

use crate::answer::{HnsrAnswer, HnsrRuntimeError, check};
use crate::calls::revocation::{Walks, revoke_all};
use crate::entry::{clock_answer, generation_answer, peer_answer, too_few};
use crate::output::route::CLOSING_WORDS;
use crate::peer::HnsrPeerId;
use crate::records::{InflightAction, RelayCircuit, RelayPending, ReservationUsage};
use crate::runtime::{RelayState, Relayed};
use crate::tables::ledger::drop_lapsed;
use crate::tables::question::{InUse, Revoking, Toward};
use crate::tables::stores::drop_usage;
use crate::tables::table::{clear, survey};
use hnsr_body::values::ReservationId;

// 6 (SWITCH.2): a switch without a generation left
#[tactic(auto, unfolding(crate::specs::RevokingCalls::change_answer))]
pub(crate) fn change_answer(generation: u64, changes: bool) -> HnsrAnswer
    ensures { result ≡ change_answer generation changes }
{
    check(
        changes && generation == u64::MAX,
        HnsrRuntimeError::GenerationExhausted,
    )
}

// ---- entry

// Whether the output is too short for so many records.
fn room_short(room: usize, pending: usize, circuits: usize) -> bool
    ensures { result ≡ ltb room (closing_words * (pending + circuits)) }
{
    room / CLOSING_WORDS < pending.saturating_add(circuits)
}

// 22 (ENTRY.1), and then the call's own rows; taken, the walks that it begins. One pass over each table.
pub(crate) fn entered(
    pending: &[RelayPending],
    circuits: &[RelayCircuit],
    inflight: &[InflightAction],
    room: usize,
    state: RelayState,
    revoking: Revoking,
    rows: HnsrAnswer,
) -> Result<Walks, HnsrRuntimeError>
    ensures { (l : List ReservationUsage)
        → result ≡ entered revoking (state_seen state pending.now circuits.now l inflight.now) room rows }
{
    let waiting = survey(pending, state.places.pending, &revoking);
    let active = survey(circuits, state.places.circuits, &revoking);
    let short = room_short(room, waiting.used, active.used);
    let few = too_few(state.runtime.config, pending, circuits, inflight);
    let walks = Walks {
        revoking,
        pending: waiting.first,
        circuits: active.first,
    };
    let lent = check(short | few, HnsrRuntimeError::Short);
    lent.and(rows).and(Ok(walks))
}

// ---- the calls

// The peer's actions go, and the records that it is a side of end (DISC.2 to DISC.5).
pub fn disconnect(
    pending: &mut [RelayPending],
    circuits: &mut [RelayCircuit],
    inflight: &mut [InflightAction],
    out: &mut [u32],
    state: RelayState,
    peer: &[u8],
) -> Relayed
    ensures { (l : List ReservationUsage)
        → handed_seen result pending.new circuits.new l inflight.new out.new
        ≡ outcome out.old
        (step (state_seen state pending.old circuits.old l inflight.old)
        (call_disconnect peer.now (length out.old))) }
{
    let peer_id = HnsrPeerId::new(peer);
    let revoking = Revoking::Disconnected(peer_id);
    let named = peer_answer(peer.len());
    match entered(
        pending,
        circuits,
        inflight,
        out.len(),
        state,
        revoking,
        named,
    ) {
        Ok(walks) => {
            clear(inflight, state.places.actions, &Toward { peer: peer_id });
            revoke_all(pending, circuits, inflight, out, state, walks)
        }
        Err(error) => Relayed::refused(state, error),
    }
}

// The ledger record goes, and the records under the id end (RES.2, RES.3).
pub fn revoke_reservation(
    pending: &mut [RelayPending],
    circuits: &mut [RelayCircuit],
    ledger: &mut [ReservationUsage],
    inflight: &mut [InflightAction],
    out: &mut [u32],
    state: RelayState,
    id: ReservationId,
) -> Relayed
    ensures { handed_seen result pending.new circuits.new ledger.new inflight.new
        out.new
        ≡ outcome out.old
        (step (state_seen state pending.old circuits.old ledger.old
        inflight.old) (call_revoke_reservation id (length out.old))) }
{
    let revoking = Revoking::Reservation(id);
    match entered(
        pending,
        circuits,
        inflight,
        out.len(),
        state,
        revoking,
        Ok(()),
    ) {
        Ok(walks) => {
            drop_usage(ledger, state.places, id);
            revoke_all(pending, circuits, inflight, out, state, walks)
        }
        Err(error) => Relayed::refused(state, error),
    }
}

// What is over ends, in ledger, pending records and circuits (EXPIRE.3, EXPIRE.4).
pub fn expire(
    pending: &mut [RelayPending],
    circuits: &mut [RelayCircuit],
    ledger: &mut [ReservationUsage],
    inflight: &mut [InflightAction],
    out: &mut [u32],
    state: RelayState,
    time: u64,
) -> Relayed
    ensures { handed_seen result pending.new circuits.new ledger.new inflight.new
        out.new
        ≡ outcome out.old
        (step (state_seen state pending.old circuits.old ledger.old
        inflight.old) (call_expire time (length out.old))) }
{
    let revoking = Revoking::Expired(time);
    let clock = clock_answer(state.runtime.trusted_time_high_water, time);
    match entered(
        pending,
        circuits,
        inflight,
        out.len(),
        state,
        revoking,
        clock,
    ) {
        Ok(walks) => {
            let moved = state.with_runtime(state.runtime.with_clock(time));
            drop_lapsed(ledger, state.places, time);
            revoke_all(pending, circuits, inflight, out, moved, walks)
        }
        Err(error) => Relayed::refused(state, error),
    }
}

// SWITCH.4 to SWITCH.6: the state does change.
pub(crate) fn switch_to(
    pending: &mut [RelayPending],
    circuits: &mut [RelayCircuit],
    inflight: &mut [InflightAction],
    out: &mut [u32],
    state: RelayState,
    enabled: bool,
    walks: Walks,
) -> Relayed
    requires { (state.runtime.generation < 18446744073709551615)
        × (walks
        ≡ walks_of Disabled (held_pending state.places pending.old) (held_circuits state.places circuits.old)) }
    ensures { (l : List ReservationUsage)
        → handed_seen result pending.new circuits.new l inflight.new out.new
        ≡ ending out.old
        (switch_to (state_seen state pending.old circuits.old l inflight.old)
        enabled) }
{
    let switched = state.with_runtime(state.runtime.with_enabled(enabled));
    clear(inflight, state.places.actions, &InUse);
    if enabled {
        return Relayed::taken(switched);
    }
    revoke_all(pending, circuits, inflight, out, switched, walks)
}

// SWITCH.3 where the state is the one that it has.
pub fn replace_enabled(
    pending: &mut [RelayPending],
    circuits: &mut [RelayCircuit],
    inflight: &mut [InflightAction],
    out: &mut [u32],
    state: RelayState,
    expected_generation: u64,
    enabled: bool,
) -> Relayed
    ensures { (l : List ReservationUsage)
        → handed_seen result pending.new circuits.new l inflight.new out.new
        ≡ outcome out.old
        (step (state_seen state pending.old circuits.old l inflight.old)
        (call_replace_enabled expected_generation enabled (length out.old))) }
{
    let revoking = Revoking::Disabled;
    let current = generation_answer(state.runtime.generation, expected_generation);
    let changes = state.runtime.enabled != enabled;
    let rows = current.and(change_answer(state.runtime.generation, changes));
    match entered(
        pending,
        circuits,
        inflight,
        out.len(),
        state,
        revoking,
        rows,
    ) {
        Ok(walks) => {
            if changes {
                switch_to(pending, circuits, inflight, out, state, enabled, walks)
            } else {
                Relayed::taken(state)
            }
        }
        Err(error) => Relayed::refused(state, error),
    }
}
