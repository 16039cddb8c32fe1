// Stores: what becomes of the record that a lookup finds, or of a new one, in the table that holds it.
ghost use Rattle.std.specs.Prelude.{◌≡◌, set, get_or, ◌<◌, ◌+◌};
ghost use Rattle.hnsr_circuit.specs.Table.{put, edit};
ghost use Rattle.hnsr_circuit.specs.Ledger.{no_usage, usage_at, clear_usage, spent};
ghost use Rattle.hnsr_circuit.specs.declared.tables.places.Places.{Places};
ghost use Rattle.hnsr_circuit.specs.Code.Held.{held, held_circuits, held_ledger};
ghost use Rattle.hnsr_circuit.specs.Circuits.{no_circuit, clear_circuit, credit_of, other_side};
ghost use Rattle.hnsr_circuit.specs.Circuits.{charged, raised, is_circuit, circuit_at, lowered};

use crate::records::{RelayCircuit, RelaySide, ReservationUsage};
use crate::tables::places::Places;
use crate::tables::question::{ById, ByReservation};
use crate::tables::table::{find, put, put_new, unmark};
use hnsr_body::values::ReservationId;

// A circuit goes where TAB.6 has it.
pub(crate) fn put_circuit(
    circuits: &mut [RelayCircuit],
    places: Places,
    id: u64,
    row: RelayCircuit,
) -> usize
    ensures { held clear_circuit result circuits.new
        ≡ put is_circuit (circuit_at id) row (held_circuits places circuits.old) }
{
    match find(circuits, places.circuits, &ById { id }) {
        Some(place) => put(circuits, places.circuits, place, row),
        None => put_new(circuits, places.circuits, row),
    }
}

// The ledger record of a reservation, dropped.
#[tactic(auto, using(crate::specs::Laws::HeldTables::usage_edit, crate::specs::Laws::Edits::edit_missed))]
pub(crate) fn drop_usage(ledger: &mut [ReservationUsage], places: Places, id: ReservationId)
    ensures { held_ledger places ledger.new
        ≡ edit (usage_at id) clear_usage (held_ledger places ledger.old) }
{
    if let Some(place) = find(ledger, places.ledger, &ByReservation { id }) {
        unmark(ledger, places.ledger, place);
    }
}

// The queue toward a side, lowered.
#[tactic(auto, using(crate::specs::Laws::HeldTables::lowered_laws))]
pub(crate) fn lower_circuit(
    circuits: &mut [RelayCircuit],
    places: Places,
    id: u64,
    side: RelaySide,
    n: usize,
)
    ensures { held_circuits places circuits.new
        ≡ edit (circuit_at id) (lowered side n) (held_circuits places circuits.old) }
{
    if let Some(place) = find(circuits, places.circuits, &ById { id }) {
        circuits[place].lower(side, n);
    }
}

// ---- a record changed in place, however many places are in use

// DATA of n bytes from a side (DATA.9).
#[tactic(auto, using(crate::specs::Laws::HeldTables::charged_held, crate::specs::Laws::Held::set_beyond))]
pub(crate) fn charge_circuit(circuits: &mut [RelayCircuit], place: usize, side: RelaySide, n: usize)
    ensures { (places : Places)
        → held_circuits places circuits.new
        ≡ set (held_circuits places circuits.old) place
        (charged side n (get_or (held_circuits places circuits.old) place no_circuit)) }
{
    if place < circuits.len() {
        circuits[place].charge(side, n);
    }
}

// WINDOW.7.
#[tactic(auto, using(crate::specs::Laws::HeldTables::raised_held, crate::specs::Laws::Held::set_beyond))]
pub(crate) fn raise_circuit(
    circuits: &mut [RelayCircuit],
    place: usize,
    side: RelaySide,
    delta: u32,
)
    ensures { (places : Places)
        → credit_of (other_side side) (get_or (held_circuits places circuits.old) place no_circuit) + delta
        < 4294967296
        → held_circuits places circuits.new
        ≡ set (held_circuits places circuits.old) place
        (raised side delta (get_or (held_circuits places circuits.old) place no_circuit)) }
{
    if place < circuits.len() {
        circuits[place].raise(side, delta);
    }
}

// DATA of n bytes.
#[tactic(auto, using(crate::specs::Laws::HeldTables::spent_held, crate::specs::Laws::Held::set_beyond))]
pub(crate) fn spend(ledger: &mut [ReservationUsage], place: usize, n: u64)
    ensures { (places : Places)
        → held_ledger places ledger.new
        ≡ set (held_ledger places ledger.old) place (spent n (get_or (held_ledger places ledger.old) place no_usage)) }
{
    if place < ledger.len() {
        ledger[place].spend(n);
    }
}
