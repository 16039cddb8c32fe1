// Lookups: the record at the lowest place that has what is asked, with its place.
ghost use Rattle.std.specs.Prelude.{◌≡◌};
ghost use Rattle.hnsr_circuit.specs.Code.Held.{held, held_pending, held_circuits, held_ledger, held_actions};
ghost use Rattle.hnsr_circuit.specs.Code.Lookup.{looked_up};

use crate::records::{InflightAction, RelayCircuit, RelayPending, ReservationUsage};
use crate::tables::places::Places;
use crate::tables::record::{Question, TableRecord};
use crate::tables::table;
use crate::tables::table::find;

// A record that was found, and its place.
#[derive(Clone, Copy)]
pub struct Found<R> {
    pub place: usize,
    pub row: R,
}

#[tactic(auto, using(crate::specs::Laws::Held::found_row))]
pub(crate) fn look_up<R: TableRecord, Q: Question<R>>(
    rows: &[R],
    number: usize,
    question: &Q,
) -> Option<Found<R>>
    ensures { result ≡ looked_up R.none (Q.holds question.now) (held R.unmarked number rows.now) }
{
    let place = find(rows, number, question)?;
    Some(Found {
        place,
        row: rows[place],
    })
}

// The numbers lowered past unused places: every table is seen as before.
pub(crate) fn trim(
    pending: &[RelayPending],
    circuits: &[RelayCircuit],
    ledger: &[ReservationUsage],
    inflight: &[InflightAction],
    places: Places,
) -> Places
    ensures { (held_pending result pending.now ≡ held_pending places pending.now)
        × (held_circuits result circuits.now ≡ held_circuits places circuits.now)
        × (held_ledger result ledger.now ≡ held_ledger places ledger.now)
        × (held_actions result inflight.now ≡ held_actions places inflight.now) }
{
    Places {
        pending: table::trim(pending, places.pending),
        circuits: table::trim(circuits, places.circuits),
        ledger: table::trim(ledger, places.ledger),
        actions: table::trim(inflight, places.actions),
    }
}
