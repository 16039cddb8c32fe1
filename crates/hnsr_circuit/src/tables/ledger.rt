// What OPEN asks of the ledger.
ghost use Rattle.std.specs.Prelude.{◌≡◌};
ghost use Rattle.hnsr_circuit.specs.Code.Held.{held_ledger};
ghost use Rattle.hnsr_circuit.specs.Ledger.{lapsed};
ghost use Rattle.hnsr_circuit.specs.Code.Turns.{ledger_asked};

use crate::records::ReservationUsage;
use crate::tables::places::Places;
use crate::tables::question::Lapsed;
use crate::tables::scan::{LedgerScan, usage_scanned};
use crate::tables::table::{clear, in_use};
use hnsr_body::values::ReservationId;

// All that OPEN asks of the table, in one pass.
#[tactic(auto, using(hns_encoding::specs::Loops::fold_step, crate::specs::Laws::HeldTables::ledger_seen))]
pub(crate) fn scan_ledger(
    ledger: &[ReservationUsage],
    places: Places,
    id: ReservationId,
) -> LedgerScan
    ensures { result ≡ ledger_asked id (held_ledger places ledger.now) }
{
    let seen = in_use(ledger, places.ledger);
    let mut scan = LedgerScan::nothing(ledger.len());
    for (place, row) in seen.iter().enumerate() {
        scan = usage_scanned(scan, row, id, place);
    }
    scan.ended(seen.len())
}

// OPEN.12: lapsed ledger records lose their marks; no other record changes.
#[tactic(auto, unfolding(crate::specs::Ledger::lapsed))]
pub(crate) fn drop_lapsed(ledger: &mut [ReservationUsage], places: Places, time: u64)
    ensures { held_ledger places ledger.new ≡ lapsed time (held_ledger places ledger.old) }
{
    clear(ledger, places.ledger, &Lapsed { time });
}
