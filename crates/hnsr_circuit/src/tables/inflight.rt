// What a message asks of the outstanding actions, and the actions of a circuit dropped.
ghost use Rattle.std.specs.Prelude.{◌≡◌};
ghost use Rattle.hnsr_circuit.specs.Code.Held.{held_actions};
ghost use Rattle.hnsr_circuit.specs.Inflight.{clear_action, action_under, dropped};
ghost use Rattle.hnsr_circuit.specs.Table.{cleared};
ghost use Rattle.hnsr_circuit.specs.Code.Turns.{actions_scanned};

use crate::records::InflightAction;
use crate::records::inflight::action_under;
use crate::tables::places::Places;
use crate::tables::record::TableRecord;
use crate::tables::scan::{ActionQuestion, ActionScan, action_scanned, toward_asked};
use crate::tables::table::in_use;

// All that a message asks of the table, in one pass.
#[tactic(auto, using(hns_encoding::specs::Loops::fold_step, crate::specs::Laws::HeldTables::actions_seen))]
pub(crate) fn scan_actions(
    inflight: &[InflightAction],
    places: Places,
    question: ActionQuestion,
) -> ActionScan
    ensures { result ≡ actions_scanned question (held_actions places inflight.now) }
{
    let seen = in_use(inflight, places.actions);
    let mut scan = ActionScan::default();
    for (place, row) in seen.iter().enumerate() {
        let toward = toward_asked(row, &question);
        scan = action_scanned(scan, row, &question, toward, place);
    }
    scan.ended(seen.len(), inflight.len())
}

fn drop_under(row: &mut InflightAction, id: u64)
    ensures { row.new ≡ cleared clear_action (action_under id) row.old }
{
    if action_under(row, id) {
        *row = row.unmarked();
    }
}

// The actions of a circuit dropped, and all that a message asks of what is left, in one pass.
pub(crate) fn drop_and_scan(
    inflight: &mut [InflightAction],
    places: Places,
    id: u64,
    question: ActionQuestion,
) -> ActionScan
    ensures { (held_actions places inflight.new
        ≡ dropped (action_under id) (held_actions places inflight.old))
        × (result ≡ actions_scanned question (dropped (action_under id) (held_actions places inflight.old))) }
{
    let size = inflight.len();
    let end = places.actions.min(size);
    let mut scan = ActionScan::default();
    for (place, row) in inflight[..end].iter_mut().enumerate() {
        drop_under(row, id);
        let toward = toward_asked(row, &question);
        scan = action_scanned(scan, row, &question, toward, place);
    }
    scan.ended(end, size)
}
