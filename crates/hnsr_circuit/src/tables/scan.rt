// What scans of a table find, and one turn of each: what it makes of what was found so far and of one more record. A
// record that is compared by its names is read where it stands.
ghost use Rattle.std.specs.Prelude.{◌≡◌, cond, true, ◌+◌, ◌<◌, ◌≤◌};
ghost use Rattle.hnsr_circuit.specs.Table.{next_turn};
ghost use Rattle.hnsr_circuit.specs.Inflight.{action_toward};
ghost use Rattle.hnsr_circuit.specs.NextDue.{earlier, due_turn};
ghost use Rattle.hnsr_circuit.specs.Code.Turns.{work_on, WorkAtMost, WorkMore};
ghost use Rattle.hnsr_circuit.specs.Code.Turns.{totalled, TallyAtMost, TallyMore, first_place, tally_on};
ghost use Rattle.hnsr_circuit.specs.Code.Turns.{scanned, scan_ended, no_ledger_scan, usage_scanned, ledger_ended};

use crate::peer::HnsrPeerId;
use crate::records::circuits::queued_in;
use crate::records::inflight::{action_is, action_toward};
use crate::records::ledger::usage_is;
use crate::records::{InflightAction, RelayCircuit, ReservationUsage};
use crate::tables::lookup::Found;
use crate::tables::record::{Numbered, Question, Timed};
use hnsr_body::values::ReservationId;

// How many actions stand in the way of a further one: all, those under its circuit, those toward its peer.
#[repr(C)]
#[derive(Clone, Copy, Default)]
pub struct InflightTally {
    pub total: usize,
    pub for_circuit: usize,
    pub for_peer: usize,
}

// How far a walk has come: the id and place of the last record that it took.
#[derive(Clone, Copy)]
pub struct Walked {
    pub id: u64,
    pub place: usize,
}

// What a revoking call asks of a table, in one pass: how many records are used, and the first that its walk takes.
#[derive(Clone, Copy)]
pub struct Survey {
    pub used: usize,
    pub first: Option<Walked>,
}

// What OPEN and ACCEPT ask of all records of a table: how many are used, are the work of two peers and of a
// reservation; whether one repeats an OPEN, and whether one holds an id.
#[derive(Clone, Copy)]
pub struct WorkQuestion {
    pub peer: HnsrPeerId,
    pub other: HnsrPeerId,
    pub reservation: ReservationId,
    pub context: u64,
    pub id: u64,
}

// Counts and tests of all records of a table, each read by a row of its own.
#[derive(Clone, Copy, Default)]
pub struct Work {
    pub used: usize,
    pub of_peer: usize,
    pub of_other: usize,
    pub under: usize,
    pub repeated: bool,
    pub holds: bool,
}

// What a message asks of all actions: the tally, whether its number stands there already and where, and the lowest
// unused place. Who stores no action by it, as a status, gives zeros for the number and reads no place.
#[derive(Clone, Copy)]
pub struct ActionQuestion {
    pub replacing: bool,
    pub circuit_id: u64,
    pub peer: HnsrPeerId,
    pub generation: u64,
    pub sequence: u64,
}

#[derive(Clone, Copy, Default)]
pub struct ActionScan {
    pub tally: InflightTally,
    pub found: Option<usize>,
    pub spare: Option<usize>,
}

// What OPEN asks of all ledger records: its own, if it is there; how many are used, the lowest unused place, and of how
// many places.
#[derive(Clone, Copy)]
pub struct LedgerScan {
    pub found: Option<Found<ReservationUsage>>,
    pub used: usize,
    pub spare: Option<usize>,
    pub places: usize,
}

// What `status` asks of all circuits: how many are used, and the bytes of their queues.
#[derive(Clone, Copy, Default)]
pub struct CircuitTotals {
    pub used: usize,
    pub queued_bytes: usize,
}

// A count at its top wraps, of which only `more` is said: no table has so many records.
pub(crate) fn one_more(counted: usize, has: bool) -> usize
    ensures counted { counted < 18446744073709551615 → result ≡ counted + cond has 1 0 }
    ensures more { result ≤ counted + 1 }
{
    if has {
        return counted.wrapping_add(1);
    }
    counted
}

// ---- walks

// A record that has what is asked is taken where it is above the cursor and better than the best before it.
pub(crate) fn next_turn<R: Numbered, Q: Question<R>>(
    question: &Q,
    cursor: Option<Walked>,
    best: Option<Walked>,
    row: &R,
    place: usize,
) -> Option<Walked>
    ensures { result ≡ next_turn R.id (Q.holds question.now) cursor best row.now place }
{
    let id = row.id();
    let above = match cursor {
        None => true,
        Some(last) => last.id < id || (last.id == id && last.place < place),
    };
    let better = match best {
        None => true,
        Some(best) => id < best.id,
    };
    if question.holds(row) && above && better {
        return Some(Walked { id, place });
    }
    best
}

// ---- how much work there is

pub(crate) fn work_on(
    work: Work,
    peer: bool,
    other: bool,
    under: bool,
    again: bool,
    is: bool,
) -> Work
    ensures counted { WorkAtMost 18446744073709551614 work → result ≡ work_on work peer other under again is }
    ensures more { WorkMore work result }
{
    Work {
        used: work.used.wrapping_add(1),
        of_peer: one_more(work.of_peer, peer),
        of_other: one_more(work.of_other, other),
        under: one_more(work.under, under),
        repeated: work.repeated || again,
        holds: work.holds || is,
    }
}

// ---- the earliest time

fn earlier(due: Option<u64>, time: u64) -> Option<u64>
    ensures { result ≡ earlier due time }
{
    Some(due.map_or(time, |before| before.min(time)))
}

#[tactic(auto, unfolding(crate::specs::NextDue::due_turn))]
pub(crate) fn due_turn<R: Timed>(due: Option<u64>, row: &R) -> Option<u64>
    ensures { result ≡ due_turn R.is_used R.due_at due row.now 0 }
{
    if row.is_used() {
        return earlier(due, row.due_at());
    }
    due
}

// ---- what `status` asks of the circuits

// The bytes are a sum that stops at its top.
#[tactic(auto, unfolding(crate::specs::Circuits::is_circuit))]
pub(crate) fn circuit_totalled(totals: CircuitTotals, row: &RelayCircuit) -> CircuitTotals
    requires { totals.used < 18446744073709551615 }
    ensures { result ≡ totalled totals row.now 0 }
{
    let queued = queued_in(row);
    CircuitTotals {
        used: one_more(totals.used, row.used),
        queued_bytes: totals.queued_bytes.saturating_add(queued),
    }
}

// ---- what a message asks of all actions

impl ActionScan {
    // The scan ended at a place: if that is one, it is unused.
    pub(crate) fn ended(self, place: usize, places: usize) -> Self
        ensures { result ≡ scan_ended self place places }
    {
        Self {
            spare: first_place(self.spare, place < places, place),
            ..self
        }
    }
}

// The first place that has what is asked.
fn first_place(found: Option<usize>, here: bool, place: usize) -> Option<usize>
    ensures { result ≡ first_place found here place }
{
    found.or(here.then_some(place))
}

// Whether an action goes to the peer that is asked for. A function of its own: with it a turn would be too large to be
// compiled into its loop, and what was found so far would go through memory.
pub(crate) fn toward_asked(row: &InflightAction, question: &ActionQuestion) -> bool
    ensures { result ≡ action_toward question.now.peer row.now }
{
    action_toward(row, &question.peer)
}

// A used action in the tally; one that is replaced is counted nowhere.
#[tactic(auto, unfolding(crate::specs::Code::Turns::tally_turn, crate::specs::Inflight::action_under))]
pub(crate) fn tally_on(
    tally: InflightTally,
    row: &InflightAction,
    question: &ActionQuestion,
    toward: bool,
) -> InflightTally
    requires { TallyAtMost 18446744073709551614 tally × (toward ≡ action_toward question.now.peer row.now) }
    ensures counted { row.now.used ≡ true → result ≡ tally_on question.now tally row.now 0 }
    ensures more { TallyMore tally result }
{
    let mine = row.circuit_id == question.circuit_id;
    if question.replacing && mine {
        return tally;
    }
    InflightTally {
        total: tally.total + 1,
        for_circuit: one_more(tally.for_circuit, mine),
        for_peer: one_more(tally.for_peer, toward),
    }
}

#[tactic(auto, using(crate::specs::Laws::Turns::action_laws))]
pub(crate) fn action_scanned(
    scan: ActionScan,
    row: &InflightAction,
    question: &ActionQuestion,
    toward: bool,
    place: usize,
) -> ActionScan
    requires { TallyAtMost 18446744073709551614 scan.tally
        × (toward ≡ action_toward question.now.peer row.now) }
    ensures scanned { result ≡ scanned question.now scan row.now place }
    ensures more { TallyMore scan.tally result.tally }
{
    if row.used {
        let numbered = action_is(row, question.generation, question.sequence);
        ActionScan {
            tally: tally_on(scan.tally, row, question, toward),
            found: first_place(scan.found, numbered, place),
            ..scan
        }
    } else {
        ActionScan {
            spare: first_place(scan.spare, true, place),
            ..scan
        }
    }
}

// ---- what OPEN asks of the ledger

impl LedgerScan {
    pub(crate) fn nothing(places: usize) -> Self
        ensures { result ≡ no_ledger_scan places }
    {
        Self {
            found: None,
            used: 0,
            spare: None,
            places,
        }
    }

    // The scan ended at a place: if that is one, it is unused.
    pub(crate) fn ended(self, place: usize) -> Self
        ensures { result ≡ ledger_ended self place }
    {
        Self {
            spare: first_place(self.spare, place < self.places, place),
            ..self
        }
    }
}

#[tactic(auto, unfolding(crate::specs::Ledger::is_usage))]
pub(crate) fn usage_scanned(
    scan: LedgerScan,
    row: &ReservationUsage,
    id: ReservationId,
    place: usize,
) -> LedgerScan
    requires { scan.used < 18446744073709551615 }
    ensures scanned { result ≡ usage_scanned id scan row.now place }
    ensures more { result.used ≤ scan.used + 1 }
{
    let first = scan.found.is_none() && usage_is(row, id);
    LedgerScan {
        found: if first {
            Some(Found { place, row: *row })
        } else {
            scan.found
        },
        used: one_more(scan.used, row.used),
        spare: first_place(scan.spare, !row.used, place),
        places: scan.places,
    }
}
