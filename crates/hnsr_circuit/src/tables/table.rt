// A lent table, of any records: these functions, and those of circuits.rt, ledger.rt and inflight.rt, are
// the only ones that index one. Only places below its number are in use, whatever the marks above; a place past the end
// has no record, and a store there stores nothing. A table and its number are two parameters: the numbers of all four
// are one value, `Places`, which lies as in C.
ghost use Rattle.std.specs.Prelude.{◌≡◌, ◌<◌, ◌≤◌, length, get_or, set, take, IfSome};
ghost use Rattle.hns_encoding.specs.Sums.{count, non};
ghost use Rattle.hnsr_circuit.specs.Code.Held.{held};
ghost use Rattle.hnsr_circuit.specs.Table.{place_of, place_in, clear, not_yet, next};
ghost use Rattle.hnsr_circuit.specs.NextDue.{due_in};

use crate::tables::places::raised;
use crate::tables::record::{Numbered, Question, TableRecord, Timed, Worked};
use crate::tables::scan::{Survey, Walked, Work, WorkQuestion, due_turn, next_turn, one_more};

// The places below the number.
pub(crate) fn in_use<'a, R>(rows: &'a [R], number: usize) -> &'a [R]
    ensures { result.now ≡ take number rows.now }
{
    &rows[..number.min(rows.len())]
}

// The lowest unused place, else the number of places.
pub(crate) fn spare<R: TableRecord>(rows: &[R], number: usize) -> usize
    ensures { result ≡ place_of (non R.is_used) (held R.unmarked number rows.now) }
{
    let seen = in_use(rows, number);
    seen.iter()
        .position(|row| !row.is_used())
        .unwrap_or(seen.len())
}

// The lowest place whose record has what is asked.
pub(crate) fn find<R: TableRecord, Q: Question<R>>(
    rows: &[R],
    number: usize,
    question: &Q,
) -> Option<usize>
    ensures found { result ≡ place_in (Q.holds question.now) (held R.unmarked number rows.now) }
    ensures within { IfSome result (λ place. (place < number) × (place < length rows.now)) }
{
    in_use(rows, number)
        .iter()
        .position(|row| question.holds(row))
}

// How many records have what is asked.
pub(crate) fn count<R: TableRecord, Q: Question<R>>(
    rows: &[R],
    number: usize,
    question: &Q,
) -> usize
    ensures { result ≡ count (Q.holds question.now) (held R.unmarked number rows.now) }
{
    in_use(rows, number)
        .iter()
        .filter(|row| question.holds(row))
        .count()
}

#[tactic(auto, using(crate::specs::Laws::Held::held_laws))]
pub(crate) fn at<R: TableRecord>(rows: &[R], number: usize, place: usize) -> R
    ensures { result ≡ get_or (held R.unmarked number rows.now) place R.none }
{
    match rows.get(place) {
        Some(row) if place < number => *row,
        Some(row) => row.unmarked(),
        None => R::none(),
    }
}

// By index: what `get_mut` says of the slice behind it the check does not find by itself.
pub(crate) fn set<R: Copy>(rows: &mut [R], place: usize, row: R)
    ensures { rows.new ≡ set rows.old place row }
{
    if place < rows.len() {
        rows[place] = row;
    }
}

// A record stored at the number at most, and the number after it.
#[tactic(auto, using(crate::specs::Laws::Held::put_held))]
pub(crate) fn put<R: TableRecord>(rows: &mut [R], number: usize, place: usize, row: R) -> usize
    requires { place < length rows.old → place ≤ number }
    ensures { held R.unmarked result rows.new ≡ set (held R.unmarked number rows.old) place row }
{
    set(rows, place, row);
    raised(number, place, rows.len())
}

// A record at the lowest unused place, and the number after it.
#[tactic(auto, using(crate::specs::Laws::Held::place_upto))]
pub(crate) fn put_new<R: TableRecord>(rows: &mut [R], number: usize, row: R) -> usize
    ensures { held R.unmarked result rows.new
        ≡ set (held R.unmarked number rows.old) (place_of (non R.is_used) (held R.unmarked number rows.old)) row }
{
    let place = spare(rows, number);
    put(rows, number, place, row)
}

// The mark of the record at a place cleared.
#[tactic(auto, using(crate::specs::Laws::Held::unmarked_held))]
pub(crate) fn unmark<R: TableRecord>(rows: &mut [R], number: usize, place: usize)
    ensures stored { rows.new
        ≡ set rows.old place (R.unmarked (get_or (held R.unmarked number rows.old) place R.none)) }
    ensures seen { held R.unmarked number rows.new
        ≡ set (held R.unmarked number rows.old) place
        (R.unmarked (get_or (held R.unmarked number rows.old) place R.none)) }
{
    let row = at(rows, number, place);
    set(rows, place, row.unmarked());
}

// The mark cleared of every record that has what is asked; no other record changes.
#[tactic(auto, using(crate::specs::Laws::Held::clear_laws))]
pub(crate) fn clear<R: TableRecord, Q: Question<R>>(rows: &mut [R], number: usize, question: &Q)
    ensures { held R.unmarked number rows.new
        ≡ clear R.unmarked (Q.holds question.now) (held R.unmarked number rows.old) }
{
    let end = number.min(rows.len());
    for row in &mut rows[..end] {
        if question.holds(row) {
            *row = row.unmarked();
        }
    }
}

// Of the records that have what is asked, above the cursor, the one with the least id and place.
#[tactic(auto, unfolding(crate::specs::Table::next), using(crate::specs::Laws::Held::scan_laws))]
pub(crate) fn next<R: Numbered, Q: Question<R>>(
    rows: &[R],
    number: usize,
    question: &Q,
    cursor: Option<Walked>,
) -> Option<Walked>
    ensures { result ≡ next R.id (Q.holds question.now) cursor (held R.unmarked number rows.now) }
{
    let seen = in_use(rows, number);
    let mut best = None;
    for (place, row) in seen.iter().enumerate() {
        best = next_turn(question, cursor, best, row, place);
    }
    best
}

// How many records are used, and the first that a walk of the question takes, in one pass.
pub(crate) fn survey<R: Numbered, Q: Question<R>>(rows: &[R], number: usize, question: &Q) -> Survey
    ensures { (result.used ≡ count R.is_used (held R.unmarked number rows.now))
        × (result.first ≡ next R.id (Q.holds question.now) not_yet (held R.unmarked number rows.now)) }
{
    let seen = in_use(rows, number);
    let mut used: usize = 0;
    let mut first = None;
    for (place, row) in seen.iter().enumerate() {
        used = one_more(used, row.is_used());
        first = next_turn(question, None, first, row, place);
    }
    Survey { used, first }
}

// All that OPEN and ACCEPT ask of the table, in one pass.
#[tactic(auto, using(crate::specs::Laws::Held::scan_laws))]
pub(crate) fn work<R: Worked>(rows: &[R], number: usize, question: &WorkQuestion) -> Work
    ensures { result ≡ R.work question.now (held R.unmarked number rows.now) }
{
    let seen = in_use(rows, number);
    let mut work = Work::default();
    for row in seen {
        work = row.worked(work, question);
    }
    work
}

// The earlier of a time and of the times of the used records.
#[tactic(auto, unfolding(crate::specs::NextDue::due_turn), using(crate::specs::Laws::Held::scan_laws))]
pub(crate) fn due<R: Timed>(rows: &[R], number: usize, due: Option<u64>) -> Option<u64>
    ensures { result ≡ due_in R.is_used R.due_at (held R.unmarked number rows.now) due }
{
    let seen = in_use(rows, number);
    let mut earliest = due;
    for row in seen {
        earliest = due_turn(earliest, row);
    }
    earliest
}

// The number lowered past the unused places below it, to behind the last used one.
pub(crate) fn trim<R: TableRecord>(rows: &[R], number: usize) -> usize
    ensures { held R.unmarked result rows.now ≡ held R.unmarked number rows.now }
{
    let seen = in_use(rows, number);
    let unused = seen.iter().rev().position(|row| row.is_used());
    seen.len() - unused.unwrap_or(seen.len())
}
