// The ledger: a table's records, what is asked of one, what becomes of one, and the rows of OPEN that go by it.
ghost use Rattle.std.specs.Prelude.{◌≡◌, is_some};
ghost use Rattle.hnsr_circuit.specs.Ledger.{no_usage, is_usage, usage_at, clear_usage};
ghost use Rattle.hnsr_circuit.specs.Ledger.{fresh_usage, spent, ledger_answer, usage_answer};
ghost use Rattle.hnsr_circuit.specs.NextDue.{usage_expiry_of};
ghost use Rattle.hnsr_circuit.specs.Laws.Records.{usage_unused, usage_still};

use crate::answer::{HnsrAnswer, HnsrRuntimeError, check};
use crate::records::{RelayTicket, ReservationUsage};
use crate::tables::record::{TableRecord, Timed};
use crate::tables::scan::LedgerScan;
use hnsr_body::values::ReservationId;

impl TableRecord for ReservationUsage {
    ghost is_used = { is_usage };

    ghost unmarked = { clear_usage };

    ghost none = { no_usage };

    ghost unused = { usage_unused };

    ghost still = { usage_still };

    #[tactic(auto, unfolding(crate::specs::Ledger::is_usage))]
    fn is_used(&self) -> bool {
        self.used
    }

    fn unmarked(self) -> ReservationUsage {
        ReservationUsage {
            used: false,
            ..self
        }
    }

    fn none() -> ReservationUsage {
        ReservationUsage {
            used: false,
            reservation_id: ReservationId::NONE,
            bytes: 0,
            expires_at: 0,
        }
    }
}

impl Timed for ReservationUsage {
    ghost due_at = { usage_expiry_of };

    fn due_at(&self) -> u64 {
        self.expires_at
    }
}

// ---- questions: a line each over the record's own fields

#[tactic(auto, unfolding(crate::specs::Ledger::usage_at))]
pub(crate) fn usage_is(u: &ReservationUsage, id: ReservationId) -> bool
    ensures { result ≡ usage_at id u.now }
{
    u.used && u.reservation_id == id
}

// ---- changes

pub(crate) fn fresh_usage(ticket: RelayTicket) -> ReservationUsage
    ensures { result ≡ fresh_usage ticket }
{
    let reservation_id = ticket.reservation_id;
    ReservationUsage {
        used: true,
        reservation_id,
        bytes: 0,
        expires_at: ticket.expires_at,
    }
}

impl ReservationUsage {
    // DATA of n bytes.
    pub(crate) fn spend(&mut self, n: u64)
        ensures { self.new ≡ spent n self.old }
    {
        self.bytes = self.bytes.saturating_add(n);
    }
}

// ---- rows

// 23 (OPEN.9): no place for a new reservation
#[tactic(auto, unfolding(crate::specs::Ledger::ledger_answer))]
pub(crate) fn ledger_answer(ledger: LedgerScan) -> HnsrAnswer
    ensures { result ≡ ledger_answer (is_some ledger.found) ledger.used ledger.places }
{
    check(
        ledger.found.is_none() && ledger.places <= ledger.used,
        HnsrRuntimeError::LedgerFull,
    )
}

// 18 (OPEN.10): the reservation has another end, or no bytes left
#[tactic(auto, unfolding(crate::specs::Ledger::usage_answer))]
pub(crate) fn usage_answer(ticket: RelayTicket, usage: ReservationUsage) -> HnsrAnswer
    ensures { result ≡ usage_answer ticket usage }
{
    let differs = usage.expires_at != ticket.expires_at;
    let refused = differs || ticket.max_total_bytes <= usage.bytes;
    check(refused, HnsrRuntimeError::ByteLimit)
}
