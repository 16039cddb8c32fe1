// What the four tables ask of their records, and what a question on one is. An unused record answers no question.
ghost use Rattle.std.specs.Prelude.{◌≡◌, ℕ, Bool, List, false};
ghost use Rattle.hns_encoding.specs.Loops.{fold_from};
ghost use Rattle.hnsr_circuit.specs.declared.tables.scan.Work.{Work};
ghost use Rattle.hnsr_circuit.specs.declared.tables.scan.WorkQuestion.{WorkQuestion};
ghost use Rattle.hnsr_circuit.specs.Code.Turns.{no_work, WorkAtMost, WorkMore};

use crate::tables::scan::{Work, WorkQuestion};

// A record with its used mark. Past the end of a table stands none.
pub trait TableRecord: Copy {
    ghost is_used: { Self → Bool };

    ghost unmarked: { Self → Self };

    ghost none: { Self };

    fn is_used(&self) -> bool
        ensures { result ≡ is_used self.now };

    // The mark cleared, and nothing else.
    fn unmarked(self) -> Self
        ensures { result ≡ unmarked self };

    fn none() -> Self
        ensures { result ≡ none };

    ghost unused: { (row : Self) → is_used (unmarked row) ≡ false };

    ghost still: { (row : Self) → is_used row ≡ false → unmarked row ≡ row };
}

// A question that is asked of each record where it stands.
pub trait Question<R: TableRecord> {
    ghost holds: { Self → R → Bool };

    fn holds(&self, row: &R) -> bool
        ensures { result ≡ holds self.now row.now };

    ghost of_used: { (question : Self) (row : R) → holds question (R.unmarked row) ≡ false };
}

// A record that walks take by its id.
pub trait Numbered: TableRecord {
    ghost id: { Self → ℕ };

    fn id(&self) -> u64
        ensures { result ≡ id self.now };
}

// A record whose time comes.
pub trait Timed: TableRecord {
    ghost due_at: { Self → ℕ };

    fn due_at(&self) -> u64
        ensures { result ≡ due_at self.now };
}

// A record that is the work of peers and of a reservation.
pub trait Worked: TableRecord {
    ghost work: { WorkQuestion → List Self → Work };

    ghost worked: { WorkQuestion → Work → Self → ℕ → Work };

    // The work that was counted so far, and this record's.
    fn worked(&self, so_far: Work, question: &WorkQuestion) -> Work
        ensures counted { WorkAtMost 18446744073709551614 so_far → result ≡ worked question.now so_far self.now 0 }
        ensures more { WorkMore so_far result };

    ghost anywhere: { (question : WorkQuestion) (w : Work) (row : Self) (place : ℕ)
        → worked question w row 0 ≡ worked question w row place };

    ghost folds: { (question : WorkQuestion) (rows : List Self)
        → fold_from (worked question) rows 0 no_work ≡ work question rows };

    ghost idle: { (question : WorkQuestion) (w : Work) (row : Self) (place : ℕ)
        → worked question w (Self.unmarked row) place ≡ w };
}
