// How many places of each lent table are in use, by value. A place is used exactly if its record's mark is set and it
// lies below its table's number.
ghost use Rattle.std.specs.Prelude.{◌≡◌};
ghost use Rattle.hnsr_circuit.specs.Code.Held.{raised_to};

#[repr(C)]
#[derive(Clone, Copy)]
pub struct Places {
    pub pending: usize,
    pub circuits: usize,
    pub ledger: usize,
    pub actions: usize,
}

impl Places {
    // None is in use: a table's marks mean nothing.
    pub(crate) const NONE: Self = Self {
        pending: 0,
        circuits: 0,
        ledger: 0,
        actions: 0,
    };

    // The marks alone decide, as in tables of unknown origin.
    pub(crate) const EVERY: Self = Self {
        pending: usize::MAX,
        circuits: usize::MAX,
        ledger: usize::MAX,
        actions: usize::MAX,
    };
}

// The number after a store at a place, which is below it or is it.
pub(crate) fn raised(number: usize, place: usize, size: usize) -> usize
    ensures { result ≡ raised_to number place size }
{
    if place < size && number <= place {
        return place + 1;
    }
    number
}
