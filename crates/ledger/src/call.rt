ghost use Rattle.std.specs.Prelude.{◌≡◌};
ghost use Rattle.ledger.specs.Ledgers.{own_call};

// A call on a sheet, with its arguments. Rows are numbered from 0.
#[derive(Clone, Copy, PartialEq, Debug)]
pub enum Call<K> {
    Enter(usize, K),
    On(usize),
    OnAll,
    Back(usize),
    Clear(usize),
    Read(usize),
    Close,
    Reopen,
    Total,
    Mean,
    Exceeds(K),
}

// A call of a list, with the lengths of the two slices that it brings. Both are the sheet's where it
// brings the sheet's own slices; any other memory is refused.
#[derive(Clone, Copy, PartialEq, Debug)]
pub struct Listed<K> {
    pub marks: usize,
    pub figures: usize,
    pub call: Call<K>,
}

impl<K> Listed<K> {
    // A call that brings the two slices of a sheet of so many rows.
    pub fn own(rows: usize, call: Call<K>) -> Listed<K>
        ensures { result ≡ own_call rows call }
    {
        Listed {
            marks: rows,
            figures: rows,
            call,
        }
    }
}
