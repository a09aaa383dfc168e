ghost use Rattle.std.specs.Prelude.{◌≤◌};

// The head of an open sheet: it holds the number of rows, and nothing of the rows themselves, which
// come with each call as two slices of that length. A head is moved and never copied.
#[derive(Drop)]
pub struct OpenSheet {
    pub(crate) len: usize,
    ghost few: { (1 ≤ len) × (len ≤ 4096) },
}

// The head of a closed sheet.
// Stays a type of its own beside `OpenSheet`, so that a call that the sheet has not does not compile.
#[derive(Drop)]
pub struct ClosedSheet {
    pub(crate) len: usize,
    ghost few: { (1 ≤ len) × (len ≤ 4096) },
}
