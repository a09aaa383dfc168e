use sheet::heads::{ClosedSheet, OpenSheet};

// A sheet, open or closed.
#[derive(Drop)]
pub enum Sheet {
    Open(OpenSheet),
    Closed(ClosedSheet),
}
