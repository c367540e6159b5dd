// The orders that the host carries out.

// After a write the entry is clean.
#[derive(Clone, Copy)]
pub enum Kind {
    Write,
    Evict,
    Load,
}

#[derive(Clone, Copy)]
pub struct Order {
    pub kind: Kind,
    pub address: u64,
    pub size: u64,
}
