// An entry.

// A hold: free, read by 1 to 65,535 readers, or held for writing.
#[derive(Clone, Copy)]
pub enum Hold {
    Unheld,
    Readers(u64),
    Writer,
}

#[derive(Clone, Copy)]
pub struct Entry {
    // Any 64-bit number but all ones.
    pub address: u64,
    // 1 to 134,217,728 bytes.
    pub size: u64,
    // The mark: dirty or clean.
    pub dirty: bool,
    // Epochs since the last use, 0 to 10.
    pub idle: u64,
    // The pin mark.
    pub pinned: bool,
    pub hold: Hold,
}
