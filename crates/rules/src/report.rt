// The report of a cache.

#[derive(Clone, Copy)]
pub struct Report {
    // Held bytes: the sum of all sizes.
    pub held: u64,
    // The bytes of the dirty entries.
    pub dirty: u64,
    pub entries: u64,
    pub maximum: u64,
    // Minimum clean bytes.
    pub clean: u64,
    // The bytes that the clean share lacks, with nothing incoming; 0 where it is met.
    pub missing: u64,
    // The byte count since the last list.
    pub count: u64,
    // Whether a list is due.
    pub due: bool,
    // The number of the next list; 0 when none is left, as a word of the table and C have it.
    pub next: u64,
    // The bytes of the entries with each idle count, 0 to 10.
    pub totals: [u64; 11],
}
