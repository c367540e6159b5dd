// The requests, each with its own particulars.
use settings::Settings;

// What an entry is protected for.
#[derive(Clone, Copy)]
pub enum Access {
    Reading,
    Writing,
}

// Take's message is lent beside the request.
#[derive(Clone, Copy)]
pub enum Request {
    Insert {
        address: u64,
        size: u64,
    },
    Protect {
        access: Access,
        address: u64,
        size: u64,
    },
    // Release, unchanged.
    Release {
        address: u64,
    },
    // Release, changed, with the size that the entry now has.
    ReleaseChanged {
        address: u64,
        size: u64,
    },
    Pin {
        address: u64,
    },
    Unpin {
        address: u64,
    },
    Resize {
        address: u64,
        size: u64,
    },
    Discard {
        address: u64,
    },
    Flush,
    Sync,
    Take,
    Configure(Settings),
}
