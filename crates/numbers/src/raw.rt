// The structs of include/speldervacht.h: the same words of 8 bytes in the same order.
//
// What the header names by a first word, as increase_kind and increase_lower, is a struct here, as
// increase.kind and increase.lower. In C that has the same place and the same size.

// An increase rule: 0 off, 1 by threshold.
#[repr(C)]
#[derive(Clone, Copy)]
pub struct RawIncrease {
    pub kind: u64,
    pub lower: f64,
    pub multiplier: f64,
}

// A cap on one change of the maximum: 0 none, 1 up to.
#[repr(C)]
#[derive(Clone, Copy)]
pub struct RawCap {
    pub kind: u64,
    pub bytes: u64,
}

// A flash rule: 0 off, 1 on.
#[repr(C)]
#[derive(Clone, Copy)]
pub struct RawFlash {
    pub kind: u64,
    pub multiple: f64,
    pub threshold: f64,
}

// A decrease rule: 0 off, 1 by threshold, 2 by age-out, 3 by age-out with threshold.
#[repr(C)]
#[derive(Clone, Copy)]
pub struct RawDecrease {
    pub kind: u64,
    pub upper: f64,
    pub multiplier: f64,
    pub epochs: u64,
    pub reserve: f64,
}

// struct speldervacht_settings
#[repr(C)]
#[derive(Clone, Copy)]
pub struct RawSettings {
    pub evictions: u64,
    pub preset: u64,
    pub initial: u64,
    pub clean: f64,
    pub largest: u64,
    pub smallest: u64,
    pub epoch: u64,
    pub increase: RawIncrease,
    pub increment: RawCap,
    pub flash: RawFlash,
    pub decrease: RawDecrease,
    pub decrement: RawCap,
}

// struct speldervacht_request
#[repr(C)]
#[derive(Clone, Copy)]
pub struct RawRequest {
    pub kind: u64,
    pub address: u64,
    pub size: u64,
    pub settings: RawSettings,
}

// struct speldervacht_answer
#[repr(C)]
#[derive(Clone, Copy)]
pub struct RawAnswer {
    pub number: u64,
    pub field: u64,
    pub orders: u64,
}

// struct speldervacht_explanation
#[repr(C)]
#[derive(Clone, Copy)]
pub struct RawExplanation {
    pub number: u64,
    pub field: u64,
    pub orders: u64,
    pub cause: u64,
    pub bound: u64,
}

// struct speldervacht_batched
#[repr(C)]
#[derive(Clone, Copy)]
pub struct RawBatched {
    pub number: u64,
    pub done: u64,
    pub orders: u64,
}

// struct speldervacht_verdict
#[repr(C)]
#[derive(Clone, Copy)]
pub struct RawVerdict {
    pub number: u64,
    pub field: u64,
}

// struct speldervacht_figures
#[repr(C)]
#[derive(Clone, Copy)]
pub struct RawFigures {
    pub number: u64,
    pub held: u64,
    pub dirty: u64,
    pub entries: u64,
    pub maximum: u64,
    pub clean: u64,
    pub missing: u64,
    pub count: u64,
    pub due: u64,
    pub next: u64,
    pub totals: [u64; 11],
}

// struct speldervacht_written
#[repr(C)]
#[derive(Clone, Copy)]
pub struct RawWritten {
    pub number: u64,
    pub bytes: u64,
}
