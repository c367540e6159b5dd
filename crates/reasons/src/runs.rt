// A request's orders by runs: orders one after the other that have one reason.
ghost use Rattle.std.specs.Prelude.{◌≡◌, [], replicate, if◌then◌else◌};
ghost use Rattle.reason_rules.specs.declared.Reason.TheVariants as reason;
ghost use Rattle.reasons.specs.Runs.{room_runs, all_runs};

use reason_rules::{Change, Reason};

// The orders of one making of room: those of the first step, and those for the clean share. Where there are none, no order has the reason.
#[derive(Clone, Copy)]
pub struct RoomRuns {
    pub reason: Reason,
    pub first: usize,
    pub share: usize,
}

// The orders of a request: room, a load, those aged out, and room again.
#[derive(Clone, Copy)]
pub struct Runs {
    pub room: RoomRuns,
    pub load: usize,
    pub aged: usize,
    pub again: RoomRuns,
}

// What the work of a request tells.
#[derive(Clone, Copy)]
pub struct Done {
    // The number after the orders given.
    pub given: usize,
    pub runs: Runs,
    // Of the maximum.
    pub change: Option<Change>,
}

// Where bytes and rows both press, the reason is bytes.
pub fn pressing(exceeded: bool) -> Reason
    ensures { result ≡ (if exceeded then reason.Bytes else reason.Rows) }
{
    if exceeded {
        Reason::Bytes
    } else {
        Reason::Rows
    }
}

// No orders.
pub fn no_runs() -> RoomRuns
    ensures { room_runs result ≡ [] }
{
    RoomRuns {
        reason: Reason::Rows,
        first: 0,
        share: 0,
    }
}

// The orders of one making of room alone.
pub fn room_alone(room: RoomRuns) -> Runs
    ensures { all_runs result ≡ room_runs room }
{
    Runs {
        room,
        load: 0,
        aged: 0,
        again: no_runs(),
    }
}

// So many orders with one reason.
pub fn one_run(reason: Reason, count: usize) -> Runs
    ensures { all_runs result ≡ replicate count reason }
{
    room_alone(RoomRuns {
        reason,
        first: count,
        share: 0,
    })
}

// Work that gave no orders.
pub fn no_orders(change: Option<Change>) -> Done
    ensures { (result.given ≡ 0) × (all_runs result.runs ≡ []) × (result.change ≡ change) }
{
    Done {
        given: 0,
        runs: room_alone(no_runs()),
        change,
    }
}
