// The reasons of orders, in the words lent for them.
ghost use Rattle.std.specs.Prelude.{◌≡◌, ◌+◌, ◌≤◌, length};
ghost use Rattle.reason_rules.specs.Reasons.{reason_number};
ghost use Rattle.reasons.specs.Runs.{all_runs};
ghost use Rattle.explain.specs.Explanation.{reason_words};
ghost use Rattle.explain.specs.Putting.{orders_in, room_put};

use layout::fresh::fill_part;
use reason_rules::Reason;
use reasons::runs::{RoomRuns, Runs};

// The numbers of reasons in the words of the C function speldervacht_explain.
fn reason_number(reason: Reason) -> u64
    ensures { result ≡ reason_number reason }
{
    match reason {
        Reason::Bytes => 1,
        Reason::Rows => 2,
        Reason::Share => 3,
        Reason::Aged => 4,
        Reason::Flush => 5,
        Reason::Sync => 6,
        Reason::Load => 7,
    }
}

// The runs of one making of room, from a word on.
fn put_room(reasons: &mut [u64], from: usize, runs: RoomRuns)
    requires { from + runs.first + runs.share ≤ length reasons.old }
    ensures { reasons.new ≡ room_put from runs reasons.old }
{
    fill_part(reasons, from, runs.first, reason_number(runs.reason));
    let then = from + runs.first;
    fill_part(reasons, then, runs.share, reason_number(Reason::Share));
}

// All runs of a request, from the first word on.
pub fn put_runs(reasons: &mut [u64], runs: Runs)
    requires { orders_in runs ≤ length reasons.old }
    ensures { reasons.new ≡ reason_words (all_runs runs) reasons.old }
{
    put_room(reasons, 0, runs.room);
    let loads = runs.room.first + runs.room.share;
    fill_part(reasons, loads, runs.load, reason_number(Reason::Load));
    let ages = loads + runs.load;
    fill_part(reasons, ages, runs.aged, reason_number(Reason::Aged));
    let then = ages + runs.aged;
    put_room(reasons, then, runs.again);
}
