// The request that numbers stand for. A number that is no kind stands for none.
ghost use Rattle.std.specs.Prelude.{◌≡◌};
ghost use Rattle.std.specs.Result.{result_ok};
ghost use Rattle.numbers.specs.Meanings.{asked, plain_of, asked_of_raw};

use crate::raw::RawRequest;
use rules::request::{Access, Request};

// The request that a kind, an address and a size are enough for. It takes three numbers, since a batch lends no struct.
#[tactic(auto, unfolding(crate::specs::Meanings::plain_of, crate::specs::Meanings::meaning))]
pub fn plain_request(kind: u64, address: u64, size: u64) -> Option<Request>
    ensures { result ≡ asked (plain_of kind address size) }
{
    match kind {
        1 => Some(Request::Insert { address, size }),
        2 => Some(Request::Protect {
            access: Access::Reading,
            address,
            size,
        }),
        3 => Some(Request::Protect {
            access: Access::Writing,
            address,
            size,
        }),
        4 => Some(Request::Release { address }),
        5 => Some(Request::ReleaseChanged { address, size }),
        6 => Some(Request::Pin { address }),
        7 => Some(Request::Unpin { address }),
        8 => Some(Request::Resize { address, size }),
        9 => Some(Request::Discard { address }),
        10 => Some(Request::Flush),
        11 => Some(Request::Sync),
        _ => None,
    }
}

// The kind is none of 1 to 13.
#[derive(Clone, Copy)]
pub struct UnknownKind;

impl TryFrom<RawRequest> for Request {
    type Error = UnknownKind;

    ghost try_from_gives = { λ w r. result_ok r ≡ asked_of_raw w };

    #[tactic(auto, unfolding(crate::specs::Meanings::asked_of_raw, crate::specs::Meanings::meaning))]
    fn try_from(w: RawRequest) -> Result<Request, UnknownKind> {
        match w.kind {
            12 => Ok(Request::Take),
            13 => Ok(Request::Configure(w.settings.into())),
            _ => plain_request(w.kind, w.address, w.size).ok_or(UnknownKind),
        }
    }
}
