// What a request on the cache in a lent table would be answered.
ghost use Rattle.std.specs.Prelude.{◌≡◌};
ghost use Rattle.cache.specs.Asked.{ask_words};

use judge::judge;
use refusals::named::find_named;
use refusals::refusal_of;
use rules::answer::Refusal;
use rules::request::Request;
use table::header::row_count;

// What step would answer to the request, with so many order words lent for it. Nothing is done.
pub fn ask(table: &[u64], lent: usize, message: &[u8], request: Request) -> Result<(), Refusal>
    ensures { result ≡ ask_words table.now lent message.now request }
{
    if !judge(table) {
        return Err(Refusal::Table);
    }
    let rows = row_count(table);
    let found = find_named(table, rows, request);
    refusal_of(table, rows, found, lent, message, request)
}
