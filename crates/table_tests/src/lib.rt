// The tests of each request on the whole table, in the order of judging.
#![tactic(auto)]

ghost use Rattle.std.specs.Prelude.{List, ℕ};
ghost use Rattle.rules.specs.declared.request.Request.TheVariants.{Flush, Sync, Configure};
ghost use Rattle.rules.specs.Refusals.{tests};
ghost use Rattle.layout.specs.Picture.{cache_in};
ghost use Rattle.table.specs.Asked.{GoodRows};
ghost use Rattle.verdicts.specs.Tells.{Tells};

use entries::{is_lead, is_standby, too_few_words};
use rules::answer::Refusal;
use settings::{Settings, first_bad_field};
use table::header::{mode, next_number};
use table::search::any_held;
use verdicts::refuse_if;

pub mod take;

#[tactic(auto, unfolding(rules::specs::Refusals::tests, rules::specs::Refusals::first_of))]
pub fn flush(table: &[u64], rows: usize, lent: usize) -> Result<(), Refusal>
    requires { GoodRows table.now rows }
    ensures { (message : List ℕ) → Tells result (tests (cache_in table.now) lent message Flush) }
{
    let mode = mode(table);
    refuse_if(too_few_words(rows, lent), Refusal::OrderWords)?;
    refuse_if(is_standby(mode), Refusal::Mode)?;
    refuse_if(any_held(table, rows), Refusal::Held)?;
    // A lead has to have a number left to send.
    refuse_if(is_lead(mode) && next_number(table) == 0, Refusal::Number)
}

#[tactic(auto, unfolding(rules::specs::Refusals::tests, rules::specs::Refusals::first_of))]
pub fn sync(table: &[u64], rows: usize, lent: usize) -> Result<(), Refusal>
    requires { GoodRows table.now rows }
    ensures { (message : List ℕ) → Tells result (tests (cache_in table.now) lent message Sync) }
{
    refuse_if(too_few_words(rows, lent), Refusal::OrderWords)?;
    refuse_if(!is_lead(mode(table)), Refusal::Mode)?;
    refuse_if(next_number(table) == 0, Refusal::Number)
}

#[tactic(auto, unfolding(rules::specs::Refusals::tests, rules::specs::Refusals::first_of))]
pub fn configure(table: &[u64], rows: usize, lent: usize, s: Settings) -> Result<(), Refusal>
    requires { GoodRows table.now rows }
    ensures { (message : List ℕ) → Tells result (tests (cache_in table.now) lent message (Configure s)) }
{
    refuse_if(too_few_words(rows, lent), Refusal::OrderWords)?;
    let field = first_bad_field(s, false);
    refuse_if(field != 0, Refusal::Setting(field))
}
