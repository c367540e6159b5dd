// A verdict, made of a request's tests in the order of judging.
#![tactic(auto)]

ghost use Rattle.std.specs.Prelude.{◌≡◌};
ghost use Rattle.verdicts.specs.Tells.{tested_before};

use rules::answer::Refusal;

// One test: where it holds, the request is refused.
pub fn refuse_if(holds: bool, refusal: Refusal) -> Result<(), Refusal>
    ensures { result ≡ tested_before holds refusal (Ok tt) }
{
    if holds {
        return Err(refusal);
    }
    Ok(())
}
