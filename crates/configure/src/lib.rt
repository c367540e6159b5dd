// Configure, where it is not refused: new settings, the maximum they give, and room for nothing.
#![tactic(auto)]

ghost use Rattle.std.specs.Prelude.{◌≡◌, false, [], length, if◌then◌else◌};
ghost use Rattle.settings.specs.Validation.{first_bad};
ghost use Rattle.rules.specs.declared.request.Request.TheVariants.{Configure};
ghost use Rattle.rules.specs.Hosts.{asking};
ghost use Rattle.rules.specs.Requests.{brought, configured, effect};
ghost use Rattle.reason_rules.specs.Reasons.{settings_change};
ghost use Rattle.reasons.specs.Changes.{change_of};
ghost use Rattle.reasons.specs.Explains.{Explains};
ghost use Rattle.layout.specs.Holds.{Holds, Good};
ghost use Rattle.layout.specs.Picture.{cache_in, rest_in};
ghost use Rattle.refusals.specs.Unrefused.{Unrefused};
ghost use Rattle.room.specs.Did.{Did};

use reason_rules::Change;
use reasons::change::set_to;
use reasons::runs::{Done, room_alone};
use room::make_room;
use settings::Settings;
use table::header::{maximum, restart, row_count, set_settings};

// The initial size if it is set, else the maximum brought into the range of the settings.
fn configured_maximum(s: Settings, maximum: u64) -> u64
    ensures { result ≡ (if s.preset then s.initial else brought maximum s) }
{
    if s.preset {
        s.initial
    } else {
        maximum.max(s.smallest).min(s.largest)
    }
}

// The settings with their maximum, and the counters restarted; the answer is the change of the maximum.
fn set_all(table: &mut [u64], s: Settings) -> Option<Change>
    requires { Good table.old × (first_bad s false ≡ 0) }
    ensures holds { Holds table.new (configured s (cache_in table.old)) (rest_in table.old) }
    ensures change { result ≡ change_of (settings_change s (cache_in table.old)) }
{
    let before = maximum(table);
    let n = configured_maximum(s, before);
    set_settings(table, s, n);
    restart(table);
    set_to(n, s, before)
}

pub fn configure(table: &mut [u64], orders: &mut [u64], s: Settings) -> Done
    requires { Unrefused table.old (asking (Configure s) [] (length orders.old)) }
    ensures did { Did (effect (cache_in table.old) [] (Configure s)) (rest_in table.old) table.new 0 orders.old orders.new result.given }
    ensures explains { Explains (cache_in table.old) (Configure s) result }
{
    let rows = row_count(table);
    let change = set_all(table, s);
    let made = make_room(table, orders, rows, 0, false, 0, None);
    Done {
        given: made.given,
        runs: room_alone(made.runs),
        change,
    }
}
