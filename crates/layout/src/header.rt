// The settings in a table's header.
ghost use Rattle.std.specs.Prelude.{◌≡◌, ◌≤◌, length, drop};
ghost use Rattle.settings_words.specs.FloatsFit.{FloatsFit};
ghost use Rattle.settings_words.specs.Picture.{settings_of};
ghost use Rattle.layout.specs.Layout.{settings_at, header_words};
ghost use Rattle.layout.specs.Leaves.{put_settings};

use crate::SETTINGS_AT;
use settings::Settings;

pub fn settings_at(table: &[u64]) -> Settings
    requires { header_words ≤ length table.now }
    ensures { result ≡ settings_of (drop settings_at table.now) }
{
    settings_words::settings_of(&table[SETTINGS_AT..])
}

pub fn put_settings(table: &mut [u64], s: Settings)
    requires { header_words ≤ length table.old }
    ensures table_after { table.new ≡ put_settings s table.old }
    ensures floats_fit { FloatsFit s }
{
    settings_words::store(&mut table[SETTINGS_AT..], s);
}
