// The header's words, read and written: a function for each. One for all would be given the word's place and the field that it is.
#![tactic(auto, unfolding(layout::specs::Picture::cache_in))]

ghost use Rattle.std.specs.Prelude.{◌≡◌, ◌≤◌, length};
ghost use Rattle.rules.specs.Cache.{with_settings, with_maximum, with_counters, with_count, with_next, with_exceeded, restart};
ghost use Rattle.rules.specs.Limits.{count_stop};
ghost use Rattle.layout.specs.Picture.{cache_in, rest_in};
ghost use Rattle.layout.specs.Holds.{Holds, Good};
ghost use Rattle.table.specs.Asked.{Settable};

use layout::header::{put_settings, settings_at};
use layout::word::mode_of;
use layout::{
    ACCESSES_AT, COUNT_AT, EXCEEDED_AT, HITS_AT, MAXIMUM_AT, MODE_AT, NEXT_AT, ROW_COUNT_AT,
    THRESHOLD_AT,
};
use settings::{Mode, Settings};
use settings_words::flag_word;

pub fn row_count(table: &[u64]) -> usize
    requires { Good table.now }
    ensures { result ≡ length (cache_in table.now).rows }
{
    table[ROW_COUNT_AT] as usize
}

pub fn mode(table: &[u64]) -> Mode
    requires { Good table.now }
    ensures { result ≡ (cache_in table.now).mode }
{
    mode_of(table[MODE_AT])
}

pub fn threshold(table: &[u64]) -> u64
    requires { Good table.now }
    ensures { result ≡ (cache_in table.now).threshold }
{
    table[THRESHOLD_AT]
}

pub fn maximum(table: &[u64]) -> u64
    requires { Good table.now }
    ensures { result ≡ (cache_in table.now).maximum }
{
    table[MAXIMUM_AT]
}

pub fn accesses(table: &[u64]) -> u64
    requires { Good table.now }
    ensures { result ≡ (cache_in table.now).accesses }
{
    table[ACCESSES_AT]
}

pub fn hits(table: &[u64]) -> u64
    requires { Good table.now }
    ensures { result ≡ (cache_in table.now).hits }
{
    table[HITS_AT]
}

// The byte count.
pub fn count(table: &[u64]) -> u64
    requires { Good table.now }
    ensures { result ≡ (cache_in table.now).count }
{
    table[COUNT_AT]
}

// The next list's number.
pub fn next_number(table: &[u64]) -> u64
    requires { Good table.now }
    ensures { result ≡ (cache_in table.now).next }
{
    table[NEXT_AT]
}

// Whether making room found held plus incoming above the maximum since the counters last restarted.
pub fn exceeded(table: &[u64]) -> bool
    requires { Good table.now }
    ensures { result ≡ (cache_in table.now).exceeded }
{
    table[EXCEEDED_AT] != 0
}

pub fn settings(table: &[u64]) -> Settings
    requires { Good table.now }
    ensures { result ≡ (cache_in table.now).settings }
{
    settings_at(table)
}

pub fn set_maximum(table: &mut [u64], n: u64)
    requires { Good table.old × ((cache_in table.old).settings.smallest ≤ n) × (n ≤ (cache_in table.old).settings.largest) }
    ensures { Holds table.new (with_maximum n (cache_in table.old)) (rest_in table.old) }
{
    table[MAXIMUM_AT] = n;
}

// The counters of the epoch.
pub fn set_counters(table: &mut [u64], accesses: u64, hits: u64)
    requires { Good table.old }
    ensures { Holds table.new (with_counters accesses hits (cache_in table.old)) (rest_in table.old) }
{
    table[ACCESSES_AT] = accesses;
    table[HITS_AT] = hits;
}

// Counters restart, and what making room found since they last did is cleared.
pub fn restart(table: &mut [u64])
    requires { Good table.old }
    ensures { Holds table.new (restart (cache_in table.old)) (rest_in table.old) }
{
    set_counters(table, 0, 0);
    set_exceeded(table, false);
}

pub fn set_exceeded(table: &mut [u64], exceeded: bool)
    requires { Good table.old }
    ensures { Holds table.new (with_exceeded exceeded (cache_in table.old)) (rest_in table.old) }
{
    table[EXCEEDED_AT] = flag_word(exceeded);
}

pub fn set_count(table: &mut [u64], n: u64)
    requires { Good table.old × (n ≤ count_stop) }
    ensures { Holds table.new (with_count n (cache_in table.old)) (rest_in table.old) }
{
    table[COUNT_AT] = n;
}

pub fn set_next(table: &mut [u64], n: u64)
    requires { Good table.old }
    ensures { Holds table.new (with_next n (cache_in table.old)) (rest_in table.old) }
{
    table[NEXT_AT] = n;
}

// New settings and a maximum within their range.
pub fn set_settings(table: &mut [u64], s: Settings, maximum: u64)
    requires { Good table.old × Settable s maximum }
    ensures { Holds table.new (with_maximum maximum (with_settings s (cache_in table.old))) (rest_in table.old) }
{
    put_settings(table, s);
    table[MAXIMUM_AT] = maximum;
}
