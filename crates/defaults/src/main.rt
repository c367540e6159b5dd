// The defaults, a number to a line: the dirty-byte threshold, then for each mode, alone, lead and
// standby, the settings' 21 words as they stand in a table.
#![tactic(auto)]

use entries::default_threshold;
use settings::{Mode, Settings};
use settings_words::words_of;
use std::io;

fn settings_of(rt: &impl Print, mode: Mode) -> io::Result<()> {
    for word in words_of(Settings::defaults(mode)) {
        println!(rt; "{word}")?;
    }
    Ok(())
}

fn main(rt: HostRuntime) -> io::Result<()> {
    println!(&rt; "{}", default_threshold())?;
    settings_of(&rt, Mode::Alone)?;
    settings_of(&rt, Mode::Lead)?;
    settings_of(&rt, Mode::Standby)
}
