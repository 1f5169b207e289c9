//! Why the settings of a file are not taken, and where in the file its first fault is.

ghost use Rattle.std.specs.Prelude.{◌≡◌, ◌≤◌, Some, filter, length};
ghost use Rattle.pool_settings.specs.Fault as spec;
ghost use Rattle.text_pieces.specs.Lines.{is_line_feed};

use crate::SettingsError;
use crate::place::Place;
use std::alloc::AllocError;
use text_pieces::cut_last;

/// Why the settings of a file are not taken.
#[derive(Clone, Copy, Debug, PartialEq, Eq)]
pub enum SettingsFault<'f> {
    /// The first fault of the file: what `Settings::read` answers, which is not `Memory`, and where in the file that is. With `Text` it is
    /// a line and a column, with `TooMany` what there are too many of, and else a key or a name.
    At(SettingsError, Place<&'f str>),
    /// An allocation was refused.
    Memory,
}

impl SettingsFault<'_> {
    /// The refusal without its place, as `Settings::read` answers it.
    pub fn error(&self) -> SettingsError
        ensures { result ≡ spec.error_of self.now }
    {
        match *self {
            SettingsFault::At(error, _) => error,
            SettingsFault::Memory => SettingsError::Memory,
        }
    }
}

impl From<AllocError> for SettingsFault<'_> {
    ghost use Rattle.std.specs.Prelude.{◌≡◌};
    ghost use Rattle.pool_settings.specs.declared.fault.SettingsFault.TheVariants.{Memory};

    ghost from_gives = { λ _ fault. fault ≡ Memory };

    fn from(_: AllocError) -> Self {
        SettingsFault::Memory
    }
}

/// The fault of a text that is no TOML after these bytes.
pub fn text_fault<'f>(before: &[u8]) -> SettingsFault<'f>
    ensures { spec.fault_of result ≡ Some (spec.text_fault before.now) }
{
    let line = line_feeds(before) + 1;
    let column = characters(last_line(before)) + 1;
    SettingsFault::At(SettingsError::Text, Place::Text { line, column })
}

/// How many line feeds there are.
fn line_feeds(settings_text: &[u8]) -> usize
    ensures all { result ≡ length (filter is_line_feed settings_text.now) }
    ensures few { result ≤ length settings_text.now }
{
    settings_text.iter().filter(|byte| **byte == b'\n').count()
}

/// How many characters begin there.
fn characters(settings_text: &[u8]) -> usize
    ensures all { result ≡ length (filter spec.begins_character settings_text.now) }
    ensures few { result ≤ length settings_text.now }
{
    let mut count = 0;
    for byte in settings_text {
        if begins_character(*byte) {
            count += 1;
        }
    }
    count
}

fn begins_character(byte: u8) -> bool
    ensures { result ≡ spec.begins_character byte }
{
    byte < 0x80 || byte >= 0xC0
}

/// What comes after the last line feed.
fn last_line(text: &[u8]) -> &[u8]
    ensures { result.now ≡ spec.last_line text.now }
{
    match cut_last(b'\n', text) {
        Some((_, last)) => last,
        None => text,
    }
}
