//! How the names of functions and machines are written.

ghost use Rattle.std.specs.Prelude.{◌≡◌};
ghost use Rattle.std.specs.List.{list_all};
ghost use Rattle.pool_settings.specs.Names as names;

/// The bytes of the longest name.
const MAX_NAME: usize = 64;

fn is_name_byte(byte: u8) -> bool
    ensures { result ≡ names.is_name_byte byte }
{
    byte >= b'!' && byte <= b'~'
}

fn are_name_bytes(name: &[u8]) -> bool
    ensures { result ≡ list_all names.is_name_byte name.now }
{
    name.iter().all(|byte| is_name_byte(*byte))
}

/// Whether settings can have a function of this name: 1 to 64 bytes from `!` to `~`.
pub fn is_name(name: &[u8]) -> bool
    ensures named { result ≡ names.is_name name.now }
{
    name.len() >= 1 && name.len() <= MAX_NAME && are_name_bytes(name)
}

fn is_machine_name_byte(byte: u8) -> bool
    ensures { result ≡ names.is_machine_name_byte byte }
{
    is_name_byte(byte) && byte != b'/' && byte != b'#'
}

fn are_machine_name_bytes(name: &[u8]) -> bool
    ensures { result ≡ list_all names.is_machine_name_byte name.now }
{
    name.iter().all(|byte| is_machine_name_byte(*byte))
}

/// Whether settings can have a machine of this name: 1 to 64 bytes from `!` to `~`, but neither `/` nor `#`.
pub fn is_machine_name(name: &[u8]) -> bool
    ensures named { result ≡ names.is_machine_name name.now }
{
    name.len() >= 1 && name.len() <= MAX_NAME && are_machine_name_bytes(name)
}
