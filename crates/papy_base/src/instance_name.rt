// The names that instances may have.
ghost use Rattle.std.specs.Prelude.{◌≡◌};
ghost use Rattle.std.specs.List.{list_all};
ghost use Rattle.papy_base.specs.InstanceName.{is_instance_name, is_name_byte};

/// The most bytes of an instance's name.
const NAME_LIMIT: usize = 64;

/// Whether this is a name that an instance may have: 1 to 64 letters, digits or `_`.
pub fn is_instance_name(name: &[u8]) -> bool
    ensures { result ≡ is_instance_name name.now }
{
    !name.is_empty() && (name.len() <= NAME_LIMIT && are_name_bytes(name))
}

fn are_name_bytes(bytes: &[u8]) -> bool
    ensures { result ≡ list_all is_name_byte bytes.now }
{
    bytes.iter().all(|byte| is_name_byte(*byte))
}

fn is_name_byte(byte: u8) -> bool
    ensures { result ≡ is_name_byte byte }
{
    byte.is_ascii_alphanumeric() || byte == b'_'
}
