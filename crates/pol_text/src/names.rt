ghost use Rattle.std.specs.Prelude.{◌≡◌};
ghost use Rattle.pol_text.specs.Lines.{is_name, is_letter, is_name_byte};

const MOST_BYTES: usize = 32;

/// Whether the token is a name: an ASCII letter, and behind it ASCII letters, digits, `_` and `-`,
/// at most 32 bytes in all.
pub fn is_name(token: &[u8]) -> bool
    ensures name { result ≡ is_name token.now }
{
    let [first, rest @ ..] = token else {
        return false;
    };
    if !first.is_ascii_alphabetic() || MOST_BYTES <= rest.len() {
        return false;
    }
    rest.iter().all(|byte| is_name_byte(*byte))
}

fn is_name_byte(byte: u8) -> bool
    ensures name { result ≡ is_name_byte byte }
{
    byte.is_ascii_alphanumeric() || byte == b'_' || byte == b'-'
}
