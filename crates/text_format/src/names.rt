//! Checks names of labels and data strings.

ghost use Rattle.std.specs.Prelude.{◌≡◌};
ghost use Rattle.std.specs.List.{list_all};
ghost use Rattle.text_format.specs.Name.{is_name, begins_name, continues_name};

/// The maximum number of bytes in the name of a label or of a data string.
pub const NAME_LIMIT: usize = 32;

/// Whether a name may begin with this byte.
fn begins_name(byte: u8) -> bool
    ensures { result ≡ begins_name byte }
{
    byte.is_ascii_alphabetic() || byte == b'_'
}

/// Whether all these bytes may follow the first byte of a name.
fn continue_name(bytes: &[u8]) -> bool
    ensures { result ≡ list_all continues_name bytes.now }
{
    bytes
        .iter()
        .all(|byte| begins_name(*byte) || byte.is_ascii_digit())
}

/// Whether a word has the form of a name: an ASCII letter or `_`, followed by ASCII letters, digits and `_`. The length
/// isn't checked.
#[tactic(auto, unfolding(crate::specs::Name::is_name))]
pub fn is_name(word: &str) -> bool
    ensures { result ≡ is_name word.now }
{
    match word.as_bytes() {
        [] => false,
        [first, others @ ..] => begins_name(*first) && continue_name(others),
    }
}
