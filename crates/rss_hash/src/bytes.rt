ghost use Rattle.std.specs.Prelude.{◌≡◌, ◌+◌, ◌<◌, length};
ghost use Rattle.rss_hash.specs.Frame.{number_at};

/// Returns the 16-bit number in bytes `i` and `i + 1`, in network order.
pub(crate) fn number_at(bytes: &[u8], i: usize) -> u16
    requires { i + 1 < length bytes.now }
    ensures { result ≡ number_at bytes.now i }
{
    u16::from_be_bytes([bytes[i], bytes[i + 1]])
}
