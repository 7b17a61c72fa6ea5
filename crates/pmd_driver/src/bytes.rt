//! Packets made from given bytes.

ghost use Rattle.std.specs.Prelude.{◌≡◌, ◌≤◌, ◌*◌, length, min};
ghost use Rattle.pmd_access.specs.NicDevice.DmaArena.Memory.{put_bytes};
ghost use Rattle.pmd_access.specs.Bufs.{bytes_of, numbers_of};

use pmd_access::Packet;

/// Overwrites the first bytes of a packet with `bytes`, which must fit.
pub(crate) fn with_bytes(packet: Packet, bytes: &[u8]) -> Packet
    requires { length bytes.now ≤ min packet.len (2048 * length packet.bufs) }
    ensures bytes { bytes_of result.bufs ≡ put_bytes (bytes_of packet.bufs) 0 bytes.now }
    ensures numbers { numbers_of result.bufs ≡ numbers_of packet.bufs }
    ensures rest { result ≡ record packet { bufs = result.bufs } }
{
    let mut filled = packet;
    if !filled.write_at(0, bytes) {
        unreachable!()
    }
    filled
}
