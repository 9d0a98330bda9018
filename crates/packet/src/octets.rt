// Octets in a lent buffer.
ghost use Rattle.std.specs.Prelude.{◌≡◌, ℕ, ◌+◌, ◌<◌, ◌≤◌, length};
ghost use Rattle.packet.specs.Octets.{over};

// Writes octets into a buffer from a place on.
pub(crate) fn put(buffer: &mut [u8], place: usize, octets: &[u8])
    requires { place + length octets.now ≤ length buffer.old }
    ensures { buffer.new ≡ over place octets.now buffer.old }
{
    let end = place + octets.len();
    buffer[place..end].copy_from_slice(octets);
}
