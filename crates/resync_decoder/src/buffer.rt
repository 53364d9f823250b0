//! The buffer of a run's bytes, and that of a main header's.
ghost use Rattle.std.specs.Prelude.{◌≡◌, ◌≤◌, ◌+◌, ◌-◌, ◌++◌, length, drop};
ghost use Rattle.std.specs.Vec.{vec_capacity};

/// Room for the start of a packet, at most 16,777,215 bytes, and a datagram.
pub const ROOM: usize = 16_786_216;

/// The most bytes of a main header.
pub const LONGEST_HEADER: usize = 8_192;

/// Keeps the bytes of a main header in place of those before.
pub fn keep(header: &mut Vec<u8>, bytes: &[u8])
    requires fits { length bytes.now ≤ 8192 }
    requires room { 8192 ≤ vec_capacity header.old }
    ensures bytes { header.new.items ≡ bytes.now }
    ensures room { 8192 ≤ vec_capacity header.new }
{
    header.clear();
    let _ = header.extend_from_slice(bytes);
}

/// Appends bytes to those from `front` on, and answers where these begin then. They are moved to
/// the buffer's start where there is no room after them.
pub fn append(buffer: &mut Vec<u8>, front: usize, bytes: &[u8]) -> usize
    requires front { front ≤ length buffer.old.items }
    requires few { length buffer.old.items ≤ 16786216 }
    requires fits { length buffer.old.items - front + length bytes.now ≤ 16786216 }
    requires room { 16786216 ≤ vec_capacity buffer.old }
    ensures bytes { drop result buffer.new.items ≡ drop front buffer.old.items ++ bytes.now }
    ensures within { result ≤ length buffer.new.items }
    ensures few { length buffer.new.items ≤ 16786216 }
    ensures room { 16786216 ≤ vec_capacity buffer.new }
{
    let kept = buffer.len() - front;
    if bytes.len() <= ROOM - buffer.len() {
        let _ = buffer.extend_from_slice(bytes);
        return front;
    }
    buffer.copy_within(front.., 0);
    buffer.truncate(kept);
    let _ = buffer.extend_from_slice(bytes);
    0
}
