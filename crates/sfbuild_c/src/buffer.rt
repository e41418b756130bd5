//! Bytes that are handed out into a buffer of the caller's.
ghost use Rattle.std.specs.Prelude.{◌≡◌};
ghost use Rattle.sfbuild_c.specs.Buffers.{HandsOut};

use crate::status::{DONE, ROOM};

/// Writes the bytes into the room, and their number; where the room is too small, the number alone.
pub(crate) fn hand_out(bytes: &[u8], room: &mut [u8], length: &mut usize) -> u8
    ensures { HandsOut bytes.now room.old result room.new length.new }
{
    *length = bytes.len();
    if bytes.len() > room.len() {
        return ROOM;
    }
    room[..bytes.len()].copy_from_slice(bytes);
    DONE
}
