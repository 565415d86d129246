ghost use Rattle.std.specs.Prelude.{◌≡◌, ◌+◌, ◌≤◌, ◌++◌, IsTrue, Some, None, IfSome, MatchOption, length};
ghost use Rattle.arrayvec.specs.ArrayVec.{array_vec_len};
ghost use Rattle.vk_frame.specs.Reading.{frame_of};
ghost use Rattle.vk_frame.specs.Rules.{is_lawful};
ghost use Rattle.vk_frame.specs.Spelling.{frame_bytes, header_bytes};

use crate::header::Header;
use arrayvec::ArrayVec;
use vk_base::FrameBytes;
use vk_base::limits::HEADER_BYTES;
use vk_wire::{PACKET_BYTES, bytes_of_u16, bytes_of_u64, next_u16, next_u64};

/// The number that stands first in each frame.
const MARK: u16 = 0x564b;

/// The bytes of this header, which must be lawful: they stand first in its frame.
#[tactic(auto, unfolding(crate::specs::Spelling::header_bytes))]
pub fn header_bytes(header: &Header) -> [u8; HEADER_BYTES]
    requires { IsTrue (is_lawful header.now) }
    ensures { result ≡ header_bytes header.now }
{
    let mut bytes = ArrayVec::new();
    put(&mut bytes, &bytes_of_u16(MARK));
    put(&mut bytes, &bytes_of_u16(header.source));
    put(&mut bytes, &bytes_of_u16(header.destination));
    put(&mut bytes, &bytes_of_u64(header.stamp));
    put(&mut bytes, &bytes_of_u64(header.number));
    put(&mut bytes, &bytes_of_u64(header.event));
    put(&mut bytes, &bytes_of_u16(header.output));
    match bytes.into_inner() {
        Ok(bytes) => bytes,
        Err(_) => unreachable!(),
    }
}

/// Appends the bytes, for which there is room.
fn put(into: &mut ArrayVec<u8, HEADER_BYTES>, bytes: &[u8])
    requires { array_vec_len into.old + length bytes.now ≤ HEADER_BYTES }
    ensures { into.new.items ≡ into.old.items ++ bytes.now }
{
    match into.try_extend_from_slice(bytes) {
        Ok(()) => {}
        Err(_) => unreachable!(),
    }
}

/// Makes `into` the frame of this header, which must be lawful, and this packet, which must have 1 to [`PACKET_BYTES`] bytes.
pub fn seal(header: &Header, packet: &[u8], into: &mut FrameBytes)
    requires lawful { IsTrue (is_lawful header.now) }
    requires some { 1 ≤ length packet.now }
    requires fits { length packet.now ≤ PACKET_BYTES }
    ensures { into.new ≡ frame_bytes header.now packet.now }
{
    into.clear();
    into.append(&header_bytes(header));
    into.append(packet);
}

/// The header of a frame, and the packet's bytes behind it. `None` exactly where no lawful header stands first, or nothing
/// is behind it. It is put into its callers, most of which need but one or two of the header's fields.
#[inline(always)]
#[tactic(auto, unfolding(crate::specs::Reading::frame_of))]
pub fn unseal(bytes: &[u8]) -> Option<(Header, &[u8])>
    ensures exact { MatchOption result (frame_of bytes.now ≡ None) (λ r. frame_of bytes.now ≡ Some (r.0, r.1.now)) }
    ensures lawful { IfSome result (λ r. IsTrue (is_lawful r.0)) }
{
    let (mark, rest) = next_u16(bytes)?;
    let (source, rest) = next_u16(rest)?;
    let (destination, rest) = next_u16(rest)?;
    let (stamp, rest) = next_u64(rest)?;
    let (number, rest) = next_u64(rest)?;
    let (event, rest) = next_u64(rest)?;
    let (output, rest) = next_u16(rest)?;
    let header = Header {
        source,
        destination,
        stamp,
        number,
        event,
        output,
    };
    if mark == MARK && header.is_lawful() && !rest.is_empty() {
        Some((header, rest))
    } else {
        None
    }
}
