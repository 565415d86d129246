//! How a field is spelled.

ghost use Rattle.std.specs.Prelude.{◌≡◌};
ghost use Rattle.byteorder.specs.Endian.{big_bytes};
ghost use Rattle.vk_wire.specs.Fields.{pid_bytes};

use byteorder::{BigEndian, ByteOrder};
use vk_base::Pid;

/// A number in two bytes.
pub fn bytes_of_u16(number: u16) -> [u8; 2]
    ensures { result ≡ big_bytes 2 number }
{
    let mut bytes = [0u8; 2];
    BigEndian::write_u16(&mut bytes, number);
    bytes
}

/// A number in four bytes.
pub fn bytes_of_u32(number: u32) -> [u8; 4]
    ensures { result ≡ big_bytes 4 number }
{
    let mut bytes = [0u8; 4];
    BigEndian::write_u32(&mut bytes, number);
    bytes
}

/// A number in eight bytes.
pub fn bytes_of_u64(number: u64) -> [u8; 8]
    ensures { result ≡ big_bytes 8 number }
{
    let mut bytes = [0u8; 8];
    BigEndian::write_u64(&mut bytes, number);
    bytes
}

/// A pid in four bytes.
pub fn bytes_of_pid(pid: Pid) -> [u8; 4]
    ensures { result ≡ pid_bytes pid }
{
    let mut bytes = [0u8; 4];
    BigEndian::write_u16(&mut bytes[..2], pid.host);
    BigEndian::write_u16(&mut bytes[2..], pid.local);
    bytes
}
