//! File requests and their replies.

ghost use Rattle.std.specs.Prelude.{◌≡◌};
ghost use Rattle.vk_files.specs.Messages.{code_of, file_of, load_of, name_of, open_of, page_of, reply_of};

use crate::limits::NAME_BYTES;
use vk_base::Message;

/// What the message asks for.
pub fn code_of(message: &Message) -> u8
    ensures { result ≡ code_of message.now }
{
    message.0[1]
}

/// The name of the file that it asks for.
pub fn name_of(message: &Message) -> [u8; NAME_BYTES]
    ensures { result ≡ name_of message.now }
{
    let mut name = [0; NAME_BYTES];
    name.copy_from_slice(&message.0[4..24]);
    name
}

/// The number of the file that it asks for.
pub fn file_of(message: &Message) -> u32
    ensures { result ≡ file_of message.now }
{
    let bytes = &message.0;
    u32::from_be_bytes([bytes[4], bytes[5], bytes[6], bytes[7]])
}

/// The page that it asks for.
pub fn page_of(message: &Message) -> u32
    ensures { result ≡ page_of message.now }
{
    let bytes = &message.0;
    u32::from_be_bytes([bytes[8], bytes[9], bytes[10], bytes[11]])
}

/// A reply with this code, this file and this number.
pub fn reply_of(code: u8, file: u32, number: u32) -> Message
    ensures { result ≡ reply_of code file number }
{
    let f = file.to_be_bytes();
    let n = number.to_be_bytes();
    Message([
        0, code, 0, 0, f[0], f[1], f[2], f[3], n[0], n[1], n[2], n[3], 0, 0, 0, 0, 0, 0, 0, 0, 0,
        0, 0, 0, 0, 0, 0, 0, 0, 0, 0, 0,
    ])
}

/// A request to open the file of this name.
pub fn open_of(name: &[u8; NAME_BYTES]) -> Message
    ensures { result ≡ open_of name.now }
{
    let mut bytes = [0; 32];
    bytes[1] = 3;
    bytes[4..24].copy_from_slice(name.as_slice());
    Message(bytes)
}

/// A request to load a file to this segment.
pub fn load_of(file: u32, start: u32, len: u32) -> Message
    ensures { result ≡ load_of file start len }
{
    let f = file.to_be_bytes();
    let s = start.to_be_bytes();
    let l = len.to_be_bytes();
    Message([
        2, 6, 0, 0, f[0], f[1], f[2], f[3], 0, 0, 0, 0, 0, 0, 0, 0, 0, 0, 0, 0, 0, 0, 0, 0, s[0],
        s[1], s[2], s[3], l[0], l[1], l[2], l[3],
    ])
}
