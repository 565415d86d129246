//! Page requests and their replies.

ghost use Rattle.std.specs.Prelude.{◌≡◌};
ghost use Rattle.vk_base.specs.Messages.{word_at};
ghost use Rattle.vk_pages.specs.Messages.{page_of, reply_of, request_of};

use vk_base::Message;

/// The page that the message asks for.
pub fn page_of(message: &Message) -> u32
    ensures { result ≡ page_of message.now }
{
    let bytes = &message.0;
    u32::from_be_bytes([bytes[4], bytes[5], bytes[6], bytes[7]])
}

/// A message of these two first bytes, for this page, with this segment.
pub fn request_of(grants: u8, code: u8, page: u32, start: u32, len: u32) -> Message
    ensures { result ≡ request_of grants code page start len }
{
    let p = page.to_be_bytes();
    let s = start.to_be_bytes();
    let l = len.to_be_bytes();
    Message([
        grants, code, 0, 0, p[0], p[1], p[2], p[3], 0, 0, 0, 0, 0, 0, 0, 0, 0, 0, 0, 0, 0, 0, 0, 0,
        s[0], s[1], s[2], s[3], l[0], l[1], l[2], l[3],
    ])
}

/// The reply for a page: 0 where it was done, 1 where there is no such page, 2 where the request was bad.
pub fn reply_of(code: u8, page: u32) -> Message
    ensures { result ≡ reply_of code page }
{
    let p = page.to_be_bytes();
    Message([
        0, code, 0, 0, p[0], p[1], p[2], p[3], 0, 0, 0, 0, 0, 0, 0, 0, 0, 0, 0, 0, 0, 0, 0, 0, 0,
        0, 0, 0, 0, 0, 0, 0,
    ])
}
