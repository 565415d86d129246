ghost use Rattle.std.specs.Prelude.{◌≡◌, ◌<◌, ◌^◌};
ghost use Rattle.vk_frame.specs.Rules.{is_lawful, is_young};

/// Stamps and numbers are below this.
const LIMIT: u64 = 1 << 63;

/// What a frame says of itself.
#[derive(Clone, Copy, Debug, PartialEq, Eq)]
pub struct Header {
    /// The station that sent the frame, 1 to 65,534.
    pub source: u16,
    /// The station that it is for, 1 to 65,534, or 65,535 for all.
    pub destination: u16,
    /// The sender's tick at the event that gave the frame; below 2^63.
    pub stamp: u64,
    /// The sender's Lamport number at that event; below 2^63.
    pub number: u64,
    /// That event, counted from 1 at the sender; below 2^63.
    pub event: u64,
    /// Which of that event's frames it is, counted from 1.
    pub output: u16,
}

impl Header {
    /// Whether every field is in the range that it must have in a frame.
    pub fn is_lawful(&self) -> bool
        ensures { result ≡ is_lawful self.now }
    {
        let Header {
            source,
            destination,
            stamp,
            number,
            event,
            output,
        } = *self;
        let stations = (1..u16::MAX).contains(&source) && destination >= 1;
        stations && stamp < LIMIT && number < LIMIT && (1..LIMIT).contains(&event) && output >= 1
    }
}

/// Whether a frame with this header is still taken at tick `now`, where a frame lives for `life` ticks. The stamp must be
/// below 2^63.
pub fn is_young(header: &Header, now: u64, life: u32) -> bool
    requires { header.now.stamp < 2 ^ 63 }
    ensures { result ≡ is_young header.now now life }
{
    now <= header.stamp + u64::from(life)
}
