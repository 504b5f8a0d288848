// How many frames the message under way has, told from the bytes that came (RFC 6455, section 5.2).
ghost use Rattle.std.specs.Prelude.{◌≡◌, ◌<◌, ◌≤◌, Bool, length, take};
ghost use Rattle.socket_conn.specs.Frames.{after_length, after_second, begun, mask_bytes, no_frames, step, walked, with_frame};

/// How many frames a message may have.
const MOST_FRAMES: u32 = 1_024;

/// A stream that counts the frames of the messages that it gives.
pub trait CountsFrames {
    // Whether a message had more than it may.
    ghost over: { Self → Bool };

    /// Whether a message had more frames than it may.
    fn is_over(&self) -> bool
        ensures { result ≡ over self.now };
}

/// What is to come of a frame.
#[derive(Clone, Copy)]
pub(crate) enum Place {
    /// So many bytes of its mask and its payload, and then the next header.
    Payload(u64),
    /// The second byte of its header.
    Second,
    /// So many bytes of its length; what came of that, and how many bytes the mask has.
    Length(u8, u64, u64),
}

/// What the bytes that came say of frames.
#[derive(Clone, Copy)]
pub(crate) struct FrameCount {
    place: Place,
    /// How many data frames of the message under way have begun.
    frames: u32,
    /// A message has had more than it may.
    is_over: bool,
}

/// How many bytes the mask has, as the second byte tells.
fn mask_len(byte: u8) -> u64
    ensures { result ≡ mask_bytes byte }
{
    if byte >= 128 { 4 } else { 0 }
}

/// What is to come behind the second byte.
fn behind_second(byte: u8) -> Place
    ensures { result ≡ after_second byte }
{
    let mask = mask_len(byte);
    match byte % 128 {
        126 => Place::Length(2, 0, mask),
        127 => Place::Length(8, 0, mask),
        len => Place::Payload(u64::from(len) + mask),
    }
}

/// What is to come behind a byte of the length.
fn behind_length(left: u8, so_far: u64, mask: u64, byte: u8) -> Place
    ensures { result ≡ after_length left so_far mask byte }
{
    let len = so_far.wrapping_mul(256).wrapping_add(u64::from(byte));
    if left <= 1 {
        Place::Payload(len.saturating_add(mask))
    } else {
        Place::Length(left - 1, len, mask)
    }
}

impl FrameCount {
    /// Nothing came.
    pub(crate) fn new() -> FrameCount
        ensures { result ≡ no_frames }
    {
        FrameCount {
            place: Place::Payload(0),
            frames: 0,
            is_over: false,
        }
    }

    /// Whether a message has had more frames than it may.
    pub(crate) fn is_over(&self) -> bool
        ensures { result ≡ self.now.is_over }
    {
        self.is_over
    }

    /// Counts a data frame.
    fn count(&mut self, is_last: bool)
        ensures { self.new ≡ with_frame is_last self.old }
    {
        let frames = self.frames.saturating_add(1);
        self.is_over = self.is_over || frames > MOST_FRAMES;
        self.frames = if is_last { 0 } else { frames };
    }

    /// A header begins.
    fn begin(&mut self, byte: u8)
        ensures { self.new ≡ begun self.old byte }
    {
        if byte % 16 < 8 {
            self.count(byte >= 128);
        }
        self.place = Place::Second;
    }

    /// Takes one byte.
    fn take(&mut self, byte: u8)
        ensures { self.new ≡ step self.old byte }
    {
        match self.place {
            Place::Payload(0) => self.begin(byte),
            Place::Payload(left) => self.place = Place::Payload(left - 1),
            Place::Second => self.place = behind_second(byte),
            Place::Length(left, so_far, mask) => {
                self.place = behind_length(left, so_far, mask, byte);
            }
        }
    }

    /// Takes the first byte, or all that belong to a payload. How many those were.
    fn pass(&mut self, bytes: &[u8]) -> usize
        requires { 0 < length bytes.now }
        ensures some { 0 < result }
        ensures within { result ≤ length bytes.now }
        ensures passed { self.new ≡ walked self.old (take result bytes.now) }
    {
        match self.place {
            Place::Payload(left) if left > 0 => {
                let count = left.min(bytes.len() as u64);
                self.place = Place::Payload(left - count);
                count as usize
            }
            _ => {
                self.take(bytes[0]);
                1
            }
        }
    }

    /// Takes the bytes.
    pub(crate) fn walk(&mut self, bytes: &[u8])
        ensures { self.new ≡ walked self.old bytes.now }
    {
        let mut rest = bytes;
        while !rest.is_empty() {
            let count = self.pass(rest);
            rest = &rest[count..];
        }
    }
}
