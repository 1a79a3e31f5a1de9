//! Which types of frames have a meaning.

/// Which types of frames have a meaning, beside those of RFC 9114.
#[derive(Clone, Copy, Debug, PartialEq, Eq)]
pub struct FrameKinds {
    /// Whether 0x41 begins a session of WebTransport. Otherwise it is the type of an unknown frame, which has a length (RFC 9114, section
    /// 9).
    pub sessions: bool,
    /// Whether PRIORITY_UPDATE is known (RFC 9218, section 7.2): 0xf0700 and 0xf0701. Otherwise these are types of unknown frames.
    pub updates: bool,
}

impl FrameKinds {
    /// Those by which sessions may begin.
    pub const PLAIN: FrameKinds = FrameKinds {
        sessions: true,
        updates: false,
    };

    /// None but those of RFC 9114.
    pub const NONE: FrameKinds = FrameKinds {
        sessions: false,
        updates: false,
    };
}
