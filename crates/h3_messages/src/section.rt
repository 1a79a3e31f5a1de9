//! As which section of a message a list of fields is judged, and by which rules.

/// The sections of a message (RFC 9114, 4.1).
#[derive(Clone, Copy, Debug, PartialEq, Eq)]
pub enum Section {
    /// The header section of a request.
    Request,
    /// The header section of a response, interim or final.
    Response,
    /// A trailer section.
    Trailer,
}

/// By which rules a section is judged.
#[derive(Clone, Copy, Debug)]
pub struct Rules {
    /// Whether it is to be sent. Then the rules that bind its sender are asked after those of its reader.
    pub is_sent: bool,
    /// Whether the rules of well-formed messages are asked (RFC 9114, 4.1.2).
    pub strict_messages: bool,
    /// Whether `:protocol` may be any token of at most 31 bytes, or one of the two names alone.
    pub any_protocol: bool,
    /// Whether the server of a request announced extended CONNECT (RFC 9220, 3).
    pub extended_connect: bool,
}
