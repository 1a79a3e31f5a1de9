//! The rules that a message can break.

/// The first rule that a field list breaks. Each makes its message malformed (RFC 9114, 4.1.2).
#[derive(Clone, Copy, Debug, PartialEq, Eq)]
pub enum Violation {
    /// A pseudo-header field stands after a regular field (RFC 9114, 4.3).
    PseudoOrder,
    /// A pseudo-header field comes twice (RFC 9114, 4.3).
    RepeatedPseudo,
    /// A pseudo-header field is not of this side, or stands in a trailer (RFC 9114, 4.3).
    WrongPseudo,
    /// `:method`, `:scheme` or `:path` is missing in a request, or `:status` in a response (RFC 9114, 4.3.1 and 4.3.2).
    MissingPseudo,
    /// A connection-specific field, or a `te` that is not `trailers` in a request (RFC 9114, 4.2).
    ConnectionField,
    /// `:protocol` without CONNECT, or if extended CONNECT was not announced (RFC 8441, 4; RFC 9220, 3).
    Protocol,
    /// Plain CONNECT without a port in `:authority`, or with `:scheme` or `:path` (RFC 9114, 4.4; RFC 9110, 9.3.6).
    Connect,
    /// `:scheme` is empty, does not begin with a letter, or has another byte than letters, digits, `+`, `-` and `.` (RFC 3986, 3.1).
    Scheme,
    /// The authority is missing, empty or has userinfo; `host` is no authority, comes twice, or is unlike `:authority`
    /// (RFC 9114, 4.3.1; RFC 9110, 7.2).
    Authority,
    /// `:path` does not begin with `/`, and is not `*` for OPTIONS (RFC 9114, 4.3.1).
    Path,
    /// Status 101, which HTTP/3 does not support (RFC 9114, 4.5).
    Status,
    /// `content-length` is no number, comes twice, or may not come with this status or method (RFC 9110, 8.6, 9.3.8 and 15.3.6).
    ContentLength,
    /// A field that is not for trailers (RFC 9110, 6.5.1). A sender has more of them than a receiver.
    TrailerField,
    /// A value starts or ends with white space (RFC 9114, 10.3; RFC 9113, 8.2.1).
    Value,
}
