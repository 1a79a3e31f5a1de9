//! The header of a plain CONNECT request (RFC 9114, 4.4).
ghost use Rattle.std.specs.Prelude.{◌≡◌, IfOk, OnOk, IfErr, Some, None};
ghost use Rattle.h3_header.specs.Connect.{is_plain_host, connect_refusal, connect_head};
ghost use Rattle.h3_header.specs.Request.{host_of};

use super::Header;
use super::authority::find_refusal;
use super::error::HeaderError;
use super::pseudo::Pseudo;
use crate::grammar::byte_at;
use http_header::HeaderMap;
use http_uri::Authority;

impl Header {
    /// The header of a plain CONNECT (RFC 9114, 4.4): `:method` is CONNECT, `:authority` the host and the port to connect to, and there is
    /// neither `:scheme` nor `:path`. The extended form, which has both and `:protocol` (RFC 8441, 4), is made by `request`.
    ///
    /// Of the authority `example.com:443` and no fields it has the fields `:method: CONNECT` and `:authority: example.com:443`.
    ///
    /// Refused are, in this order: an authority that has userinfo (`@`) or an empty host, as `:443` (`InvalidRequest`; RFC 9110, 7.2 and
    /// 9.3.6), and a field `host` whose first value has other bytes (`ContradictedAuthority`). An `Authority` is never empty. There is no
    /// default port, and a client has to name one (RFC 9110, 9.3.6): that is left to the caller, so an authority without a port is taken.
    /// It takes no memory.
    pub fn connect(authority: Authority, fields: HeaderMap) -> Result<Header, HeaderError>
        ensures ok { IfOk result (λ h. h ≡ connect_head authority fields) }
        ensures agrees { OnOk result (connect_refusal authority (host_of fields) ≡ None) }
        ensures err { IfErr result (λ e. connect_refusal authority (host_of fields) ≡ Some e) }
    {
        match find_connect_refusal(authority.as_str(), &fields) {
            Some(e) => {
                drop(authority);
                drop(fields);
                Err(e)
            }
            None => Ok(Header {
                pseudo: Pseudo::connect(authority),
                fields,
            }),
        }
    }
}

// Why these make no CONNECT.
fn find_connect_refusal(authority: &str, fields: &HeaderMap) -> Option<HeaderError>
    ensures { result ≡ connect_refusal authority.now (host_of fields.now) }
{
    if !is_plain_host(authority.as_bytes()) {
        return Some(HeaderError::InvalidRequest);
    }
    find_refusal(Some(authority), fields)
}

// Whether the authority has no userinfo, and a host that is not empty.
fn is_plain_host(text: &[u8]) -> bool
    ensures { result ≡ is_plain_host text.now }
{
    !text.contains(&b'@') && byte_at(text, 0) != b':'
}
