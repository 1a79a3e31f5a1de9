//! What a request names or leaves out: its authority, or the field `host`, its scheme and its path
//! (RFC 9114, 4.3.1).
ghost use Rattle.std.specs.Prelude.{◌≡◌, ◌⊎◌, codes, bytes_eq, if◌then◌else◌, IfOk, OnOk, IfErr, IfSome, None, option_copied, unwrap_or};
ghost use Rattle.std.specs.Option.{option_or};
ghost use Rattle.http_uri.specs.Grammar.{IsAuthority, IsScheme, IsPathInput};
ghost use Rattle.http_uri.specs.Uri.{IsUriOfParts};
ghost use Rattle.h3_header.specs.Request.{host_of, authority_refusal, with_host, AreOfUri, IsHostError};

use super::error::HeaderError;
use crate::ext::Protocol;
use http::Method;
use http_header::HeaderMap;
use http_uri::{Authority, Parts, PathAndQuery, Scheme, Uri, UriError};
use std::alloc::Global;

/// The scheme of a request that names none. It takes no memory.
pub(crate) fn https() -> Scheme
    ensures value { result ≡ codes "https" }
    ensures valid { IsScheme (codes "https") }
{
    let scheme = Scheme::HTTPS;
    // `as_str` tells that the scheme is valid.
    let _text = scheme.as_str();
    scheme
}

/// The path of a request that names none. It takes no memory.
pub(crate) fn root() -> PathAndQuery
    ensures value { result ≡ codes "/" }
    ensures valid { IsPathInput (codes "/") }
{
    PathAndQuery::from_static("/").unwrap()
}

/// The protocol that counts: CONNECT alone has one (RFC 8441, 4).
pub(crate) fn protocol_of(method: &Method, protocol: Option<Protocol>) -> Option<Protocol>
    ensures { result ≡ (if bytes_eq method.now (codes "CONNECT") then protocol else None) }
{
    if method.as_str() == "CONNECT" {
        protocol
    } else {
        None
    }
}

/// The scheme, or else https.
pub(crate) fn scheme_or_https(scheme: Option<Scheme>) -> Scheme
    ensures { result ≡ unwrap_or scheme (codes "https") }
{
    match scheme {
        Some(scheme) => scheme,
        None => https(),
    }
}

fn host(map: &HeaderMap) -> Option<&[u8]>
    ensures { option_copied result ≡ host_of map.now }
{
    match map.get("host") {
        Some(value) => Some(value.as_bytes()),
        None => None,
    }
}

pub(crate) fn authority_text(authority: Option<&Authority>) -> Option<&str>
    ensures { option_copied result ≡ option_copied authority.entry }
{
    match authority {
        Some(authority) => Some(authority.as_str()),
        None => None,
    }
}

pub(crate) fn find_refusal(authority: Option<&str>, map: &HeaderMap) -> Option<HeaderError>
    ensures { result ≡ authority_refusal (option_copied authority.entry) (host_of map.now) }
{
    match (authority, host(map)) {
        (None, None) => Some(HeaderError::MissingAuthority),
        (Some(authority), Some(host)) => {
            if authority.as_bytes() == host {
                None
            } else {
                Some(HeaderError::ContradictedAuthority)
            }
        }
        _ => None,
    }
}

/// The authority, or else the first `host`.
pub(crate) fn or_host(
    alloc: Global,
    authority: Option<Authority>,
    map: &HeaderMap,
) -> Result<Option<Authority>, HeaderError>
    ensures ok { IfOk result (λ a. a ≡ option_or authority (host_of map.now)) }
    ensures valid { OnOk result (IfSome (option_or authority (host_of map.now)) IsAuthority) }
    ensures err { IfErr result (IsHostError authority (host_of map.now)) }
{
    if let Some(authority) = authority {
        // `as_str` tells that the authority is valid.
        let _text = authority.as_str();
        return Ok(Some(authority));
    }
    let Some(host) = host(map) else {
        return Ok(None);
    };
    match Authority::from_bytes(alloc, host) {
        Ok(authority) => Ok(Some(authority)),
        Err(UriError::Invalid(_)) => Err(HeaderError::InvalidRequest),
        Err(UriError::OutOfMemory) => Err(HeaderError::OutOfMemory),
    }
}

/// The URI of these parts, in which the first `host` stands for a missing authority.
pub(crate) fn uri_of(alloc: Global, parts: Parts, map: &HeaderMap) -> Result<Uri, HeaderError>
    ensures ok { IfOk result (λ u. AreOfUri (with_host parts (host_of map.now)) × IsUriOfParts (with_host parts (host_of map.now)) u) }
    ensures err { IfErr result (λ e. ((e ≡ HeaderError.InvalidRequest) × ¬ (AreOfUri (with_host parts (host_of map.now))))
        ⊎ ((e ≡ HeaderError.OutOfMemory) × (parts.authority ≡ None))) }
{
    let Parts {
        scheme,
        authority,
        path_and_query,
    } = parts;
    let authority = or_host(alloc, authority, map)?;
    let parts = Parts {
        scheme,
        authority,
        path_and_query,
    };
    match Uri::from_parts(parts) {
        Ok(uri) => Ok(uri),
        Err(_) => Err(HeaderError::InvalidRequest),
    }
}
