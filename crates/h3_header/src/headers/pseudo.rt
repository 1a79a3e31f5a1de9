//! The pseudo-header fields of a message (RFC 9114, 4.3).
ghost use Rattle.std.specs.Prelude.{◌≡◌, ◌++◌, codes, true, IfErr, IfOk, OnOk, length, None, Some, option_map, option_copied, IfSome};
ghost use Rattle.std.specs.List.{AllByRecursion};
ghost use Rattle.http_header.specs.Token.{IsToken};
ghost use Rattle.http.specs.StatusCode.{IsStatusCode, code_digits};
ghost use Rattle.http_uri.specs.Grammar.{IsScheme, IsAuthority, IsPathAndQuery, or_slash};
ghost use Rattle.h3_field.specs.ReadBack.{IsFieldOfBytes};
ghost use Rattle.h3_header.specs.ProtocolText.{IsProtocolBy};
ghost use Rattle.http_header.specs.FieldValue.{FieldValue};
ghost use Rattle.http_header.specs.HeaderMap.{Entries};
ghost use Rattle.h3_header.specs.Parts.{head_of_parts, no_pseudo, fields_of_pseudo};
ghost use Rattle.h3_header.specs.Request.{request_head, is_path_rooted};
ghost use Rattle.h3_header.specs.ReadsBack.{IsValidPseudo};

use super::authority::{protocol_of, scheme_or_https};
use super::error::HeaderError;
use super::path::{RequestPath, append_path, joined_path, visit_path};
use super::write::{append_pseudo, append_static, visit_text};
use crate::ext::Protocol;
use h3_field::HeaderField;
use http::{Method, StatusCode};
use http_uri::{Authority, Parts, Scheme, Uri};
use std::alloc::{AllocError, Global};

/// The pseudo-header fields that are there.
#[derive(Debug, Drop)]
pub(crate) struct Pseudo {
    pub(crate) method: Option<Method>,
    pub(crate) scheme: Option<Scheme>,
    pub(crate) authority: Option<Authority>,
    pub(crate) path: Option<RequestPath>,
    pub(crate) status: Option<StatusCode>,
    pub(crate) protocol: Option<Protocol>,
}

/// What a request is made of, but for its regular fields.
#[derive(Drop)]
pub(crate) struct RequestParts {
    pub(crate) method: Option<Method>,
    pub(crate) parts: Parts,
    pub(crate) protocol: Option<Protocol>,
}

impl Pseudo {
    /// No pseudo-header field, as in a trailer.
    pub(crate) fn none() -> Pseudo
        ensures { result ≡ no_pseudo }
    {
        Pseudo {
            method: None,
            scheme: None,
            authority: None,
            path: None,
            status: None,
            protocol: None,
        }
    }

    /// The status of a response alone.
    pub(crate) fn response(status: StatusCode) -> Pseudo
        ensures { result ≡ record no_pseudo { status = Some status } }
    {
        Pseudo {
            method: None,
            scheme: None,
            authority: None,
            path: None,
            status: Some(status),
            protocol: None,
        }
    }

    /// The method and the authority of a plain CONNECT (RFC 9114, 4.4).
    pub(crate) fn connect(authority: Authority) -> Pseudo
        ensures { result ≡ record no_pseudo { method = Some (codes "CONNECT"); authority = Some authority } }
    {
        Pseudo {
            method: Some(Method::CONNECT),
            scheme: None,
            authority: Some(authority),
            path: None,
            status: None,
            protocol: None,
        }
    }

    /// The pseudo-header fields of a request (RFC 9114, 4.3.1). A missing scheme is https, a missing
    /// path is `/`, ahead of a query too, and the protocol counts for CONNECT alone.
    pub(crate) fn request(method: Method, uri: Uri, protocol: Option<Protocol>) -> Pseudo
        ensures { (regular : Entries FieldValue) → head_of_parts result regular ≡ request_head method uri regular protocol }
    {
        let protocol = protocol_of(&method, protocol);
        let Parts {
            scheme,
            authority,
            path_and_query,
        } = uri.into_parts();
        let path = RequestPath::of_request(&method, path_and_query);
        Pseudo {
            method: Some(method),
            scheme: Some(scheme_or_https(scheme)),
            authority,
            path: Some(path),
            status: None,
            protocol,
        }
    }

    /// The method, the parts of the URI and the protocol. A query after `/` takes memory.
    pub(crate) fn into_request(self, alloc: Global) -> Result<RequestParts, HeaderError>
        ensures ok { IfOk result (λ made. (made.method ≡ self.method) × (made.protocol ≡ self.protocol)
            × (made.parts ≡ record { scheme = self.scheme; authority = self.authority; path_and_query = self.path })) }
        ensures err { IfErr result (λ e. (e ≡ HeaderError.OutOfMemory) × (is_path_rooted self.path ≡ true)) }
    {
        let Pseudo {
            method,
            scheme,
            authority,
            path,
            status: _,
            protocol,
        } = self;
        let path_and_query = joined_path(alloc, path)?;
        let parts = Parts {
            scheme,
            authority,
            path_and_query,
        };
        Ok(RequestParts {
            method,
            parts,
            protocol,
        })
    }

    pub(crate) fn method_text(&self) -> Option<&str>
        ensures value { option_copied result ≡ self.now.method }
        ensures valid { IfSome self.now.method IsToken }
    {
        match &self.method {
            Some(part) => Some(part.as_str()),
            None => None,
        }
    }

    pub(crate) fn scheme_text(&self) -> Option<&str>
        ensures value { option_copied result ≡ self.now.scheme }
        ensures valid { IfSome self.now.scheme IsScheme }
    {
        match &self.scheme {
            Some(part) => Some(part.as_str()),
            None => None,
        }
    }

    pub(crate) fn authority_text(&self) -> Option<&str>
        ensures value { option_copied result ≡ self.now.authority }
        ensures valid { IfSome self.now.authority IsAuthority }
    {
        match &self.authority {
            Some(part) => Some(part.as_str()),
            None => None,
        }
    }

    pub(crate) fn status_text(&self) -> Option<&'static str>
        ensures value { option_copied result ≡ option_map code_digits self.now.status }
        ensures valid { IfSome self.now.status IsStatusCode }
    {
        match &self.status {
            Some(part) => {
                // `as_u16` tells that the code is valid.
                let _code = part.as_u16();
                Some(part.as_str())
            }
            None => None,
        }
    }

    pub(crate) fn protocol_text(&self) -> Option<&str>
        ensures value { option_copied result ≡ self.now.protocol }
        ensures valid { IfSome self.now.protocol (IsProtocolBy true) }
    {
        match &self.protocol {
            Some(part) => Some(part.as_str()),
            None => None,
        }
    }

    /// Reads each part.
    pub(crate) fn visit(&self)
        ensures valid { IsValidPseudo true self.now }
        ensures of_bytes { AllByRecursion IsFieldOfBytes (fields_of_pseudo self.now) }
    {
        visit_text(self.method_text());
        visit_text(self.scheme_text());
        visit_text(self.authority_text());
        visit_path(&self.path);
        visit_text(self.status_text());
        visit_text(self.protocol_text());
    }

    /// How many there are.
    pub(crate) fn len(&self) -> usize
        ensures { result ≡ length (fields_of_pseudo self.now) }
    {
        self.method.is_some() as usize
            + self.scheme.is_some() as usize
            + self.authority.is_some() as usize
            + self.path.is_some() as usize
            + self.status.is_some() as usize
            + self.protocol.is_some() as usize
    }

    /// Appends the fields in order.
    pub(crate) fn append_to(
        &self,
        alloc: Global,
        list: &mut Vec<HeaderField>,
    ) -> Result<(), AllocError>
        ensures value { OnOk result (list.new.items
            ≡ list.old.items ++ fields_of_pseudo self.now) }
        ensures valid { OnOk result (IsValidPseudo true self.now) }
    {
        append_pseudo(alloc, list, b":method", self.method_text())?;
        append_pseudo(alloc, list, b":scheme", self.scheme_text())?;
        append_pseudo(alloc, list, b":authority", self.authority_text())?;
        append_path(alloc, list, &self.path)?;
        append_static(list, b":status", self.status_text())?;
        append_pseudo(alloc, list, b":protocol", self.protocol_text())?;
        Ok(())
    }
}
