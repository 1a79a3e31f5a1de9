//! Headers and trailers: the pseudo-header fields and the regular fields of a message
//! (RFC 9114, 4.3).
ghost use Rattle.std.specs.Prelude.{◌≡◌, ◌-◌, ◌^◌, Bool, true, false, [], length, min, IfOk, IfErr, IfSome, IsSome, OnOk, Some, None};
ghost use Rattle.std.specs.List.{AllByRecursion};
ghost use Rattle.http_uri.specs.Uri.{uri_authority};
ghost use Rattle.h3_field.specs.ReadBack.{IsFieldOfBytes};
ghost use Rattle.h3_header.specs.Head.{trailer_head, response_head, head_fields, is_request, is_response, has_pseudo};
ghost use Rattle.h3_header.specs.Request.{host_of, authority_refusal, request_head, RefusesRequest, IsRequestOf};
ghost use Rattle.h3_header.specs.Reads.{RefusesOne, IsHeadOf, head_of_fields};
ghost use Rattle.h3_header.specs.ReadsBack.{ReadsBackBy, as_read};
ghost use Rattle.h3_header.specs.HeadRead.{IsNone, Value, head_of};
ghost use Rattle.h3_header.specs.HeadTests.{takes_protocol};

use crate::ext::Protocol;
use authority::{authority_text, find_refusal, uri_of};
pub use error::HeaderError;
use h3_field::{Fields, HeaderField};
use http::{Method, StatusCode};
use http_header::HeaderMap;
use http_uri::Uri;
pub use iter::HeaderIter;
use iter::RegularIter;
pub use judge::{BadPart, MOST_NAMES, field_kind};
pub use kind::FieldKind;
use pseudo::{Pseudo, RequestParts};
use std::alloc::{AllocError, Global};
use std::marker::Model;

mod authority;
mod connect;
mod error;
mod iter;
mod judge;
mod kind;
mod path;
mod pseudo;
mod read;
mod store;
mod write;

/// The header or the trailer of a message: its pseudo-header fields, and the map of its regular
/// fields.
///
/// A contract sees it as the record of these parts, whose field list is `head_fields`.
#[derive(Debug, Drop)]
pub struct Header {
    pseudo: Pseudo,
    fields: HeaderMap,
}

impl Model for Header {
    ghost use Rattle.h3_header.specs.Head.{Head};
    ghost use Rattle.h3_header.specs.Parts.{head_of_parts};

    ghost Value = { Head };

    ghost view = { λ h. head_of_parts h.pseudo h.fields };
}

impl Header {
    /// The header of a request (RFC 9114, 4.3.1). The authority of the URI and the field `host`
    /// have to be the same bytes, and one of them is needed. A missing scheme is https. A missing path is
    /// `/`, ahead of a query too, which keeps its own form for OPTIONS alone. The protocol counts for
    /// CONNECT alone (RFC 8441, 4).
    pub fn request(
        method: Method,
        uri: Uri,
        fields: HeaderMap,
        protocol: Option<Protocol>,
    ) -> Result<Header, HeaderError>
        ensures ok { IfOk result (λ h. h ≡ request_head method uri fields protocol) }
        ensures agrees { OnOk result (authority_refusal (uri_authority uri) (host_of fields)
            ≡ None) }
        ensures err { IfErr result (λ e. authority_refusal (uri_authority uri) (host_of fields)
            ≡ Some e) }
    {
        match find_refusal(authority_text(uri.authority()), &fields) {
            Some(e) => {
                drop(method);
                drop(uri);
                drop(fields);
                Err(e)
            }
            None => {
                let pseudo = Pseudo::request(method, uri, protocol);
                Ok(Header { pseudo, fields })
            }
        }
    }

    /// The header of a response (RFC 9114, 4.3.2).
    pub fn response(status: StatusCode, fields: HeaderMap) -> Header
        ensures { result ≡ response_head status fields }
    {
        Header {
            pseudo: Pseudo::response(status),
            fields,
        }
    }

    /// A trailer, which has no pseudo-header field (RFC 9114, 4.3).
    pub fn trailer(fields: HeaderMap) -> Header
        ensures { result ≡ trailer_head fields }
    {
        Header {
            pseudo: Pseudo::none(),
            fields,
        }
    }

    /// The method, the URI, the protocol and the regular fields of a request.
    ///
    /// Refused are, in this order: neither `:authority` nor `host` (`MissingAuthority`), both with
    /// other bytes (`ContradictedAuthority`), no `:method` (`MissingMethod`), and parts that make
    /// no URI (`InvalidRequest`). The first `host` stands for a missing `:authority`. That takes memory, and so does a query that was
    /// given without a path.
    pub fn into_request_parts(
        self,
        alloc: Global,
    ) -> Result<(Method, Uri, Option<Protocol>, HeaderMap), HeaderError>
        ensures ok { IfOk result (λ r. IsRequestOf self r.0 r.1 × (r.2 ≡ self.protocol)
            × (r.3 ≡ self.regular)) }
        ensures err { IfErr result (RefusesRequest self) }
    {
        if let Some(e) = self.request_refusal() {
            drop(self);
            return Err(e);
        }
        let Header { pseudo, fields } = self;
        let made = match pseudo.into_request(alloc) {
            Ok(made) => made,
            Err(e) => {
                drop(fields);
                return Err(e);
            }
        };
        let RequestParts {
            method,
            parts,
            protocol,
        } = made;
        let Some(method) = method else { unreachable!() };
        match uri_of(alloc, parts, &fields) {
            Ok(uri) => Ok((method, uri, protocol, fields)),
            Err(e) => {
                drop(method);
                drop(fields);
                Err(e)
            }
        }
    }

    // Why this gives no request, but for its URI.
    fn request_refusal(&self) -> Option<HeaderError>
        ensures refused { IfSome result (RefusesRequest self.now) }
        ensures none { result ≡ None → (authority_refusal self.now.authority (host_of self.now.regular) ≡ None)
            × IsSome self.now.method }
    {
        if let Some(e) = find_refusal(self.pseudo.authority_text(), &self.fields) {
            return Some(e);
        }
        if self.pseudo.method.is_none() {
            return Some(HeaderError::MissingMethod);
        }
        None
    }

    /// The status and the regular fields of a response, or `MissingStatus`.
    pub fn into_response_parts(self) -> Result<(StatusCode, HeaderMap), HeaderError>
        ensures ok { IfOk result (λ r. (self.status ≡ Some r.0) × (r.1 ≡ self.regular)) }
        ensures err { IfErr result (λ e. (e ≡ HeaderError.MissingStatus) × (self.status ≡ None)) }
    {
        match self.status() {
            Some(status) => Ok((status, self.into_fields())),
            None => {
                drop(self);
                Err(HeaderError::MissingStatus)
            }
        }
    }

    /// The regular fields.
    pub fn into_fields(self) -> HeaderMap
        ensures { result ≡ self.regular }
    {
        let Header { pseudo, fields } = self;
        drop(pseudo);
        fields
    }

    /// The number of fields, at most the greatest `usize`.
    pub fn len(&self) -> usize
        ensures { result ≡ min (length (head_fields self.now)) (2 ^ 64 - 1) }
    {
        self.pseudo.len().saturating_add(self.fields.len())
    }

    /// The same as `len`.
    pub fn size(&self) -> usize
        ensures { result ≡ min (length (head_fields self.now)) (2 ^ 64 - 1) }
    {
        self.len()
    }

    /// Whether it has `:method` and no `:status`.
    pub fn is_request(&self) -> bool
        ensures { result ≡ is_request self.now }
    {
        self.pseudo.method.is_some() && self.pseudo.status.is_none()
    }

    /// Whether it has `:status` and no `:method`.
    pub fn is_response(&self) -> bool
        ensures { result ≡ is_response self.now }
    {
        self.pseudo.status.is_some() && self.pseudo.method.is_none()
    }

    /// The status, if it has one.
    pub fn status(&self) -> Option<StatusCode>
        ensures { result ≡ self.now.status }
    {
        self.pseudo.status
    }

    /// Whether its protocol is one of the two names, or any if any is taken, or there is none.
    pub fn takes_protocol(&self, any: bool) -> bool
        ensures { result ≡ takes_protocol any self.now.protocol }
    {
        match &self.pseudo.protocol {
            Some(protocol) => {
                // (for the proof: that it is a token)
                let named = protocol.is_named();
                any || named
            }
            None => true,
        }
    }

    /// Whether it has any pseudo-header field.
    pub fn has_pseudo(&self) -> bool
        ensures { result ≡ has_pseudo self.now }
    {
        self.pseudo.method.is_some()
            || self.pseudo.scheme.is_some()
            || self.pseudo.authority.is_some()
            || self.pseudo.path.is_some()
            || self.pseudo.status.is_some()
            || self.pseudo.protocol.is_some()
    }

    /// The field list: the pseudo-header fields, and then the map's. Reading it back gives a header with this very list: `try_from` does
    /// if the protocol is one of the two names or there is none, and `of_fields` with any protocol does always.
    pub fn fields(&self, alloc: Global) -> Result<Vec<HeaderField>, AllocError>
        ensures value { IfOk result (λ v. v.items ≡ head_fields self.now) }
        ensures reads_back { IfOk result (λ v. (any : Bool) → takes_protocol any self.now.protocol ≡ true → ReadsBackBy any v.items) }
        ensures read_as { IfOk result (λ v. head_of_fields v.items ≡ as_read self.now) }
    {
        let mut list = Vec::with_capacity(alloc, self.len())?;
        self.pseudo.append_to(alloc, &mut list)?;
        write::append_regular(alloc, &mut list, &self.fields)?;
        Ok(list)
    }

    // Reads each part, since the types of the parts tell by their calls what they hold.
    pub(crate) fn visit_parts(&self)
        ensures reads_back { (any : Bool) → takes_protocol any self.now.protocol ≡ true → ReadsBackBy any (head_fields self.now) }
        ensures token { takes_protocol true self.now.protocol ≡ true }
        ensures untaken { takes_protocol false self.now.protocol ≡ false → head_of (head_fields self.now) ≡ IsNone Value }
        ensures read_as { head_of_fields (head_fields self.now) ≡ as_read self.now }
        ensures of_bytes { AllByRecursion IsFieldOfBytes (head_fields self.now) }
    {
        self.pseudo.visit();
        write::visit_regular(&self.fields);
    }

    /// The fields in the order of `fields`, each made as it is asked for.
    pub fn into_iter(self, alloc: Global) -> HeaderIter
        ensures { result ≡ head_fields self }
    {
        let Header { pseudo, fields } = self;
        HeaderIter {
            alloc,
            pseudo,
            regular: RegularIter {
                last: None,
                rest: fields.into_iter(),
            },
        }
    }

    /// Reads the fields in order. The last one of a repeated pseudo-header field stays.
    ///
    /// The first field that is refused decides: `InvalidHeaderName` for a name that is empty, not
    /// in lower case, or unknown with a `:`, `InvalidHeaderValue` for a value that its type
    /// refuses, `TooManyFields` if the map is full. Of `:protocol` the two names of `Protocol` are taken alone.
    pub fn try_from(alloc: Global, fields: Vec<HeaderField>) -> Result<Header, HeaderError>
        ensures ok { IfOk result (IsHeadOf false fields.items) }
        ensures err { IfErr result (RefusesOne false (trailer_head []) fields.items) }
    {
        Header::of_list(alloc, fields, false)
    }

    // The same, with any short token as the value of `:protocol`, or the two names alone.
    pub(crate) fn of_list(
        alloc: Global,
        fields: Vec<HeaderField>,
        any_protocol: bool,
    ) -> Result<Header, HeaderError>
        ensures ok { IfOk result (IsHeadOf any_protocol fields.items) }
        ensures err { IfErr result (RefusesOne any_protocol (trailer_head []) fields.items) }
    {
        Header::of_fields(alloc, &Fields::of(fields.as_slice()), any_protocol)
    }

    /// The same of fields that stay where they are. The value of `:protocol` may be any token of at most 31 bytes, or one of the two names
    /// alone.
    pub fn of_fields(
        alloc: Global,
        fields: &Fields<'_>,
        any_protocol: bool,
    ) -> Result<Header, HeaderError>
        ensures ok { IfOk result (IsHeadOf any_protocol fields.now) }
        ensures err { IfErr result (RefusesOne any_protocol (trailer_head []) fields.now) }
    {
        let mut pseudo = Pseudo::none();
        let (mut map, mut store) = store::room_for(alloc, fields);
        match read::read_fields(
            alloc,
            &mut pseudo,
            &mut map,
            &mut store,
            fields,
            any_protocol,
        ) {
            Ok(()) => Ok(Header {
                pseudo,
                fields: map,
            }),
            Err(e) => {
                drop(pseudo);
                drop(map);
                Err(e)
            }
        }
    }
}
