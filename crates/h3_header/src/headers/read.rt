//! The parts of a header, read from the bytes of a field's name and value.
ghost use Rattle.std.specs.Prelude.{◌≡◌, ⊤, IfOk, OnOk, IfErr, OnErr, MatchBool, MatchResult, Ok, Err, Some, fold};
ghost use Rattle.http_header.specs.Token.{IsToken};
ghost use Rattle.http_header.specs.FieldName.{IsHeaderName};
ghost use Rattle.http_header.specs.FieldValue.{plain_value, IsFieldValue};
ghost use Rattle.http_header.specs.HeaderMap.{append, RefusesAppend};
ghost use Rattle.http.specs.StatusCode.{IsCodeText};
ghost use Rattle.http_uri.specs.Grammar.{IsScheme, IsAuthority, IsPathInput, without_fragment};
ghost use Rattle.h3_header.specs.ProtocolText.{IsProtocolBy};
ghost use Rattle.h3_header.specs.declared.headers.kind.FieldKind.TheVariants as field;
ghost use Rattle.h3_header.specs.Reads.{IsShortMethod, IsValueAt, status_number, RefusesName, RefusesValue, RefusesRegular, RefusesPseudo};
ghost use Rattle.h3_header.specs.Reads.{Accepts, Refuses, AcceptsAll, RefusesOne, with_field, with_pseudo};
ghost use Rattle.h3_header.specs.Parts.{head_of_parts};

use super::authority::{https, root};
use super::error::HeaderError;
use super::kind::FieldKind;
use super::path::RequestPath;
use super::pseudo::Pseudo;
use super::store::Store;
use crate::ext::Protocol;
use crate::grammar::{is_field_value, is_header_name};
use h3_field::{FieldRef, Fields};
use http::method::MethodError;
use http::{Method, StatusCode};
use http_header::{HeaderMap, HeaderMapError, HeaderName, HeaderValue};
use http_uri::{Authority, PathAndQuery, Scheme, UriError};
use std::alloc::Global;

fn read_method(alloc: Global, value: &[u8]) -> Result<Method, HeaderError>
    ensures ok { IfOk result (λ m. IsToken value.now × (m ≡ value.now)) }
    ensures err { IfErr result (RefusesValue (IsToken value.now) (¬ (IsShortMethod value.now))) }
{
    match Method::from_bytes(alloc, value) {
        Ok(method) => Ok(method),
        Err(MethodError::Invalid) => Err(HeaderError::invalid_value(alloc, b":method", value)),
        Err(MethodError::OutOfMemory) => Err(HeaderError::OutOfMemory),
    }
}

fn read_scheme(alloc: Global, value: &[u8]) -> Result<Scheme, HeaderError>
    ensures ok { IfOk result (λ m. IsScheme value.now × (m ≡ value.now)) }
    ensures err { IfErr result (RefusesValue (IsScheme value.now) ⊤) }
{
    if value == b"https".as_slice() {
        return Ok(https());
    }
    match Scheme::from_bytes(alloc, value) {
        Ok(scheme) => Ok(scheme),
        Err(UriError::Invalid(_)) => Err(HeaderError::invalid_value(alloc, b":scheme", value)),
        Err(UriError::OutOfMemory) => Err(HeaderError::OutOfMemory),
    }
}

fn read_authority(alloc: Global, store: &mut Store, value: &[u8]) -> Result<Authority, HeaderError>
    ensures ok { IfOk result (λ m. IsAuthority value.now
        × (m ≡ value.now)) }
    ensures err { IfErr result (RefusesValue (IsAuthority value.now) ⊤) }
{
    match Authority::from_shared(store.keep(value)?) {
        Ok(authority) => Ok(authority),
        Err(_) => Err(HeaderError::invalid_value(alloc, b":authority", value)),
    }
}

fn read_path(alloc: Global, store: &mut Store, value: &[u8]) -> Result<RequestPath, HeaderError>
    ensures ok { IfOk result (λ m. IsPathInput value.now
        × (m ≡ without_fragment value.now)) }
    ensures err { IfErr result (RefusesValue (IsPathInput value.now) ⊤) }
{
    if value == b"/".as_slice() {
        return Ok(RequestPath::of_text(root()));
    }
    match PathAndQuery::from_shared(store.keep(value)?) {
        Ok(path) => Ok(RequestPath::of_text(path)),
        Err(_) => Err(HeaderError::invalid_value(alloc, b":path", value)),
    }
}

fn read_status(alloc: Global, value: &[u8]) -> Result<StatusCode, HeaderError>
    ensures ok { IfOk result (λ m. IsCodeText value.now × (m ≡ status_number value.now)) }
    ensures err { IfErr result (RefusesValue (IsCodeText value.now) (¬ (IsCodeText value.now))) }
{
    match StatusCode::from_bytes(value) {
        Ok(status) => Ok(status),
        Err(_) => Err(HeaderError::invalid_value(alloc, b":status", value)),
    }
}

#[tactic(auto, using(crate::proofs::HeadTestLaws::decided, crate::proofs::HeadTestLaws::protocol_by))]
fn read_protocol(alloc: Global, value: &[u8], any: bool) -> Result<Protocol, HeaderError>
    ensures ok { IfOk result (λ m. IsProtocolBy any value.now × (m ≡ value.now)) }
    ensures err { IfErr result (RefusesValue (IsProtocolBy any value.now) (¬ (IsProtocolBy any value.now))) }
{
    match Protocol::from_bytes(value, any) {
        Ok(protocol) => Ok(protocol),
        Err(_) => Err(HeaderError::invalid_value(alloc, b":protocol", value)),
    }
}

/// A header name, which is in lower case. A standard one takes no memory.
fn read_name(alloc: Global, store: &mut Store, name: &[u8]) -> Result<HeaderName, HeaderError>
    ensures ok { IfOk result (λ n. IsHeaderName name.now
        × (n ≡ name.now)) }
    ensures err { IfErr result (RefusesName (IsHeaderName name.now)) }
{
    // `standard` and `from_shared` take letters of any case, and make them lower case.
    if !is_name(name) {
        return Err(HeaderError::invalid_name(alloc, name));
    }
    if let Some(standard) = HeaderName::standard(name) {
        return Ok(standard);
    }
    match HeaderName::from_shared(alloc, store.keep(name)?) {
        Ok(made) => Ok(made),
        // (`Invalid` is not reached: the name is one)
        Err(_) => Err(HeaderError::OutOfMemory),
    }
}

// Whether a name is one of a field, in lower case.
fn is_name(text: &[u8]) -> bool
    ensures { MatchBool result (IsHeaderName text.now) (¬ (IsHeaderName text.now)) }
{
    is_header_name(text)
}

// Whether a value is one of a field.
fn is_value(text: &[u8]) -> bool
    ensures { MatchBool result (IsFieldValue text.now) (¬ (IsFieldValue text.now)) }
{
    is_field_value(text)
}

fn read_value(
    alloc: Global,
    store: &mut Store,
    name: &HeaderName,
    value: &[u8],
) -> Result<HeaderValue, HeaderError>
    ensures ok { IfOk result (λ v. IsFieldValue value.now
        × (v ≡ plain_value value.now)) }
    ensures err { IfErr result (RefusesValue (IsFieldValue value.now) ⊤) }
{
    if !is_value(value) {
        return Err(HeaderError::invalid_value(alloc, name.as_bytes(), value));
    }
    Ok(HeaderValue::from_known_valid(store.keep(value)?))
}

/// Appends a regular field to the map.
fn append_field(
    alloc: Global,
    map: &mut HeaderMap,
    store: &mut Store,
    name: &[u8],
    value: &[u8],
) -> Result<(), HeaderError>
    ensures ok { OnOk result (IsHeaderName name.now
        × IsFieldValue value.now
        × ¬ (RefusesAppend map.old name.now)
        × (map.new ≡ append map.old name.now
        (plain_value value.now))) }
    ensures err { IfErr result (RefusesRegular map.old name.now
        value.now) }
    ensures kept { OnErr result (map.new ≡ map.old) }
{
    let name = read_name(alloc, store, name)?;
    let value = read_value(alloc, store, &name, value)?;
    match map.append(name, value) {
        Ok(_) => Ok(()),
        Err(HeaderMapError::MaxSizeReached) => Err(HeaderError::TooManyFields),
        Err(HeaderMapError::OutOfMemory) => Err(HeaderError::OutOfMemory),
    }
}

/// Reads the fields in order into the parts of a header, up to the first one that is refused. Their bytes go to the store. The value of
/// `:protocol` may be any token of at most 31 bytes, or one of the two names alone.
pub(crate) fn read_fields(
    alloc: Global,
    pseudo: &mut Pseudo,
    map: &mut HeaderMap,
    store: &mut Store,
    fields: &Fields<'_>,
    any_protocol: bool,
) -> Result<(), HeaderError>
    ensures ok { OnOk result (AcceptsAll any_protocol (head_of_parts pseudo.old map.old) fields.now
        × (head_of_parts pseudo.new map.new ≡ fold with_field (head_of_parts pseudo.old map.old) fields.now)) }
    ensures err { IfErr result (RefusesOne any_protocol (head_of_parts pseudo.old map.old) fields.now) }
{
    'fields: for place in 0..fields.len() {
        read_field(alloc, pseudo, map, store, &fields.get(place), any_protocol)?;
    }
    Ok(())
}

// Reads one field into the parts of a header, and keeps its bytes in the store.
fn read_field(
    alloc: Global,
    pseudo: &mut Pseudo,
    map: &mut HeaderMap,
    store: &mut Store,
    field: &FieldRef<'_>,
    any_protocol: bool,
) -> Result<(), HeaderError>
    ensures ok { OnOk result (Accepts any_protocol (head_of_parts pseudo.old map.old) field.now
        × (head_of_parts pseudo.new map.new ≡ with_field (head_of_parts pseudo.old map.old) field.now)) }
    ensures err { IfErr result (Refuses any_protocol (head_of_parts pseudo.old map.old) field.now) }
{
    let kind = FieldKind::of(field.name());
    match kind {
        FieldKind::Regular => append_field(alloc, map, store, field.name(), field.value()),
        _ => read_pseudo(alloc, pseudo, store, kind, field.value(), any_protocol),
    }
}

// Reads the value of a pseudo-header field, which takes the place of an earlier one.
fn read_pseudo(
    alloc: Global,
    pseudo: &mut Pseudo,
    store: &mut Store,
    kind: FieldKind,
    value: &[u8],
    any_protocol: bool,
) -> Result<(), HeaderError>
    requires { kind ≡ field.Regular → ⊥ }
    ensures ok { OnOk result (IsValueAt any_protocol kind value.now
        × (pseudo.new ≡ with_pseudo kind pseudo.old value.now)) }
    ensures err { IfErr result (RefusesPseudo any_protocol kind value.now) }
{
    match kind {
        FieldKind::Method => put(&mut pseudo.method, read_method(alloc, value)),
        FieldKind::Scheme => put(&mut pseudo.scheme, read_scheme(alloc, value)),
        FieldKind::Authority => put(&mut pseudo.authority, read_authority(alloc, store, value)),
        FieldKind::Path => put(&mut pseudo.path, read_path(alloc, store, value)),
        FieldKind::Status => put(&mut pseudo.status, read_status(alloc, value)),
        FieldKind::Protocol => put(
            &mut pseudo.protocol,
            read_protocol(alloc, value, any_protocol),
        ),
        FieldKind::Regular => unreachable!(),
    }
}

// A part that was read takes the place of an earlier one.
fn put<T: Drop>(place: &mut Option<T>, read: Result<T, HeaderError>) -> Result<(), HeaderError>
    ensures { MatchResult read (λ part. (result ≡ Ok tt) × (place.new ≡ Some part)) (λ e. (result ≡ Err e) × (place.new ≡ place.old)) }
{
    *place = Some(read?);
    Ok(())
}
