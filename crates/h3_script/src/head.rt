//! The header sections and trailers of a script's lines.
ghost use Rattle.std.specs.Prelude.{◌≡◌, [], OnOk, IfOk, IfErr};
ghost use Rattle.http_header.specs.HeaderMap.{Entries};
ghost use Rattle.http_header.specs.FieldValue.{FieldValue};
ghost use Rattle.h3_header.specs.Head.{Head};
ghost use Rattle.h3_script.specs.Pieces.{texts};
ghost use Rattle.h3_script.specs.HeadText.{AddsField, AddsFields, is_status, IsResponse, IsRequest, IsHeadText, IsTrailerText};
ghost use Rattle.h3_script.specs.ScriptLine.{Denies};

use crate::error::LineError;
use crate::pieces::cut;
use h3_header::Header;
use http::{Method, StatusCode};
use http_header::{HeaderMap, HeaderMapError, HeaderName, HeaderValue};
use http_uri::Uri;
use std::alloc::Global;

/// Adds the field of a word `name=value`, which is cut at its first `=`.
fn add_field(alloc: Global, map: &mut HeaderMap, word: &[u8]) -> Result<(), LineError>
    ensures ok { OnOk result (AddsField map.old word.now map.new) }
    ensures err { IfErr result (Denies ((new : Entries FieldValue) × AddsField map.old word.now new)) }
{
    let Some((name, value)) = cut(word, b'=') else {
        return Err(LineError::NoSuchLine);
    };
    let name = HeaderName::from_bytes(alloc, name)?;
    let value = HeaderValue::from_bytes(alloc, value)?;
    // The contracts of these two say what a name and a value hold.
    name.as_bytes();
    value.as_bytes();
    match map.append(name, value) {
        Ok(_) => Ok(()),
        Err(HeaderMapError::MaxSizeReached) => Err(LineError::NoSuchLine),
        Err(HeaderMapError::OutOfMemory) => Err(LineError::OutOfMemory),
    }
}

/// The fields of some words.
fn fields(alloc: Global, words: &[&[u8]]) -> Result<HeaderMap, LineError>
    ensures ok { IfOk result (AddsFields [] (texts words.now)) }
    ensures err { IfErr result (Denies ((m : Entries FieldValue) × AddsFields [] (texts words.now) m)) }
{
    let mut map = HeaderMap::new(alloc);
    for word in words {
        if let Err(e) = add_field(alloc, &mut map, *word) {
            return Err(e);
        }
    }
    Ok(map)
}

/// Whether the word is three digits.
fn is_status(word: &[u8]) -> bool
    ensures { result ≡ is_status word.now }
{
    let [a, b, c] = word else {
        return false;
    };
    a.is_ascii_digit() && b.is_ascii_digit() && c.is_ascii_digit()
}

/// The header section of a response.
fn response(alloc: Global, status: &[u8], words: &[&[u8]]) -> Result<Header, LineError>
    ensures ok { IfOk result (IsResponse status.now (texts words.now)) }
    ensures err { IfErr result (Denies ((head : Head) × IsResponse status.now (texts words.now) head)) }
{
    let status = StatusCode::from_bytes(status).map_err(|_| LineError::NoSuchLine)?;
    Ok(Header::response(status, fields(alloc, words)?))
}

/// The header section of a request.
fn request(alloc: Global, method: &[u8], uri: &[u8], words: &[&[u8]]) -> Result<Header, LineError>
    ensures ok { IfOk result (IsRequest method.now uri.now (texts words.now)) }
    ensures err { IfErr result (Denies ((head : Head) × IsRequest method.now uri.now (texts words.now) head)) }
{
    let method = Method::from_bytes(alloc, method)?;
    // The contract of this one says what a method holds.
    method.as_str();
    let uri = Uri::from_bytes(alloc, uri)?;
    let fields = fields(alloc, words)?;
    Ok(Header::request(method, uri, fields, None)?)
}

/// A status or a method and a URI, and then fields. A word of three digits is a status.
pub fn head(alloc: Global, words: &[&[u8]]) -> Result<Header, LineError>
    ensures ok { IfOk result (IsHeadText (texts words.now)) }
    ensures err { IfErr result (Denies ((head : Head) × IsHeadText (texts words.now) head)) }
{
    let [what, words @ ..] = words else {
        return Err(LineError::NoSuchLine);
    };
    if is_status(*what) {
        return response(alloc, *what, words);
    }
    match words.split_first() {
        Some((uri, words)) => request(alloc, *what, *uri, words),
        None => Err(LineError::NoSuchLine),
    }
}

/// The fields of a trailer.
pub fn trailer(alloc: Global, words: &[&[u8]]) -> Result<Header, LineError>
    ensures ok { IfOk result (IsTrailerText (texts words.now)) }
    ensures err { IfErr result (Denies ((trailer : Head) × IsTrailerText (texts words.now) trailer)) }
{
    Ok(Header::trailer(fields(alloc, words)?))
}
