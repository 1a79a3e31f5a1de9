//! The path and the query of a request, as `:path` has them (RFC 9114, 4.3.1).
ghost use Rattle.std.specs.Prelude.{◌≡◌, ◌∷◌, ◌++◌, true, codes, IfOk, OnOk, IfErr, IfSome, option_map, unwrap_or};
ghost use Rattle.http_uri.specs.Grammar.{IsPathAndQuery, IsPathInput, or_slash, without_fragment};
ghost use Rattle.h3_field.specs.ReadBack.{AreBytes};
ghost use Rattle.h3_header.specs.Head.{optional_field};
ghost use Rattle.h3_header.specs.Request.{is_path_rooted};
ghost use Rattle.h3_header.specs.RequestPath.{has_room, rooted, is_rooted};
ghost use Rattle.h3_field.specs.Field.{plain_field};

use super::authority::root;
use super::error::HeaderError;
use super::write::{pseudo_field, visit_text};
use bytes::Bytes;
use h3_field::HeaderField;
use http::Method;
use http_uri::PathAndQuery;
use std::alloc::{AllocError, Global};
use std::fmt;
use std::marker::Model;

// The greatest length of a query that `/` can stand ahead of: a path and a query have at most 65,534 bytes.
const MOST_BEHIND_SLASH: usize = 65533;

/// A path and a query. A query alone may have `/` ahead of it, for which it is not copied.
#[derive(Drop)]
pub(crate) struct RequestPath {
    text: PathAndQuery,
    // `/` stands ahead of the text
    behind_slash: bool,
}

impl Model for RequestPath {
    ghost use Rattle.std.specs.Prelude.{ℕ, List};
    ghost use Rattle.h3_header.specs.RequestPath.{behind};

    ghost Value = { List ℕ };

    ghost view = { λ p. behind p.behind_slash p.text };

    ghost use Rattle.std.specs.Prelude.{◌≡◌, true};
    ghost use Rattle.h3_header.specs.RequestPath.{has_room};

    ghost invariant = { λ p. p.behind_slash ≡ true → has_room p.text ≡ true };
}

impl RequestPath {
    /// The path as it came.
    pub(crate) fn of_text(text: PathAndQuery) -> RequestPath
        ensures { result ≡ text }
    {
        RequestPath {
            text,
            behind_slash: false,
        }
    }

    /// The path that a request is sent with: `/` if it has none, ahead of a query too.
    pub(crate) fn of_request(method: &Method, path: Option<PathAndQuery>) -> RequestPath
        ensures { result ≡ rooted method.now (unwrap_or path (codes "/")) }
    {
        let text = match path {
            Some(text) => text,
            None => root(),
        };
        let behind_slash = method.as_str() != "OPTIONS" && has_room(text.as_str());
        RequestPath { text, behind_slash }
    }

    /// The field `:path`. An empty path is `/`.
    pub(crate) fn field(&self, alloc: Global) -> Result<HeaderField, AllocError>
        ensures { IfOk result (λ f. f ≡ plain_field (codes ":path") (or_slash self.now)) }
    {
        let text = self.text.as_str();
        if !self.behind_slash {
            return pseudo_field(alloc, b":path", text);
        }
        let value = with_slash(alloc, text)?;
        Ok(HeaderField::with_static_name(b":path", value))
    }

    /// Reads its bytes.
    #[tactic(auto, using(crate::proofs::PathLemmas::valid_behind))]
    pub(crate) fn visit(&self)
        ensures valid { IsPathAndQuery self.now }
        ensures of_bytes { AreBytes (or_slash self.now) }
    {
        visit_text(Some(self.text.as_str()));
    }

    // It as one text, which takes memory if `/` stands ahead of it.
    fn into_text(self, alloc: Global) -> Result<PathAndQuery, HeaderError>
        ensures ok { IfOk result (λ t. t ≡ self) }
        ensures err { IfErr result (λ e. (e ≡ HeaderError.OutOfMemory) × (is_rooted self ≡ true)) }
    {
        if !self.behind_slash {
            return Ok(self.text);
        }
        match with_slash(alloc, self.text.as_str()) {
            Ok(joined) => path_of(joined),
            Err(_) => Err(HeaderError::OutOfMemory),
        }
    }
}

// The bytes of a path, taken over as they are.
fn path_of(joined: Vec<u8>) -> Result<PathAndQuery, HeaderError>
    requires { IsPathInput joined.items }
    ensures ok { IfOk result (λ t. t ≡ without_fragment joined.items) }
    ensures err { IfErr result (λ e. e ≡ HeaderError.OutOfMemory) }
{
    match Bytes::from_vec(joined) {
        Ok(shared) => Ok(PathAndQuery::from_shared(shared).unwrap()),
        Err(_) => Err(HeaderError::OutOfMemory),
    }
}

/// The path as one text, if there is one.
pub(crate) fn joined_path(
    alloc: Global,
    path: Option<RequestPath>,
) -> Result<Option<PathAndQuery>, HeaderError>
    ensures ok { IfOk result (λ t. t ≡ path) }
    ensures err { IfErr result (λ e. (e ≡ HeaderError.OutOfMemory) × (is_path_rooted path ≡ true)) }
{
    match path {
        Some(path) => Ok(Some(path.into_text(alloc)?)),
        None => Ok(None),
    }
}

/// Appends the field `:path`, if there is a path.
pub(crate) fn append_path(
    alloc: Global,
    list: &mut Vec<HeaderField>,
    path: &Option<RequestPath>,
) -> Result<(), AllocError>
    ensures value { OnOk result (list.new.items ≡ list.old.items ++ optional_field (codes ":path") (option_map or_slash path.now)) }
    ensures valid { OnOk result (IfSome path.now IsPathAndQuery) }
{
    if let Some(path) = path {
        path.visit();
        list.push(path.field(alloc)?)?;
    }
    Ok(())
}

/// Reads the bytes of a path, if there is one.
pub(crate) fn visit_path(path: &Option<RequestPath>)
    ensures valid { IfSome path.now IsPathAndQuery }
    ensures of_bytes { IfSome (option_map or_slash path.now) AreBytes }
{
    if let Some(path) = path {
        path.visit();
    }
}

/// The text as it is sent.
impl fmt::Debug for RequestPath {
    fn fmt<W: fmt::Write>(&self, f: &mut fmt::Formatter<W>) -> fmt::Result {
        if self.behind_slash {
            f.write_str("/")?;
        }
        f.write_str(self.text.as_str())
    }
}

// Whether the text is a query alone, and has room for `/`.
fn has_room(text: &str) -> bool
    ensures { result ≡ has_room text.now }
{
    text.as_bytes().first() == Some(&b'?') && text.len() <= MOST_BEHIND_SLASH
}

fn with_slash(alloc: Global, text: &str) -> Result<Vec<u8>, AllocError>
    ensures { IfOk result (λ joined. joined.items ≡ 47 ∷ text.now) }
{
    let mut joined = Vec::with_capacity(alloc, text.len() + 1)?;
    joined.push(b'/')?;
    joined.extend_from_slice(text.as_bytes())?;
    Ok(joined)
}
