//! Laws on headers and their field lists, each the contract of a function.
ghost use Rattle.std.specs.Prelude.{◌≡◌, ◌<◌, ◌≤◌, ℕ, Bool, true, false, codes, ◌∷◌, IfOk, IfErr, List, [], All, length, map, take, get_or};
ghost use Rattle.std.specs.Prelude.{Some, None};
ghost use Rattle.std.specs.List.{AllByRecursion};
ghost use Rattle.h3_field.specs.Field.{Field, plain_field, unflagged, with_flags};
ghost use Rattle.h3_field.specs.ReadBack.{IsFieldOfBytes};
ghost use Rattle.h3_header.specs.BadPart.{bad_part, refusal_of, IsHeadUnlessMany};
ghost use Rattle.h3_header.specs.declared.headers.judge.BadPart.{BadPart};
ghost use Rattle.http_header.specs.FieldValue.{FieldValue};
ghost use Rattle.http_header.specs.HeaderMap.{Entries};
ghost use Rattle.h3_header.specs.AnyProtocol.{asked, asking};
ghost use Rattle.h3_header.specs.Connect.{connect_head};
ghost use Rattle.h3_header.specs.Head.{Head, head_fields, regular_fields, trailer_head};
ghost use Rattle.h3_header.specs.HeadRead.{HeadRefusal, IsHead, IsNone, Value, head_by, head_of, told};
ghost use Rattle.h3_header.specs.Parts.{head_of_parts};
ghost use Rattle.h3_header.specs.Reads.{IsHeadOf, RefusesOne, head_of_fields, kind_of};
ghost use Rattle.h3_header.specs.declared.headers.kind.FieldKind.TheVariants as kind;
ghost use Rattle.h3_header.specs.declared.headers.pseudo.Pseudo.{Pseudo};
ghost use Rattle.h3_header.specs.declared.headers.error.HeaderError.{HeaderError};
ghost use Rattle.h3_header.specs.ReadsBack.{IsValidMap, IsValidPseudo, ReadsBackBy, as_read};
ghost use Rattle.h3_header.specs.HeadTests.{takes_protocol};

use crate::headers::{Header, HeaderError};
use std::alloc::Global;

/// The field list of every header, however it was made, is accepted by who takes its protocol, and it makes a header with
/// this very list. Any short token is taken, or the two names alone: then the list of a header with another one is malformed. It is the
/// same header but for an empty path, which is `/`, and for the marks of sensitive values. Each item of its names and values is below 256.
pub fn every_header_reads_back(header: &Header)
    ensures reads_back { (any : Bool) → takes_protocol any header.now.protocol ≡ true → ReadsBackBy any (head_fields header.now) }
    ensures token { takes_protocol true header.now.protocol ≡ true }
    ensures untaken { takes_protocol false header.now.protocol ≡ false → head_of (head_fields header.now) ≡ IsNone Value }
    ensures read_as { head_of_fields (head_fields header.now) ≡ as_read header.now }
    ensures of_bytes { AllByRecursion IsFieldOfBytes (head_fields header.now) }
{
    header.visit_parts();
}

/// A header there and back: if its protocol is taken, its fields are read as a header with the same fields, and they are
/// refused only when out of memory.
pub fn round_trip(alloc: Global, header: &Header, any: bool) -> Result<Header, HeaderError>
    requires { takes_protocol any header.now.protocol ≡ true }
    ensures ok { IfOk result (λ h. head_fields h ≡ head_fields header.now) }
    ensures err { IfErr result (λ e. e ≡ HeaderError.OutOfMemory) }
{
    let Ok(fields) = header.fields(alloc) else {
        return Err(HeaderError::OutOfMemory);
    };
    Header::of_list(alloc, fields, any)
}

/// A list of so few fields that a map has room for all their names is judged field by field. The first of which anything is malformed
/// refuses it, and if nothing is malformed of any it is a header section's, whether any protocol is taken or the two names alone.
pub fn fields_are_judged_alone()
    ensures refused { (any : Bool) (fields : List Field) (i : ℕ) (f : Field) (part : BadPart) → length fields ≤ 24576 → i < length fields
        → All (λ f. bad_part any f ≡ None) (take i fields) → bad_part any (get_or fields i f) ≡ Some part
        → head_by any fields ≡ IsNone (refusal_of part) }
    ensures head { (any : Bool) (fields : List Field) → All (λ f. bad_part any f ≡ None) (take 24576 fields) → IsHeadUnlessMany any fields }
{}

/// What a field list is read as is a value: its header section, or the first refusal, memory aside. What the value says is so, whether any
/// protocol is taken or the two names alone. What is a header section with the two names is so with any.
pub fn lists_are_their_value()
    ensures head { (any : Bool) (fields : List Field) (h : Head) → IsHeadOf any fields h → head_by any fields ≡ IsHead h }
    ensures refused { (any : Bool) (fields : List Field) (e : HeaderError) (why : HeadRefusal) → RefusesOne any (trailer_head []) fields e
        → told e ≡ Some why → head_by any fields ≡ IsNone why }
    ensures is_head { (any : Bool) (fields : List Field) (h : Head) → head_by any fields ≡ IsHead h → IsHeadOf any fields h }
    ensures is_refused { (any : Bool) (fields : List Field) (e : HeaderError) (why : HeadRefusal) → head_by any fields ≡ IsNone why
        → told e ≡ Some why → RefusesOne any (trailer_head []) fields e }
    ensures named { (any : Bool) (fields : List Field) (h : Head) → IsHeadOf false fields h → head_by any fields ≡ IsHead h }
{}

/// A list is read by names and values alone: it reads alike whichever flag each of its fields gets (RFC 9204, 4.5.4), and so do any two
/// lists of the same names and values. What a header is written as has no flag.
pub fn heads_have_no_flags()
    ensures flags { (any : Bool) (flag : Field → Bool) (fields : List Field) → head_by any (with_flags flag fields) ≡ head_by any fields }
    ensures texts { (any : Bool) (fields others : List Field) → map unflagged fields ≡ map unflagged others
        → head_by any fields ≡ head_by any others }
    ensures written { (h : Head) → map unflagged (head_fields h) ≡ head_fields h }
{}

/// What the choice of any protocol changes. A list without `:protocol` reads alike with it and without it. A list that is a header section
/// with the two names is the same one with any token. And each header section with a token of at most 31 bytes as its protocol is what its
/// own fields read as.
pub fn any_protocol_changes_protocols_alone()
    ensures others { (fields : List Field) → AllByRecursion (λ f. kind_of f.name ≡ kind.Protocol → ⊥) fields
        → head_by true fields ≡ head_of fields }
    ensures stays { (fields : List Field) (h : Head) → head_of fields ≡ IsHead h → head_by true fields ≡ IsHead h }
    ensures tokens_read_back { (p : Pseudo) (m : Entries FieldValue) → IsValidPseudo true p → IsValidMap m
        → head_by true (head_fields (head_of_parts p m)) ≡ IsHead (as_read (head_of_parts p m)) }
{}

/// What a `:protocol` by itself reads as if any is taken (RFC 8441, 4; a token is that of RFC 9110, 5.6.2), and if the two names alone are.
pub fn protocols_read_as_worked()
    ensures websocket { asked true (codes "websocket") ≡ IsHead (asking (codes "websocket")) }
    ensures websocket_off { asked false (codes "websocket") ≡ IsNone Value }
    ensures name_off { asked false (codes "webtransport") ≡ IsHead (asking (codes "webtransport")) }
    ensures empty { asked true (codes "") ≡ IsNone Value }
    ensures spaced { asked true (codes "web socket") ≡ IsNone Value }
    ensures slashed { asked true (codes "a/b") ≡ IsNone Value }
    ensures longest { asked true (codes "abcdefghijklmnopqrstuvwxyzabcde") ≡ IsHead (asking (codes "abcdefghijklmnopqrstuvwxyzabcde")) }
    ensures too_long { asked true (codes "abcdefghijklmnopqrstuvwxyzabcdef") ≡ IsNone Value }
{}

/// What `Header::connect` sends: `:method` and `:authority`, and after them the regular fields (RFC 9114, 4.4). So it has no `:scheme`,
/// `:path` or `:protocol`, which are wrong there, and both that are needed are there once.
pub fn a_connect_is_method_and_authority()
    ensures sent { (authority : List ℕ) (m : Entries FieldValue) → head_fields (connect_head authority m)
        ≡ plain_field (codes ":method") (codes "CONNECT") ∷ plain_field (codes ":authority") authority ∷ regular_fields m }
    ensures row { head_fields (connect_head (codes "example.com:443") [])
        ≡ plain_field (codes ":method") (codes "CONNECT") ∷ plain_field (codes ":authority") (codes "example.com:443") ∷ [] }
{}
