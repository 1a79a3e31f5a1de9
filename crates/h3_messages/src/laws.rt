//! Laws on the rules of messages, each the contract of a function.
ghost use Rattle.std.specs.Prelude.{◌≡◌, Bool, true, false, List, Option, None, Some};
ghost use Rattle.h3_field.specs.Field.{Field, with_flags};
ghost use Rattle.h3_header.specs.BadPart.{refusal_of};
ghost use Rattle.h3_header.specs.Head.{Head};
ghost use Rattle.h3_header.specs.HeadRead.{IsHead, IsNone, head_by};
ghost use Rattle.h3_header.specs.declared.headers.judge.BadPart.{BadPart};
ghost use Rattle.h3_messages.specs.Content.{answered_by, content_of_request, content_behind_response, awaited_by};
ghost use Rattle.h3_messages.specs.InvalidField.{HasInvalidPart, HasSpacedValue, invalid_field};
ghost use Rattle.h3_messages.specs.Messages.{violation_of_request, violation_of_response, violation_of_trailer};
ghost use Rattle.h3_messages.specs.OwnMessages.{content_of_own_request, content_of_own_response, violation_of_own_answer};
ghost use Rattle.h3_messages.specs.OwnMessages.{violation_of_own_request, violation_of_own_trailer};
ghost use Rattle.h3_messages.specs.declared.content.Content.{Content};
ghost use Rattle.h3_messages.specs.declared.violation.Violation.TheVariants as violation;

/// The rules judge a list by names and values alone. Whichever flag each of its fields gets (RFC 9204, 4.5.4), it breaks the rule that it
/// broke, as it comes and as it is sent, and as much content follows it.
pub fn rules_see_no_flags()
    ensures request { (flag : Field → Bool) (extended : Bool) (fields : List Field)
        → violation_of_request extended (with_flags flag fields) ≡ violation_of_request extended fields }
    ensures response { (flag : Field → Bool) (fields : List Field)
        → violation_of_response (with_flags flag fields) ≡ violation_of_response fields }
    ensures trailer { (flag : Field → Bool) (fields : List Field)
        → violation_of_trailer (with_flags flag fields) ≡ violation_of_trailer fields }
    ensures own_request { (flag : Field → Bool) (extended : Bool) (fields : List Field)
        → violation_of_own_request extended (with_flags flag fields) ≡ violation_of_own_request extended fields }
    ensures own_answer { (flag : Field → Bool) (known : Option Content) (fields : List Field)
        → violation_of_own_answer known (with_flags flag fields) ≡ violation_of_own_answer known fields }
    ensures own_trailer { (flag : Field → Bool) (fields : List Field)
        → violation_of_own_trailer (with_flags flag fields) ≡ violation_of_own_trailer fields }
    ensures asked { (flag : Field → Bool) (fields : List Field) → awaited_by (with_flags flag fields) ≡ awaited_by fields }
    ensures content_of_request { (flag : Field → Bool) (fields : List Field)
        → content_of_request (with_flags flag fields) ≡ content_of_request fields }
    ensures content_of_response { (flag : Field → Bool) (content : Content) (fields : List Field)
        → content_behind_response content (with_flags flag fields) ≡ content_behind_response content fields }
    ensures answered { (flag : Field → Bool) (content : Content) (fields : List Field)
        → answered_by content (with_flags flag fields) ≡ answered_by content fields }
    ensures request_content { (flag : Field → Bool) (fields : List Field)
        → content_of_own_request (with_flags flag fields) ≡ content_of_own_request fields }
    ensures response_content { (flag : Field → Bool) (content : Content) (fields : List Field)
        → content_of_own_response content (with_flags flag fields) ≡ content_of_own_response content fields }
{}

/// A list that is refused for a name or a value has an invalid field, and `invalid_field` tells its index. One that is no header section by
/// a name or a value has it at its first field with a malformed name or value (RFC 9114, 4.2 and 4.3): that part of it is malformed, and
/// nothing of the fields before it. One that is a header section has no such field. If it is refused for a value by the rules of its
/// sender, as a request, a response or a trailer, the index is that of the first field with white space around its value (RFC 9114, 10.3).
pub fn refused_lists_have_an_invalid_field()
    ensures read { (any strict : Bool) (fields : List Field) (bad : BadPart) → head_by any fields ≡ IsNone (refusal_of bad)
        → HasInvalidPart any strict fields bad }
    ensures head { (any : Bool) (fields : List Field) (head : Head) → head_by any fields ≡ IsHead head
        → invalid_field any false fields ≡ None }
    ensures request { (any : Bool) (fields : List Field) (head : Head) → head_by any fields ≡ IsHead head → (extended : Bool)
        → violation_of_own_request extended fields ≡ Some violation.Value → HasSpacedValue any true fields }
    ensures response { (any : Bool) (fields : List Field) (head : Head) → head_by any fields ≡ IsHead head → (known : Option Content)
        → violation_of_own_answer known fields ≡ Some violation.Value → HasSpacedValue any true fields }
    ensures trailer { (any : Bool) (fields : List Field) (head : Head) → head_by any fields ≡ IsHead head
        → violation_of_own_trailer fields ≡ Some violation.Value → HasSpacedValue any true fields }
{}
