//! What a list of fields is as a section of a message. One walk over it tells what it reads as, the rule that it breaks, and what it says
//! of content. The fields are read where they lie.
ghost use Rattle.std.specs.Prelude.{◌≡◌, ◌<◌, [], None, IfOk, IfErr, length};
ghost use Rattle.h3_header.specs.Head.{trailer_head};
ghost use Rattle.h3_header.specs.HeadRead.{head_by};
ghost use Rattle.h3_header.specs.Reads.{RefusesOne};
ghost use Rattle.h3_header.specs.declared.headers.error.HeaderError.TheVariants as error;
ghost use Rattle.h3_messages.specs.Judging.{IsUnread, broken_by, said_by, violation_by, violation_of_reader, violation_of_sender};
ghost use Rattle.h3_messages.specs.Outline.{IsOutlined, refusal_by};

use crate::outline::Outline;
use crate::reading::{ListError, read_long};
use crate::said::Said;
use crate::section::{Rules, Section};
use crate::seen::Seen;
use crate::survey::Survey;
use crate::violation::Violation;
use crate::{own, request, response};
use h3_field::Fields;
use h3_header::MOST_NAMES;
use std::alloc::Global;

/// What a list of fields is as a section of a message.
#[derive(Clone, Copy)]
pub struct Judgment {
    /// At which place of a message the header may stand that it reads as.
    pub outline: Outline,
    /// The first rule that it breaks, of those that are asked.
    pub violation: Option<Violation>,
    /// What it says of content.
    pub said: Said,
}

/// What a list of fields is as such a section by these rules, or why it reads as no header. It takes memory only for a list of more than
/// 24,576 fields, whose names a map has to tell apart.
#[inline(always)]
pub fn judge(
    alloc: Global,
    fields: &Fields<'_>,
    section: Section,
    rules: &Rules,
) -> Result<Judgment, ListError>
    ensures outline { IfOk result (λ it. IsOutlined (head_by rules.now.any_protocol fields.now) it.outline) }
    ensures violation { IfOk result (λ it. it.violation ≡ broken_by section rules.now fields.now) }
    ensures said { IfOk result (λ it. it.said ≡ said_by section rules.now fields.now) }
    ensures unread { IfErr result (IsUnread rules.now.any_protocol fields.now) }
    ensures memory { IfErr result
        (λ e. refusal_by e ≡ None → RefusesOne rules.now.any_protocol (trailer_head []) fields.now error.OutOfMemory) }
{
    if fields.len() > MOST_NAMES {
        return judge_long(alloc, fields, section, rules);
    }
    let mut seen = Seen::new();
    match seen.take_good(fields, rules.any_protocol) {
        Ok(outline) => Ok(judged(outline, &Survey::of(fields, &seen), section, rules)),
        Err(part) => Err(ListError::Malformed(part)),
    }
}

// The same of a list that has more fields than a map has names for: the header that is made of it tells its outline.
#[inline(never)]
fn judge_long(
    alloc: Global,
    fields: &Fields<'_>,
    section: Section,
    rules: &Rules,
) -> Result<Judgment, ListError>
    requires { 24576 < length fields.now }
    ensures outline { IfOk result (λ it. IsOutlined (head_by rules.now.any_protocol fields.now) it.outline) }
    ensures violation { IfOk result (λ it. it.violation ≡ broken_by section rules.now fields.now) }
    ensures said { IfOk result (λ it. it.said ≡ said_by section rules.now fields.now) }
    ensures unread { IfErr result (IsUnread rules.now.any_protocol fields.now) }
    ensures memory { IfErr result
        (λ e. refusal_by e ≡ None → RefusesOne rules.now.any_protocol (trailer_head []) fields.now error.OutOfMemory) }
{
    let outline = match read_long(alloc, fields, rules.any_protocol) {
        Ok(outline) => outline,
        Err(e) => return Err(e),
    };
    let mut seen = Seen::new();
    match seen.take_good(fields, rules.any_protocol) {
        Ok(_) => Ok(judged(outline, &Survey::of(fields, &seen), section, rules)),
        // (not reached: of a header's fields none is malformed)
        Err(part) => Err(ListError::Malformed(part)),
    }
}

// What a list is that reads as a header of this outline, over which the walk was made.
#[inline(always)]
fn judged(outline: Outline, survey: &Survey, section: Section, rules: &Rules) -> Judgment
    ensures outline { result.outline ≡ outline }
    ensures violation { result.violation ≡ broken_by section rules.now survey.now.fields.now }
    ensures said { result.said ≡ said_by section rules.now survey.now.fields.now }
{
    if !rules.strict_messages {
        return Judgment {
            outline,
            violation: None,
            said: Said::Nothing,
        };
    }
    Judgment {
        outline,
        violation: violation_by(survey, section, rules),
        said: Said::by(survey, section, rules.is_sent),
    }
}

// The first rule that it breaks.
fn violation_by(survey: &Survey, section: Section, rules: &Rules) -> Option<Violation>
    ensures { result ≡ violation_by section rules.now survey.now.fields.now }
{
    let earlier = violation_of_reader(survey, section, rules.extended_connect);
    if rules.is_sent {
        return own::violation_after(earlier, survey, section);
    }
    earlier
}

// The first of those by which its reader judges it.
fn violation_of_reader(
    survey: &Survey,
    section: Section,
    extended_connect: bool,
) -> Option<Violation>
    ensures { result ≡ violation_of_reader section extended_connect survey.now.fields.now }
{
    match section {
        Section::Request => request::violation_of(survey, extended_connect),
        Section::Response => response::violation_of(survey),
        Section::Trailer => response::trailer_violation(survey),
    }
}
