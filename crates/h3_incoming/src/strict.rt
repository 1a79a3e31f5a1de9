//! What a field section that came is at its place, and what is known after it: the rule of well-formed messages that it breaks, and how
//! much content follows it, if the endpoint asks for these rules (RFC 9114, sections 4.1.2 and 4.2 to 4.5).
ghost use Rattle.std.specs.Prelude.{◌≡◌, Ok, option_map};
ghost use Rattle.h3_connection.specs.StrictMessages.{broken_rule, malformation_by, content_behind_large};
ghost use Rattle.h3_connection.specs.StrictMessages.{content_at, large_content_at, response_at, if_whole};
ghost use Rattle.h3_incoming.specs.Received.{IsContentBy, response_by, section_at};
ghost use Rattle.h3_messages.specs.Outline.{IsListRead};
ghost use Rattle.h3_messages.specs.declared.outline.Outline.{Outline};

use h3_connection::event::Malformation;
use h3_connection::place::Place;
use h3_connection::setup::Announced;
use h3_field::{FieldBlock, Fields};
use h3_messages::{
    Content, Judgment, ListError, Outline, Rules, Said, Section, Violation, awaited_by, judge,
};
use h3_proto::stream::Side;
use std::alloc::Global;

/// What is known after a field section.
#[derive(Clone, Copy)]
pub(crate) struct After {
    /// The rule that its list breaks.
    pub(crate) broken: Option<Malformation>,
    /// The content after it.
    pub(crate) content: Content,
    /// What is known after it of the content of a response.
    pub(crate) response: Option<Content>,
}

/// Which outline the list in a block has at its place, and what is known after it. In front of it such content was left, and this was
/// known of the content of a response. After a list that reads as no header only the latter counts.
pub(crate) fn read_at(
    alloc: Global,
    side: Side,
    announced: &Announced,
    place: Place,
    content: Content,
    response: Option<Content>,
    block: &FieldBlock,
) -> (Result<Outline, ListError>, After)
    ensures list { IsListRead announced.now.choices.extensions.any_protocol block.now result.0 }
    ensures broken { (o : Outline) → result.0 ≡ Ok o → result.1.broken ≡ broken_rule side announced.now place block.now }
    ensures content { (o : Outline) → result.0 ≡ Ok o → result.1.content ≡ content_at side announced.now place content block.now }
    ensures response { result.1.response ≡ response_at side announced.now place response block.now }
{
    let fields = block.fields();
    let rules = Rules {
        is_sent: false,
        strict_messages: announced.choices.strict_messages,
        any_protocol: announced.choices.extensions.any_protocol,
        extended_connect: announced.extended_connect(),
    };
    match judge(alloc, &fields, section_at(side, place), &rules) {
        Ok(read) => (Ok(read.outline), after_section(content, response, &read)),
        Err(e) => {
            let response = response_unread(side, announced, place, response, &fields);
            (
                Err(e),
                After {
                    broken: None,
                    content,
                    response,
                },
            )
        }
    }
}

// As which section a list is read: a client reads responses, and a server requests.
fn section_at(side: Side, place: Place) -> Section
    ensures { result ≡ section_at side place }
{
    match place {
        Place::BeforeHead => match side {
            Side::Client => Section::Response,
            Side::Server => Section::Request,
        },
        Place::InBody | Place::AfterTrailer | Place::InSession => Section::Trailer,
    }
}

// What is known after a section that was judged so.
#[inline(always)]
fn after_section(content: Content, response: Option<Content>, read: &Judgment) -> After
    ensures broken { result.broken ≡ option_map malformation_by read.now.violation }
    ensures content { IsContentBy content read.now.said result.content }
    ensures response { result.response ≡ response_by response read.now.said }
{
    let broken = told(read.violation);
    match read.said {
        Said::Nothing => After {
            broken,
            content,
            response,
        },
        Said::Request(awaited, own) => After {
            broken,
            content: own.until_answered(),
            response: Some(awaited),
        },
        Said::Response(said) => After {
            broken,
            content: said.behind(content),
            response,
        },
    }
}

// What is known of the content of a response after a list that reads as no header.
fn response_unread(
    side: Side,
    announced: &Announced,
    place: Place,
    response: Option<Content>,
    fields: &Fields<'_>,
) -> Option<Content>
    ensures { result ≡ response_at side announced.now place response fields.now }
{
    if !announced.choices.strict_messages {
        return response;
    }
    match place {
        Place::BeforeHead => match side {
            Side::Client => response,
            Side::Server => Some(awaited_by(fields)),
        },
        Place::InBody | Place::AfterTrailer | Place::InSession => response,
    }
}

// A broken rule as the malformation of a message.
fn told(violation: Option<Violation>) -> Option<Malformation>
    ensures { result ≡ option_map malformation_by violation }
{
    match violation {
        Some(violation) => Some(Malformation::by(violation)),
        None => None,
    }
}

/// The content after a section that is too large, of which only the last status is known. That of a response tells whether content may
/// follow.
pub(crate) fn large_content_at(
    side: Side,
    announced: &Announced,
    place: Place,
    content: Content,
    status: &Option<Vec<u8>>,
) -> Content
    ensures { result ≡ large_content_at side announced.now place content (option_map (λ v. v.items) status.now) }
{
    let asks = announced.choices.strict_messages;
    if asks {
        return content_behind_large(side, place, content, status);
    }
    content
}

fn content_behind_large(
    side: Side,
    place: Place,
    content: Content,
    status: &Option<Vec<u8>>,
) -> Content
    ensures { result ≡ content_behind_large side place content (option_map (λ v. v.items) status.now) }
{
    if let Side::Server = side {
        return content;
    }
    let Place::BeforeHead = place else {
        return content;
    };
    match status {
        Some(text) => content.behind_status(text.as_slice()),
        None => content.behind_status(b""),
    }
}

/// The rule that is broken if a trailer section may not come yet, and else this one (RFC 9114, section 4.1.2).
pub(crate) fn if_whole(content: Content, broken: Option<Malformation>) -> Option<Malformation>
    ensures { result ≡ if_whole content broken }
{
    if content.may_end() {
        return broken;
    }
    Some(Malformation::ContentLength)
}
