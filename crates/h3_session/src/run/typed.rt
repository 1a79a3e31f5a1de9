//! What the types of events say of what they send. These functions change nothing: their contracts are the facts.
ghost use Rattle.std.specs.Prelude.{◌<◌, ◌^◌};
ghost use Rattle.std.specs.List.{AllByRecursion};
ghost use Rattle.h3_field.specs.ReadBack.{IsFieldOfBytes};
ghost use Rattle.h3_session.specs.Typed.{IsHeader, IsTyped};

use h3_coding::varint::VarInt;
use h3_field::HeaderField;
use h3_header::Header;
use h3_header::laws::every_header_reads_back;
use h3_world::event::Event;
use h3_world::lists::FieldLines;

fn header_is_typed(head: &Header)
    ensures { IsHeader head.now }
{
    every_header_reads_back(head);
}

fn fields_are_typed(fields: &[HeaderField])
    ensures { AllByRecursion IsFieldOfBytes fields.now }
{
    for field in fields {
        field.are_bytes();
    }
}

fn list_is_typed(list: &FieldLines)
    ensures { AllByRecursion IsFieldOfBytes list.now }
{
    fields_are_typed(list.fields());
}

fn number_is_typed(number: VarInt)
    ensures { number < 2 ^ 62 }
{
    let _number = number.into_inner();
}

fn event_is_typed(event: &Event)
    ensures { IsTyped event.now }
{
    match event {
        Event::OpenRequest(_) => (),
        Event::Head(_, _, head) => header_is_typed(head),
        Event::Fields(_, _, fields) => list_is_typed(fields),
        Event::Body(_, _, _) => (),
        Event::Trailer(_, _, trailer) => header_is_typed(trailer),
        Event::TrailerFields(_, _, fields) => list_is_typed(fields),
        Event::Finish(_, _) => (),
        Event::Reset(_, _) => (),
        Event::Cancel(_, _) => (),
        Event::Goaway(_, id) => number_is_typed(*id),
        Event::Deliver(_, _, _) => (),
        Event::DeliverEnd(_, _) => (),
        Event::DeliverReset(_, _) => (),
        Event::Pull(_, _) => (),
        Event::PullFields(_, _) => (),
        Event::Show(_) => (),
    }
}

/// Each event is what its types hold.
pub(super) fn events_are_typed(events: &[Event])
    ensures { AllByRecursion IsTyped events.now }
{
    for event in events {
        event_is_typed(event);
    }
}
