//! An exchange by lists of fields (RFC 9114, section 4.3): no header is made of a header section, at either end.
use crate::endpoints::{Stop, carry, carry_own};
use crate::log::{field, words};
use h3_session::endpoint::Endpoint;
use h3_session::{BlockPull, Fields, HeaderField, ListItem, ListPull, Plain, StreamId, Told};
use std::alloc::{AllocError, Global};

/// A GET and its response. The server takes lists that it could keep; the client reads each list where it lies, in memory that serves
/// again.
pub(crate) fn exchange(
    alloc: Global,
    text: &mut String,
    client: &mut Endpoint,
    server: &mut Endpoint,
) -> Result<(), Stop> {
    let id = client.open_request()?;
    send_list(client, id, request(alloc)?)?;
    carry_own(alloc, client, server)?;
    carry(alloc, client, server, id)?;
    pull_lists(text, server, id)?;
    send_list(server, id, response(alloc)?)?;
    carry_own(alloc, client, server)?;
    carry(alloc, server, client, id)?;
    read_blocks(alloc, text, client, id)
}

fn request(alloc: Global) -> Result<Vec<HeaderField>, AllocError> {
    let mut list = Vec::new(alloc);
    add(&mut list, b":method", b"GET")?;
    add(&mut list, b":scheme", b"https")?;
    add(&mut list, b":authority", b"www.example.com")?;
    add(&mut list, b":path", b"/status")?;
    Ok(list)
}

fn response(alloc: Global) -> Result<Vec<HeaderField>, AllocError> {
    let mut list = Vec::new(alloc);
    add(&mut list, b":status", b"204")?;
    add(&mut list, b"x-took", b"1 ms")?;
    Ok(list)
}

fn add(
    list: &mut Vec<HeaderField>,
    name: &'static [u8],
    value: &'static [u8],
) -> Result<(), AllocError> {
    list.reserve(1)?;
    list.push_reserved(HeaderField::from_static(name, value));
    Ok(())
}

/// A message that is a header section alone.
fn send_list(endpoint: &mut Endpoint, id: StreamId, list: Vec<HeaderField>) -> Result<(), Stop> {
    let sent = endpoint.send_fields(id, &Fields::of(list.as_slice()));
    drop(list);
    sent?;
    Ok(endpoint.finish(id)?)
}

/// Pulls lists until the end, or until more has to come. (No message here has eight items.)
fn pull_lists(text: &mut String, endpoint: &mut Endpoint, id: StreamId) -> Result<(), Stop> {
    for _ in 0..8u32 {
        match endpoint.pull_fields(id) {
            ListPull::Item(ListItem::Head(list)) => {
                words(text, "server: a head")?;
                show(text, &list.fields())?;
            }
            ListPull::Item(ListItem::End) => return Ok(words(text, "server: the end")?),
            _ => return Ok(words(text, "server: nothing more")?),
        }
    }
    Ok(())
}

/// The same by one block for all header sections: a field is lent from its place in the block.
fn read_blocks(
    alloc: Global,
    text: &mut String,
    endpoint: &mut Endpoint,
    id: StreamId,
) -> Result<(), Stop> {
    let mut answer = BlockPull::new(alloc);
    for _ in 0..8u32 {
        endpoint.pull_block(id, &mut answer);
        if !is_read(text, &answer)? {
            return Ok(());
        }
    }
    Ok(())
}

/// Lines of what the pull said, and whether to pull again at once.
fn is_read(text: &mut String, answer: &BlockPull) -> Result<bool, AllocError> {
    match answer.told() {
        Told::Message(_, _) => {
            words(text, "client: a head")?;
            show(text, &answer.fields())?;
            Ok(true)
        }
        Told::Plain(Plain::End) => {
            words(text, "client: the end")?;
            Ok(false)
        }
        Told::Plain(_) => {
            words(text, "client: nothing more")?;
            Ok(false)
        }
    }
}

/// A line for each field, which is lent from its place.
fn show(text: &mut String, list: &Fields<'_>) -> Result<(), AllocError> {
    for place in 0..list.len() {
        let lent = list.get(place);
        field(text, lent.name(), lent.value())?;
    }
    Ok(())
}
