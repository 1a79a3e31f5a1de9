//! How much content follows the header section of a response.
ghost use Rattle.std.specs.Prelude.{◌≡◌, List, None, IfSome};
ghost use Rattle.h3_connection.specs.Calls.{Sets, AllSame};
ghost use Rattle.h3_connection.specs.Incoming.{having_told};
ghost use Rattle.h3_connection.specs.Sending.{content_of_response_to};
ghost use Rattle.h3_connection.specs.State.{kept_at};
ghost use Rattle.h3_field.specs.Field.{Field};
ghost use Rattle.h3_messages.specs.ResponseSaid.{response_said};
ghost use Rattle.h3_outgoing.specs.Sent.{is_to_have};
ghost use Rattle.h3_proto.specs.declared.stream.Side.TheVariants.{Server};

use super::RequestStreams;
use h3_messages::{Content, ResponseSaid};
use h3_proto::stream::StreamId;

impl RequestStreams {
    /// After the header section of a response that says so much, as much content is to be sent as its client expects, unless sending on the
    /// stream has ended. If it is not known what was asked, no trailer section comes after a 2xx (RFC 9114, section 4.4). A final one
    /// answers a CONNECT that was read. Nothing happens if the stream is not there.
    pub fn expect_said(&mut self, id: StreamId, said: ResponseSaid)
        ensures there { (fields : List Field) → said ≡ response_said fields → IfSome (kept_at self.old id) (λ r.
            Sets self.old self.new id (record r {
              incoming = having_told Server r.incoming fields;
              outgoing = is_to_have r.outgoing
                  (content_of_response_to r.incoming.response fields);
            })) }
        ensures absent { kept_at self.old id ≡ None → AllSame self.old self.new }
    {
        let Some(stream) = self.streams.get_mut(id) else {
            let _over = self.streams.is_over(id);
            return;
        };
        let content = content_behind(stream.incoming.response(), said);
        stream.incoming.answer(said);
        stream.outgoing.expect(content);
    }
}

// The content after the header section of a response that says so much, if its client awaits this, or what it asked is not known.
fn content_behind(response: Option<Content>, said: ResponseSaid) -> Content
    ensures { (fields : List Field) → said ≡ response_said fields → result ≡ content_of_response_to response fields }
{
    let Some(awaited) = response else {
        return if said.opens_tunnel {
            Content::Tunnel
        } else {
            Content::Unsaid
        };
    };
    said.behind(awaited)
}
