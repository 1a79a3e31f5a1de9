//! HTTP Datagrams.
ghost use Rattle.std.specs.Prelude.{◌≡◌, ◌≤◌, ◌^◌};
ghost use Rattle.h3_c.specs.Datagrams.{GivesHead, ReadsOne, read_given};
ghost use Rattle.h3_c.specs.Exported.{OnStream};

use super::Connection;
use crate::capsules::put_head;
use crate::numbers::{ARGUMENT, NO_DATAGRAMS, OK, Told, refused, unsent};
use h3_connection::event::Refusal;
use h3_proto::stream::StreamId;
use h3_session::endpoint::DatagramRead;

impl Connection {
    /// What stands in front of the payload of a datagram for the request on a stream.
    #[tactic(auto, using(crate::proofs::Datagrams::gives_head))]
    pub(crate) fn datagram_head(&self, id: u64, buffer: &mut [u8], count: &mut usize) -> Told
        ensures gives { OnStream id result self.now self.now (GivesHead self.now id result buffer.old buffer.new count.old count.new) }
        ensures unwritten { 2 ^ 62 ≤ id → (buffer.new ≡ buffer.old) × (count.new ≡ count.old) }
    {
        let Ok(stream) = StreamId::try_from(id) else {
            return ARGUMENT;
        };
        match self.endpoint.datagram_head(stream) {
            Ok(head) => put_head(&head, buffer, count),
            Err(error) => unsent(error),
        }
    }

    /// A datagram came.
    pub(crate) fn read_datagram(&mut self, bytes: &[u8], id: &mut u64, from: &mut usize) -> Told
        ensures does { ReadsOne self.old self.new bytes.now result id.old id.new from.old from.new }
        ensures sessions { self.new.sessions ≡ self.old.sessions }
    {
        put_read(self.endpoint.read_datagram(bytes), id, from)
    }
}

// What a datagram is that came, as C sees it.
fn put_read(read: DatagramRead, id: &mut u64, from: &mut usize) -> Told
    ensures { (result, id.new, from.new) ≡ read_given read id.old from.old }
{
    match read {
        DatagramRead::For(stream, place) => {
            *id = stream.into_inner();
            *from = place;
            OK
        }
        DatagramRead::Early(stream) => {
            *id = stream.into_inner();
            refused(Refusal::NotOpen)
        }
        DatagramRead::Late => refused(Refusal::AfterEnd),
        DatagramRead::Off => NO_DATAGRAMS,
        DatagramRead::Fault(code) => refused(Refusal::Connection(code)),
    }
}
