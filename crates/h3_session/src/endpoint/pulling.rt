//! What comes next on a stream, and the streams of which nothing more is needed.
ghost use Rattle.std.specs.Prelude.{◌≡◌, true, false, [], Some, None, IfSome, is_some, unwrap_or, OnOk, OnErr, IfErr};
ghost use Rattle.h3_connection.specs.Calls.{AllSame};
ghost use Rattle.h3_connection.specs.Endpoint.{EndpointHistory, kind_of};
ghost use Rattle.h3_connection.specs.Endpoint.Kind.{PeerUnidirectional};
ghost use Rattle.h3_connection.specs.Keeping.{settles, is_settled_request};
ghost use Rattle.h3_connection.specs.Pulling.{is_memory};
ghost use Rattle.h3_connection.specs.ReceivingContracts.{PullsNext};
ghost use Rattle.h3_connection.specs.SendingContracts.{Cancels};
ghost use Rattle.h3_connection.specs.State.{StandsFor, kept_at};
ghost use Rattle.h3_connection.specs.declared.event.Refusal.TheVariants.{OutOfMemory};
ghost use Rattle.h3_requests.specs.Refused.{cancel_refused_at};
ghost use Rattle.h3_session.specs.Canceling.{CancelsAt};
ghost use Rattle.h3_incoming.specs.Answering.{Lists, fault_told};
ghost use Rattle.h3_incoming.specs.HeaderSlots.{MakesHeader};
ghost use Rattle.h3_connection.specs.declared.event.Pull.{Pull};
ghost use Rattle.h3_connection.specs.Lists.{list_of, pull_of};
ghost use Rattle.h3_requests.specs.Coming.{fields_at};
ghost use Rattle.h3_session.specs.Listing.{ListsItem, ListsNext};
ghost use Rattle.h3_requests.specs.Limited.{PullsWithin, ResumesThere, unopened_answer};
ghost use Rattle.h3_session.specs.Pulling.{PullsItem, ReadsKept, answer_code, closed_with, settled_in};
ghost use Rattle.h3_session.specs.Changes.{ChangesRequests};

use super::Endpoint;
use h3_connection::event::{Fault, Pull, Refusal};
use h3_connection::lists::ListPull;
use h3_connection::setup::Announced;
use h3_incoming::{BlockPull, HeaderSlot};
use h3_proto::error::Code;
use h3_proto::stream::{Side, StreamId};
use h3_requests::RequestStreams;
use h3_streams::ids::StreamKind;
use h3_streams::streams::ConnectionStreams;
use h3_unidirectional::waiting::WaitingBytes;
use std::alloc::{AllocError, Global};

/// The fault of the connection that an answer tells.
fn fault_of(answer: &BlockPull) -> Option<Code>
    ensures { result ≡ answer_code (pull_of answer.now) }
{
    let fault = answer.fault();
    code_told(&fault)
}

fn code_told(fault: &Option<Fault>) -> Option<Code>
    ensures { (answer : Pull) → fault.now ≡ fault_told answer → result ≡ answer_code answer }
{
    match fault {
        Some(fault) => match fault {
            Fault::Connection(code) => Some(*code),
            Fault::Stream(_) => None,
            Fault::Memory => None,
        },
        None => None,
    }
}

/// The next item of a request stream.
#[tactic(auto, using(crate::proofs::Behind::pulls_behind))]
fn pull_stream(
    requests: &mut RequestStreams,
    alloc: Global,
    side: Side,
    announced: &Announced,
    id: StreamId,
    streams: &mut ConnectionStreams,
    out: &mut BlockPull,
    header: &mut HeaderSlot,
)
    ensures absent { kept_at requests.old id ≡ None → (pull_of out.new ≡ unopened_answer side) × (requests.new ≡ requests.old)
        × (streams.new.own.decoder ≡ streams.old.own.decoder) }
    ensures there { is_some (kept_at requests.new id) ≡ is_some (kept_at requests.old id) }
    ensures answer { is_memory (pull_of out.new) ≡ false
        → IfSome (kept_at requests.old id) (λ before. IfSome (kept_at requests.new id) (λ after.
        PullsWithin side announced.now id streams.old.decoding.decoder requests.old requests.new before after
        (pull_of out.new) streams.old.own.decoder streams.new.own.decoder)) }
    ensures memory { is_memory (pull_of out.new) ≡ true
        → IfSome (kept_at requests.old id) (λ before. IfSome (kept_at requests.new id) (λ after.
        ResumesThere announced.now requests.old requests.new id before after)) × (streams.new.own.decoder ≡ streams.old.own.decoder) }
    ensures rest { streams.new ≡ record streams.old { own = record streams.old.own { decoder = streams.new.own.decoder } } }
    ensures settled { IfSome (kept_at requests.old id)
        (λ before. is_settled_request (Some before.incoming) ≡ true → is_memory (pull_of out.new) ≡ false) }
    ensures list { Lists (list_of out.new) (fields_at announced.now streams.old.decoding.decoder (kept_at requests.old id)) }
    ensures header { MakesHeader header.old header.new (list_of out.new) }
{
    let replies = &mut streams.own.decoder;
    let decoding = &streams.decoding;
    requests.pull_into(
        alloc,
        side,
        announced,
        id,
        decoding.decoder(),
        replies.behind_mut(),
        out,
        header,
    )
}

// Gives up what comes on a stream if that is allowed, with one look-up, and tells the peer's encoder.
#[tactic(auto, using(crate::proofs::Behind::cancels_behind))]
fn cancel_stream(
    requests: &mut RequestStreams,
    alloc: Global,
    id: StreamId,
    replies: &mut WaitingBytes,
) -> Result<(), Refusal>
    ensures ok { OnOk result (CancelsAt requests.old requests.new replies.old replies.new id (kept_at requests.old id)) }
    ensures taken { OnOk result (cancel_refused_at (kept_at requests.old id) ≡ None) }
    ensures why { IfErr result (λ r. r ≡ unwrap_or (cancel_refused_at (kept_at requests.old id)) OutOfMemory) }
    ensures err { OnErr result (AllSame requests.old requests.new × (replies.new ≡ replies.old)) }
{
    requests.cancel_stream(alloc, id, replies.behind_mut())
}

impl Endpoint {
    /// What comes next on a stream: the fault of the connection, the fault for which the stream was given up, its end again, or its next
    /// item. All that came before is read first. A fault of the connection closes it. `Fault::Memory` loses nothing: what came is read on
    /// by the next delivery or pull, and the stream goes on as if it had not been asked. No pull sets back how often the type and length of
    /// the frame under way were tried (`frames`): at most 17 times, however often a stream is pulled.
    pub fn pull(&mut self, id: StreamId) -> Pull
        ensures { PullsNext self.old self.new id result }
    {
        let mut out = BlockPull::new(self.alloc);
        let mut header = HeaderSlot::Asked;
        self.pull_into(id, &mut out, &mut header);
        out.with_header(header)
    }

    /// What comes next on a stream, as `pull` answers it, but with each header section and trailer as the list of its fields. The fields
    /// are as they came, in the order in which they came, and no header is made of them. The endpoint is left as `pull` leaves it, and
    /// `Fault::Memory` loses nothing. It makes a header only of a list of more than 24,576 fields, to judge it.
    pub fn pull_fields(&mut self, id: StreamId) -> ListPull
        ensures pulls { PullsNext self.old self.new id (pull_of result) }
        ensures list { ListsNext self.old id (list_of result) }
    {
        let mut out = BlockPull::new(self.alloc);
        self.pull_block(id, &mut out);
        out.into_pull()
    }

    /// The same, with the fields of a header section or trailer in a block of memory that serves again. `out` keeps the memory of its last
    /// answer for the next one, and a header section or trailer takes memory only if it is longer.
    #[inline(always)]
    pub fn pull_block(&mut self, id: StreamId, out: &mut BlockPull)
        ensures pulls { PullsNext self.old self.new id (pull_of out.new) }
        ensures list { ListsNext self.old id (list_of out.new) }
    {
        self.pull_into(id, out, &mut HeaderSlot::Unasked);
    }

    // The same, and the header of the list if one is asked for.
    #[inline(always)]
    #[tactic(auto, using(crate::proofs::PullingKept::pull_closed, crate::proofs::PullingKept::pull_alone, crate::proofs::PullingKept::pull_settled, crate::proofs::PullingKept::pull_behind, crate::proofs::PullingKept::pull_faulty, crate::proofs::PullingKept::pull_lacked, crate::proofs::Listing::lists_no_next, crate::proofs::Listing::lists_settled, crate::proofs::Headers::makes_none))]
    fn pull_into(&mut self, id: StreamId, out: &mut BlockPull, header: &mut HeaderSlot)
        ensures pulls { PullsNext self.old self.new id (pull_of out.new) }
        ensures list { ListsNext self.old id (list_of out.new) }
        ensures header { MakesHeader header.old header.new (list_of out.new) }
    {
        if let Some(code) = self.closed {
            out.fail(Fault::Connection(code));
            return;
        }
        if self.kept.is_empty() {
            return self.pull_next(id, out, header);
        }
        if self.is_settled(id) {
            return self.pull_next(id, out, header);
        }
        match self.read_kept() {
            Ok(None) => self.pull_next(id, out, header),
            Ok(Some(code)) => {
                self.closed = Some(code);
                out.fail(Fault::Connection(code));
            }
            Err(_) => out.fail(Fault::Memory),
        }
    }

    // Whether the answer to each further pull is settled.
    #[tactic(auto, using(crate::proofs::PullingStreams::settled_is))]
    pub(super) fn is_settled(&self, id: StreamId) -> bool
        ensures { (e : EndpointHistory) → StandsFor self.now e → result ≡ settles e id }
    {
        self.is_settled_here(id)
    }

    fn is_settled_here(&self, id: StreamId) -> bool
        ensures { result ≡ settled_in self.now id (kind_of self.now.side id) }
    {
        match StreamKind::of(self.side, id) {
            StreamKind::Request => self.requests.is_settled(id),
            StreamKind::PeerUnidirectional => match self
                .streams
                .unidirectional
                .get(&id.into_inner())
            {
                Some(stream) => stream.is_settled(),
                None => false,
            },
            StreamKind::ServerOpened => false,
            StreamKind::OwnUnidirectional => false,
        }
    }

    // Reads all that is kept, up to the first fault, which it answers.
    #[tactic(auto, using(crate::proofs::PullingKept::kept_same))]
    fn read_kept(&mut self) -> Result<Option<Code>, AllocError>
        ensures reads { (e : EndpointHistory) → StandsFor self.old e → ReadsKept e result self.new }
        ensures none_kept { OnOk result (self.new.kept ≡ []) }
    {
        let Ok(arrivals) = self.take_kept(0) else {
            return Err(AllocError);
        };
        self.read_all(arrivals)
    }

    // The stream's next item, whatever is kept.
    #[tactic(auto, using(crate::proofs::PullingStreams::pulls_server_opened, crate::proofs::PullingStreams::pulls_own, crate::proofs::Listing::lists_no_item, crate::proofs::Headers::makes_none))]
    #[inline(always)]
    fn pull_next(&mut self, id: StreamId, out: &mut BlockPull, header: &mut HeaderSlot)
        ensures item { PullsItem self.old self.new id (pull_of out.new) }
        ensures list { ListsItem self.old id (list_of out.new) }
        ensures header { MakesHeader header.old header.new (list_of out.new) }
    {
        match StreamKind::of(self.side, id) {
            StreamKind::Request => {
                self.pull_stored(id, out, header);
                self.close_if(fault_of(out));
            }
            StreamKind::PeerUnidirectional => self.pull_peer(id, out),
            StreamKind::ServerOpened | StreamKind::OwnUnidirectional => out.no_messages(),
        }
    }

    #[tactic(auto, using(crate::proofs::PullingStreams::pulls_peer))]
    fn pull_peer(&mut self, id: StreamId, out: &mut BlockPull)
        requires { kind_of self.old.side id ≡ PeerUnidirectional }
        ensures item { PullsItem self.old self.new id (pull_of out.new) }
        ensures none { list_of out.new ≡ None }
    {
        out.give_made(self.streams.pull(id));
    }

    // A fault of the connection closes it.
    fn close_if(&mut self, fault: Option<Code>)
        ensures { self.new ≡ closed_with fault self.old }
    {
        if let Some(code) = fault {
            self.closed = Some(code);
        }
    }

    fn pull_stored(&mut self, id: StreamId, out: &mut BlockPull, header: &mut HeaderSlot)
        ensures rest { ChangesRequests self.old self.new }
        ensures absent { kept_at self.old.requests id ≡ None → (pull_of out.new ≡ unopened_answer self.old.side)
            × (self.new.requests ≡ self.old.requests) × (self.new.own.decoder ≡ self.old.own.decoder) }
        ensures there { is_some (kept_at self.new.requests id) ≡ is_some (kept_at self.old.requests id) }
        ensures answer { is_memory (pull_of out.new) ≡ false
            → IfSome (kept_at self.old.requests id) (λ before. IfSome (kept_at self.new.requests id) (λ after.
            PullsWithin self.old.side self.old.announced id self.old.decoding.decoder self.old.requests self.new.requests before after
            (pull_of out.new) self.old.own.decoder self.new.own.decoder)) }
        ensures memory { is_memory (pull_of out.new) ≡ true
            → IfSome (kept_at self.old.requests id) (λ before. IfSome (kept_at self.new.requests id) (λ after.
            ResumesThere self.old.announced self.old.requests self.new.requests id before after))
            × (self.new.own.decoder ≡ self.old.own.decoder) }
        ensures settled { IfSome (kept_at self.old.requests id)
            (λ before. is_settled_request (Some before.incoming) ≡ true → is_memory (pull_of out.new) ≡ false) }
        ensures list { Lists (list_of out.new) (fields_at self.old.announced self.old.decoding.decoder (kept_at self.old.requests id)) }
        ensures header { MakesHeader header.old header.new (list_of out.new) }
    {
        let alloc = self.alloc;
        let side = self.side;
        let announced = &self.announced;
        let streams = &mut self.streams;
        let requests = &mut self.requests;
        pull_stream(requests, alloc, side, announced, id, streams, out, header)
    }

    /// Nothing more is needed of a request stream: what came on it is thrown away, and the peer's encoder learns of it (RFC 9204, section
    /// 2.2.2.2). Refused are first calls after a connection fault, then streams that the connection needs, then those that are not open.
    /// Last are those whose end a pull returned or that were given up. `OutOfMemory` changes nothing.
    #[tactic(auto, using(crate::proofs::ReceivingCancel::cancel_critical, crate::proofs::ReceivingCancel::cancels))]
    pub fn cancel(&mut self, id: StreamId) -> Result<(), Refusal>
        ensures { Cancels self.old self.new id result }
    {
        if let Some(refusal) = self.critical_refusal(id) {
            return Err(refusal);
        }
        self.cancel_open(id)
    }

    fn cancel_open(&mut self, id: StreamId) -> Result<(), Refusal>
        ensures rest { ChangesRequests self.old self.new }
        ensures ok { OnOk result
            (CancelsAt self.old.requests self.new.requests self.old.own.decoder self.new.own.decoder id (kept_at self.old.requests id)) }
        ensures taken { OnOk result (cancel_refused_at (kept_at self.old.requests id) ≡ None) }
        ensures why { IfErr result (λ r. r ≡ unwrap_or (cancel_refused_at (kept_at self.old.requests id)) OutOfMemory) }
        ensures err { OnErr result (AllSame self.old.requests self.new.requests × (self.new.own.decoder ≡ self.old.own.decoder)) }
    {
        let replies = &mut self.streams.own.decoder;
        cancel_stream(&mut self.requests, self.alloc, id, replies)
    }
}
