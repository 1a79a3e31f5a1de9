//! What the definitions of an endpoint come to over lists of calls. These functions do nothing: their contracts are the laws.
ghost use Rattle.std.specs.Prelude.{◌≡◌, ℕ, List, [], Some, Bool};
ghost use Rattle.h3_proto.specs.declared.stream.Side.{Side};
ghost use Rattle.h3_connection.specs.declared.setup.Announced.{Announced};
ghost use Rattle.h3_connection.specs.Endpoint.{EndpointHistory, first_decoder, kind_of, new_endpoint};
ghost use Rattle.h3_connection.specs.Endpoint.Kind.{Request};
ghost use Rattle.h3_connection.specs.CallLists.{Call, called, endpoint_after};
ghost use Rattle.h3_connection.specs.Isolation.{IsIsolated, IsIsolatedUpToFault, IsIsolatedInFront, Before, GoesOn, FindsNoFault, Sight};
ghost use Rattle.h3_connection.specs.Isolation.{IsSight, view, sight_after, answers_seen, fold_seen, first_sight, view_of, answers_to_view};
ghost use Rattle.h3_connection.specs.Isolation.{before_first_fault, view_before_fault, answers_before_fault, encoders_in};

/// The answers to a request stream's calls are a fold over its view. The view has its own calls, and the deliveries to the peer's
/// unidirectional streams whose bytes begin with the type of an encoder stream. No other stream counts, up to the first connection fault.
/// Before that fault its answers, and what is left of it and of the decoder's table, are a fold over what it sees (`answers`, `left`),
/// whatever comes after. So two lists of calls with equal views of a stream are answered alike on it up to the first connection fault in
/// either.
pub fn each_stream_is_isolated()
    ensures fold { (encoders : ℕ → Bool) (id : ℕ) (e : EndpointHistory) (s : Sight) (calls : List Call) → Before encoders id e s
        → GoesOn encoders e calls →
        answers_seen encoders id e calls ≡ fold_seen e.side e.announced id s (view encoders id e calls) }
    ensures sight { (encoders : ℕ → Bool) (id : ℕ) (e : EndpointHistory) (s : Sight) (calls : List Call) → Before encoders id e s
        → GoesOn encoders e calls →
        IsSight encoders id (endpoint_after e calls) (sight_after e.side e.announced id s (view encoders id e calls)) }
    ensures view { (side : Side) (own : Announced) (id : ℕ) (calls : List Call) → kind_of side id ≡ Request
        → FindsNoFault (new_endpoint side own) calls →
        answers_to_view side own id calls ≡ fold_seen side own id (first_sight side own) (view_of side own id calls) }
    ensures equal_views { (side : Side) (own : Announced) (id : ℕ) → IsIsolated side own id }
    ensures front { (e : EndpointHistory) (calls : List Call) → FindsNoFault e (before_first_fault e calls) }
    ensures answers { (side : Side) (own : Announced) (id : ℕ) (calls : List Call) → kind_of side id ≡ Request →
        answers_before_fault side own id calls ≡ fold_seen side own id (first_sight side own) (view_before_fault side own id calls) }
    ensures left { (side : Side) (own : Announced) (id : ℕ) (calls : List Call) → kind_of side id ≡ Request →
        IsSight (encoders_in side calls) id (endpoint_after (new_endpoint side own) (before_first_fault (new_endpoint side own) calls))
        (sight_after side own id (first_sight side own) (view_before_fault side own id calls)) }
    ensures up_to_fault { (side : Side) (own : Announced) (id : ℕ) → IsIsolatedUpToFault side own id }
    ensures in_front { (side : Side) (own : Announced) (id : ℕ) → IsIsolatedInFront side own id }
{}

ghost use Rattle.h3_connection.specs.Arrivals.{BytesCame, EndCame, ResetCame};
ghost use Rattle.h3_connection.specs.Delivering.{deliver, deliver_end, deliver_reset};
ghost use Rattle.h3_connection.specs.Keeping.{arrives, pulls};
ghost use Rattle.h3_connection.specs.Sending.{pull};

/// If nothing is kept, what comes and what is pulled are the plain calls.
pub fn nothing_kept_is_plain()
    ensures bytes { (e : EndpointHistory) (id : ℕ) (bytes : List ℕ) → e.kept ≡ [] → arrives e (BytesCame id bytes) ≡ deliver e id bytes }
    ensures end { (e : EndpointHistory) (id : ℕ) → e.kept ≡ [] → arrives e (EndCame id) ≡ deliver_end e id }
    ensures reset { (e : EndpointHistory) (id code : ℕ) → e.kept ≡ [] → arrives e (ResetCame id code) ≡ deliver_reset e id code }
    ensures pulled { (e : EndpointHistory) (id : ℕ) → e.kept ≡ [] → pulls e id ≡ pull e id }
{}

ghost use Rattle.std.specs.Prelude.{◌≤◌};
ghost use Rattle.h3_connection.specs.declared.event.Refusal.TheVariants as refusal;
ghost use Rattle.h3_connection.specs.declared.event.Pull.TheVariants as answer;
ghost use Rattle.h3_connection.specs.declared.event.Fault.TheVariants as fault;

/// After a connection fault every pull answers it, and every delivery, whatever is called between.
pub fn a_connection_fault_stays()
    ensures pulled { (e : EndpointHistory) (calls : List Call) (id code : ℕ) → e.closed ≡ Some code
        → (pull (endpoint_after e calls) id).0 ≡ answer.Fault (fault.Connection code) }
    ensures delivered { (e : EndpointHistory) (calls : List Call) (id code : ℕ) (bytes : List ℕ) → e.closed ≡ Some code
        → (deliver (endpoint_after e calls) id bytes).0 ≡ Some (refusal.Connection code) }
    ensures pulls_kept { (e : EndpointHistory) (id code : ℕ) → e.closed ≡ Some code
        → pulls e id ≡ (answer.Fault (fault.Connection code), e) }
    ensures arrives_kept { (e : EndpointHistory) (a : Arrival) (code : ℕ) → e.closed ≡ Some code
        → arrives e a ≡ (Some (refusal.Connection code), e) }
{}

ghost use Rattle.h3_connection.specs.Arrivals.{Arrival};
ghost use Rattle.h3_field.specs.Field.{Field};
ghost use Rattle.h3_connection.specs.Bounds.{IsBounded, StandsBounded};
ghost use Rattle.h3_connection.specs.PartReading.{ReadsPart, Resumes};
ghost use Rattle.h3_connection.specs.ReceivingContracts.{StoresArrival, LosesNothing};
ghost use Rattle.h3_connection.specs.SendingContracts.{CutsOff};
ghost use Rattle.h3_connection.specs.Shown.{block_tries, waiting_heads};
ghost use Rattle.h3_connection.specs.State.{EndpointState};

/// No section is tried more than twice, and no more streams wait than the endpoint announced, whatever comes. This also holds of what is
/// left when an allocation failed: after a delivery that was kept, and after a pull that lost nothing. It holds too after a header section
/// or trailer whose sending ended early. Any other call that is refused as out of memory changes nothing.
pub fn tries_and_waiting_streams_are_bounded()
    ensures calls { (side : Side) (own : Announced) (calls : List Call) → IsBounded (endpoint_after (new_endpoint side own) calls) }
    ensures call { (e : EndpointHistory) (c : Call) → IsBounded e → IsBounded (called e c).1 }
    ensures arrives { (e : EndpointHistory) (a : Arrival) → IsBounded e → IsBounded (arrives e a).1 }
    ensures pulls { (e : EndpointHistory) (id : ℕ) → IsBounded e → IsBounded (pulls e id).1 }
    ensures kept { (e : EndpointHistory) (a : Arrival) (new : EndpointState) → IsBounded e → StoresArrival e a new → StandsBounded new }
    ensures lost { (e : EndpointHistory) (id : ℕ) (new : EndpointState) → IsBounded e → LosesNothing e id new → StandsBounded new }
    ensures cut_off { (e : EndpointHistory) (id : ℕ) (fields : List Field) (new : EndpointState) → IsBounded e → CutsOff e id fields new
        → StandsBounded new }
    ensures part { (e after : EndpointHistory) (arrivals : List Arrival) → IsBounded e → ReadsPart e arrivals after → IsBounded after }
    ensures asked { (e : EndpointHistory) (id : ℕ) (old new : Incoming) → stream_at e.incoming id ≡ Some old
        → Resumes e.side e.announced id old new → IsBounded e → IsBounded (with_incoming e id new) }
    ensures tries { (e : EndpointHistory) (id : ℕ) → IsBounded e → block_tries e id ≤ 2 }
    ensures waiting { (e : EndpointHistory) → IsBounded e → waiting_heads e ≤ e.announced.limits.blocked }
{}

ghost use Rattle.std.specs.Prelude.{Result, Ok};
ghost use Rattle.h3_header.specs.Head.{Head};
ghost use Rattle.h3_connection.specs.declared.event.DeliverError.{DeliverError};
ghost use Rattle.h3_connection.specs.declared.event.Pull.{Pull};
ghost use Rattle.h3_connection.specs.declared.event.Refusal.{Refusal};
ghost use Rattle.h3_connection.specs.Calls.{MakesEnd};
ghost use Rattle.h3_connection.specs.ReceivingContracts.{Receives, PullsNext};
ghost use Rattle.h3_connection.specs.EndsWaiting.{TakesEnd};
ghost use Rattle.h3_connection.specs.SendingContracts.{Opens, SendsHead, SendsBody, SendsTrailer, Finishes, Resets, GoesAway, Cancels};
ghost use Rattle.h3_connection.specs.SendingContracts.{Advances};

/// An endpoint stands for a history with these bounds from its making on. Each call's contract alone says that it leaves one, whether the
/// call was answered, was refused, or ran out of memory.
pub fn endpoints_stay_bounded()
    ensures made { (side : Side) (announced : Announced) (s : EndpointState) → MakesEnd side (Ok announced) s → StandsBounded s }
    ensures received { (old new : EndpointState) (a : Arrival) (result : Result Unit DeliverError) → Receives old new a result
        → StandsBounded old → StandsBounded new }
    ensures pulled { (old new : EndpointState) (id : ℕ) (result : Pull) → PullsNext old new id result → StandsBounded old
        → StandsBounded new }
    ensures opened { (old new : EndpointState) (result : Result ℕ Refusal) → Opens old new result → StandsBounded old → StandsBounded new }
    ensures head { (old new : EndpointState) (id : ℕ) (head : Head) (result : Result Unit Refusal) → SendsHead old new id head result
        → StandsBounded old → StandsBounded new }
    ensures body { (old new : EndpointState) (id : ℕ) (bytes : List ℕ) (result : Result Unit (Refusal × List ℕ))
        → SendsBody old new id bytes result → StandsBounded old → StandsBounded new }
    ensures trailer { (old new : EndpointState) (id : ℕ) (head : Head) (result : Result Unit Refusal) → SendsTrailer old new id head result
        → StandsBounded old → StandsBounded new }
    ensures finished { (old new : EndpointState) (id : ℕ) (result : Result Unit Refusal) → Finishes old new id result → StandsBounded old
        → StandsBounded new }
    ensures reset { (old new : EndpointState) (id : ℕ) (result : Result Unit Refusal) → Resets old new id result → StandsBounded old
        → StandsBounded new }
    ensures goaway { (old new : EndpointState) (id : ℕ) (result : Result Unit Refusal) → GoesAway old new id result → StandsBounded old
        → StandsBounded new }
    ensures canceled { (old new : EndpointState) (id : ℕ) (result : Result Unit Refusal) → Cancels old new id result → StandsBounded old
        → StandsBounded new }
    ensures advanced { (old new : EndpointState) (id count : ℕ) → Advances old new id count → StandsBounded old → StandsBounded new }
    ensures end { (old new : EndpointState) (id : ℕ) (result : Bool) → TakesEnd old new id result → StandsBounded old → StandsBounded new }
{}

ghost use Rattle.h3_connection.specs.declared.event.Item.TheVariants as item;
ghost use Rattle.h3_connection.specs.HandedOut.{RequestIsOver, SessionIsOver, EndsSoundly};
ghost use Rattle.std.specs.Prelude.{◌∷◌};
ghost use Rattle.h3_connection.specs.CallLists.Call.{PullStream};

/// Once the end of a stream was delivered, every later pull of it answers the end, up to a connection fault. This holds in every list of
/// calls of a new endpoint, of a request stream and of a session on a unidirectional stream.
pub fn the_end_stays()
    ensures begins { (e : EndpointHistory) (id : ℕ) → (pull e id).0 ≡ answer.Item item.End → EndsSoundly e id
        → RequestIsOver (pull e id).1 id }
    ensures stays { (e : EndpointHistory) (calls : List Call) (id : ℕ) → IsBounded e → e.closed ≡ None → RequestIsOver e id
        → FindsNoFault e calls →
        (pull (endpoint_after e calls) id).0 ≡ answer.Item item.End }
    ensures session { (e : EndpointHistory) (id : ℕ) → e.closed ≡ None → SessionIsOver e id → (pull e id).0 ≡ answer.Item item.End }
    ensures calls { (side : Side) (own : Announced) (before between : List Call) (id : ℕ) → FindsNoFault (new_endpoint side own) before
        → FindsNoFault (endpoint_after (new_endpoint side own) before) (PullStream id ∷ between) →
        (pull (endpoint_after (new_endpoint side own) before) id).0 ≡ answer.Item item.End →
        (pull (endpoint_after (endpoint_after (new_endpoint side own) before) (PullStream id ∷ between)) id).0 ≡ answer.Item item.End }
{}

ghost use Rattle.std.specs.Prelude.{true};
ghost use Rattle.h3_connection.specs.Draining.{is_served, NoneComes};
ghost use Rattle.h3_connection.specs.Shutdown.{is_drained};

/// A connection that is drained stays drained (RFC 9114, section 5.2), whatever is called and whatever comes, over every list of calls of
/// any endpoint. Nothing is left to be done but that a further GOAWAY of its own is taken, if it sends one. A server has to ask that
/// requests from its GOAWAY on are rejected (`Config::with_requests_rejected`), and its caller to leave these out.
pub fn drained_stays()
    ensures served { (e : EndpointHistory) (calls : List Call) → NoneComes e.side e calls → is_served e ≡ true
        → is_served (endpoint_after e calls) ≡ true }
    ensures drained { (e : EndpointHistory) (calls : List Call) → NoneComes e.side e calls
        → (endpoint_after e calls).own.goaways ≡ e.own.goaways → is_drained e ≡ true → is_drained (endpoint_after e calls) ≡ true }
{}

ghost use Rattle.h3_connection.specs.Delivering.{delivery_refusal, unidirectional_at, with_unidirectional};
ghost use Rattle.h3_connection.specs.Endpoint.Kind.{PeerUnidirectional};
ghost use Rattle.h3_connection.specs.StrictConnection.{kinds_of, knows_sessions, known_streams};
ghost use Rattle.h3_connection.specs.Unidirectional.{role_after};
ghost use Rattle.h3_connection.specs.Unidirectional.Role.{Untold, Ignored};
ghost use Rattle.h3_connection.specs.CallLists.{answers};
ghost use Rattle.h3_connection.specs.Isolation.{brought_on};
ghost use Rattle.h3_connection.specs.UnknownStreams.{IsUnread, without_stream, answers_without};

/// Bytes of a unidirectional stream of unknown type change nothing but what is known of that stream. Over whole lists of calls all others
/// are answered as without those of this stream. This holds whatever comes on it, be it its end or its reset, and also if the connection
/// has a fault.
pub fn unknown_streams_change_nothing_else()
    ensures bytes { (e : EndpointHistory) (id : ℕ) (bytes rest : List ℕ) → e.closed ≡ None → kind_of e.side id ≡ PeerUnidirectional
        → delivery_refusal e id ≡ None →
        role_after (known_streams e.announced) (unidirectional_at e id).role bytes ≡ (Ignored, rest) →
        deliver e id bytes ≡ (None, with_unidirectional e id (record (unidirectional_at e id) { role = Ignored })) }
    ensures calls { (side : Side) (own : Announced) (id : ℕ) (calls : List Call) → kind_of side id ≡ PeerUnidirectional
        → IsUnread (role_after (known_streams own) (Untold []) (brought_on id calls)).0 →
        answers_without id (new_endpoint side own) calls ≡ answers (new_endpoint side own) (without_stream id calls) }
{}

ghost use Rattle.std.specs.List.{concat};
ghost use Rattle.h3_qpack.specs.DecoderState.{DecoderState, announcing};
ghost use Rattle.h3_connection.specs.Delivering.{with_incoming};
ghost use Rattle.h3_connection.specs.Incoming.{Incoming};
ghost use Rattle.h3_connection.specs.PeerReading.{Peer, with_unread, read_peer};
ghost use Rattle.h3_frames.specs.declared.frame.kinds.FrameKinds.{FrameKinds};
ghost use Rattle.h3_connection.specs.Pulling.{left_with, pull_stream};
ghost use Rattle.h3_connection.specs.StreamSets.{stream_at};
ghost use Rattle.h3_connection.specs.UnknownFrames.{BeginsUnknown, MayBeginFrame, ReadsControl};

/// Whole frames of unknown types (RFC 9114, section 9) give nothing, wherever a frame may begin. A pull of a request stream answers what it
/// answers without them and leaves the same. So does a delivery on the peer's control stream, also one of nothing else.
pub fn unknown_frames_give_nothing()
    ensures stream { (side : Side) (own : Announced) (id : ℕ) (r : DecoderState) (i : Incoming) (rest : List ℕ) → MayBeginFrame i
        → BeginsUnknown (kinds_of own) (concat i.unread) rest →
        pull_stream side own id r i ≡ pull_stream side own id r (left_with i rest) }
    ensures pulled { (e : EndpointHistory) (id : ℕ) (i : Incoming) (rest : List ℕ) → e.closed ≡ None → kind_of e.side id ≡ Request
        → stream_at e.incoming id ≡ Some i →
        MayBeginFrame i → BeginsUnknown (kinds_of e.announced) (concat i.unread) rest
        → pull e id ≡ pull (with_incoming e id (left_with i rest)) id }
    ensures peer { (kinds : FrameKinds) (limit : ℕ) (side : Side) (p : Peer) (rest : List ℕ) → BeginsUnknown kinds p.unread rest
        → read_peer kinds limit side p ≡ read_peer kinds limit side (with_unread p rest) }
    ensures delivered { (e : EndpointHistory) (id : ℕ) (bytes rest : List ℕ) → ReadsControl e id → e.peer.unread ≡ []
        → BeginsUnknown (kinds_of e.announced) bytes rest → deliver e id bytes ≡ deliver e id rest }
    ensures alone { (e : EndpointHistory) (id : ℕ) (bytes : List ℕ) → ReadsControl e id → e.peer.unread ≡ []
        → BeginsUnknown (kinds_of e.announced) bytes [] → deliver e id bytes ≡ (None, e) }
{}

ghost use Rattle.std.specs.Prelude.{◌++◌, None};
ghost use Rattle.h3_connection.specs.DeliveryCuts.{SameAnswers, LeftAs, role_with, IsNoSession, deliver_cut};

/// However the bytes of a unidirectional stream of the peer are cut, they are answered alike and leave the same. But an increment may be
/// written in two, whose sum it is. A fault that is found in the first bytes is found in all of them, if the settings came before or no
/// bytes of the decoder stream wait for them. Sessions are left out: they wait in pieces.
pub fn cut_deliveries_are_answered_alike()
    ensures taken { (e : EndpointHistory) (id : ℕ) (first second : List ℕ) → kind_of e.side id ≡ PeerUnidirectional
        → (deliver e id first).0 ≡ None → IsNoSession (role_with e id (first ++ second)) →
        SameAnswers (LeftAs (role_with e id (first ++ second)) e.own.replies) (deliver e id (first ++ second))
        (deliver_cut e id first second) }
    ensures refused { (e : EndpointHistory) (id : ℕ) (first second : List ℕ) (why : Refusal)
        → (e.peer.settings ≡ None → e.decoder_unread ≡ []) → (deliver e id first).0 ≡ Some why →
        ((deliver e id (first ++ second)).0 ≡ Some why) × ((deliver_cut e id first second).0 ≡ Some why) }
{}

ghost use Rattle.h3_connection.specs.Delivering.{incoming_at};
ghost use Rattle.h3_connection.specs.PullCuts.{HaveBytes, DifferInCuts, DifferInOneStream, PullsAlike};
ghost use Rattle.h3_connection.specs.JoinedPulls.{joined_pulls, JoinedAlike};

/// However what waits on a request stream was cut into pieces, a pull answers the same and leaves what differs only in cuts. Only a piece
/// of a body or of a session may differ: one is a front of the other. Pulled until something else comes, these have the same bytes in all,
/// and the same comes after them. Bytes that come in one delivery or in two are answered alike. They leave endpoints of which nothing else
/// differs, so that no other stream sees it.
pub fn cut_pulls_are_answered_alike()
    ensures delivered { (e : EndpointHistory) (id : ℕ) (first second : List ℕ) → kind_of e.side id ≡ Request
        → HaveBytes (incoming_at e id).unread →
        SameAnswers (DifferInOneStream id) (deliver e id (first ++ second)) (deliver_cut e id first second) }
    ensures one { (side : Side) (own : Announced) (id : ℕ) (r : DecoderState) (i j : Incoming) → DifferInCuts i j
        → PullsAlike (pull_stream side own id r i) (pull_stream side own id r j) }
    ensures joined { (side : Side) (own : Announced) (id : ℕ) (r : DecoderState) (i j : Incoming) → DifferInCuts i j
        → JoinedAlike (joined_pulls side own id r i) (joined_pulls side own id r j) }
{}

ghost use Rattle.h3_connection.specs.CallCuts.{Part, first_calls, second_calls, DifferInCutsAlone, AreCuts, AllAnsweredAlike};

/// Two lists of calls that differ only in how the bytes of streams are cut into deliveries, with pulls that end at the same bytes, are
/// answered alike. Both get the same refusals, the same items, and pieces of a body or of a session that have the same bytes in all. This
/// holds up to a connection fault, which both find in the same part. What is left differs in cuts alone: in the pieces that wait, and in
/// how insertions are acknowledged by increments (RFC 9204, section 4.4.3). So it is of any stream, sessions included.
pub fn cut_calls_are_answered_alike()
    ensures calls { (side : Side) (own : Announced) (parts : List Part) → AreCuts (new_endpoint side own) (new_endpoint side own) parts
        → AllAnsweredAlike (new_endpoint side own) (new_endpoint side own) parts }
    ensures behind { (e f : EndpointHistory) (parts : List Part) → DifferInCutsAlone e f → e.closed ≡ None → AreCuts e f parts
        → AllAnsweredAlike e f parts }
    ensures left { (e f : EndpointHistory) (parts : List Part) → DifferInCutsAlone e f → e.closed ≡ None → AreCuts e f parts
        → FindsNoFault e (first_calls parts) →
        DifferInCutsAlone (endpoint_after e (first_calls parts)) (endpoint_after f (second_calls parts)) }
    ensures delivered { (e : EndpointHistory) (id : ℕ) (first second : List ℕ) → DifferInCutsAlone e e → (deliver e id first).0 ≡ None →
        SameAnswers DifferInCutsAlone (deliver e id (first ++ second)) (deliver_cut e id first second) }
{}

ghost use Rattle.h3_connection.specs.StrictPulls.{PullsWellFormed};

/// If an endpoint asks for strict messages, each header section and trailer that a pull returns was read from a field list that is
/// well-formed. This is the list as it came, and it breaks no rule of well-formed messages (RFC 9114, sections 4.1.2 and 4.2 to 4.5).
pub fn strict_endpoints_hand_out_no_broken_list()
    ensures { PullsWellFormed }
{}

ghost use Rattle.h3_connection.specs.CountedContent.{CountsContent, HeadsHaveTheirContent};

/// If a message's header section says how long its content is, no more than that is delivered, however it comes and is pulled. Its end, and
/// a trailer, are delivered after exactly as much (RFC 9114, section 4.1.2). After a header section that it delivers, a strict endpoint
/// expects the content that its field list says. This is for a server that of a request, and for a client that of a response to what was
/// asked. After that of a request the server also knows what its response may have.
pub fn content_is_as_long_as_was_said()
    ensures counts { CountsContent }
    ensures heads { HeadsHaveTheirContent }
{}

ghost use Rattle.h3_connection.specs.NoContent.{HandsOutNoContent, RemembersHead};

/// A response to HEAD has no content, whatever its `content-length` says (RFC 9110, section 9.3.2; RFC 9114, section 4.1.2). If a strict
/// client sends a request of HEAD, its receiver awaits none. Of one that awaits none no byte is delivered, however it comes and is pulled.
pub fn a_response_to_head_has_no_content()
    ensures asked { RemembersHead }
    ensures none { HandsOutNoContent }
{}

ghost use Rattle.h3_connection.specs.StrictSends.{SendsWellFormedHeads, SendsWellFormedTrailers};

/// What an endpoint that asks for strict messages sends, a peer that asks for them takes. A header section and a trailer that go out break
/// no rule of well-formed messages (RFC 9114, sections 4.1.2 and 4.2 to 4.5) as the peer judges their lists. This holds whatever the peer
/// announced, so long as it announced extended CONNECT if the settings that came of it say so.
pub fn strict_endpoints_send_no_broken_list()
    ensures heads { SendsWellFormedHeads }
    ensures trailers { SendsWellFormedTrailers }
{}

ghost use Rattle.h3_connection.specs.SentContent.{HeadsSayTheirContent, PeersExpectAsMuch, SendsAsMuchAsSaid};

/// The content that a strict endpoint sends is as long as its header section said (RFC 9114, section 4.1.2). No more is sent, and the end,
/// and a trailer, go out after exactly as much. After a header section that it sends, as much is to be sent as a strict peer expects there,
/// or nothing if the peer takes any: after TRACE and after 205 (RFC 9110, 9.3.8 and 15.3.6). Of a response this holds if the server
/// delivered the header section of its request before. If it did not, no length is held against what it sends, and no trailer goes out
/// after 2xx.
pub fn strict_endpoints_send_as_much_content_as_was_said()
    ensures heads { HeadsSayTheirContent }
    ensures peers { PeersExpectAsMuch }
    ensures sent { SendsAsMuchAsSaid }
{}

ghost use Rattle.std.specs.Prelude.{◌*◌, true};
ghost use Rattle.h3_proto.specs.Config.{is_limit};
ghost use Rattle.h3_proto.specs.declared.config.Choices.{Choices};
ghost use Rattle.h3_proto.specs.declared.frame.SettingsError.{SettingsError};
ghost use Rattle.h3_qpack.specs.InstructionSizes.{most_instruction};
ghost use Rattle.h3_connection.specs.Announcing.{announced_by, section_of};
ghost use Rattle.h3_connection.specs.declared.setup.Limits.{Limits};

/// A limit on what is unfinished takes whatever a peer may send that keeps to what is announced. This is an encoding of a list of the
/// greatest size (`section`), or an instruction for the whole table (`instruction`). It is also what has 256 bytes (`other`), as each
/// SETTINGS frame of this library.
pub fn a_limit_takes_what_is_announced()
    ensures section { (settings : Result (List (ℕ × ℕ)) SettingsError) (limits : Limits) (choices : Choices) (a : Announced)
        → announced_by settings limits choices ≡ Ok a →
        is_limit a.choices.unfinished_limit ≡ true → 4 * section_of a ≤ a.choices.unfinished_limit }
    ensures instruction { (settings : Result (List (ℕ × ℕ)) SettingsError) (limits : Limits) (choices : Choices) (a : Announced)
        → announced_by settings limits choices ≡ Ok a →
        is_limit a.choices.unfinished_limit ≡ true → most_instruction a.limits.table ≤ a.choices.unfinished_limit }
    ensures other { (settings : Result (List (ℕ × ℕ)) SettingsError) (limits : Limits) (choices : Choices) (a : Announced)
        → announced_by settings limits choices ≡ Ok a →
        is_limit a.choices.unfinished_limit ≡ true → 256 ≤ a.choices.unfinished_limit }
{}

ghost use Rattle.std.specs.Prelude.{Option, map};
ghost use Rattle.h3_field.specs.Field.{section_size, with_flags};
ghost use Rattle.h3_field.specs.Secret.{guarded};
ghost use Rattle.h3_field.specs.Instruction.{DecoderInstruction};
ghost use Rattle.h3_connection.specs.Pulling.{read_section};
ghost use Rattle.h3_connection.specs.Sending.{fields_cost};
ghost use Rattle.h3_connection.specs.StrictSending.{broken_head, broken_trailer};
ghost use Rattle.h3_messages.specs.declared.content.Content.{Content};

/// Whichever flag each field of a list gets (RFC 9204, section 4.5.4), the list has the same size, costs the same to send, and breaks the
/// same rule as what a strict endpoint sends. What a pull answers of a section is the same too, with any flags, and with those that an
/// encoder which guards secrets gave its fields.
pub fn lists_are_judged_without_flags()
    ensures size { (flag : Field → Bool) (fields : List Field) → section_size (with_flags flag fields) ≡ section_size fields }
    ensures cost { (flag : Field → Bool) (fields : List Field) → fields_cost (with_flags flag fields) ≡ fields_cost fields }
    ensures head { (flag : Field → Bool) (side : Side) (own : Announced) (settings : Option (List (ℕ
        × ℕ))) (known : Option Content) (fields : List Field) →
        broken_head side own settings known (with_flags flag fields) ≡ broken_head side own settings known fields }
    ensures trailer { (flag : Field → Bool) (own : Announced) (fields : List Field)
        → broken_trailer own (with_flags flag fields) ≡ broken_trailer own fields }
    ensures read { (flag : Field
        → Bool) (side : Side) (own : Announced) (id : ℕ) (r : DecoderState) (i : Incoming) (replies : List DecoderInstruction)
        (fields : List Field) →
        read_section side own id r i replies (with_flags flag fields) ≡ read_section side own id r i replies fields }
    ensures guarded { (guards : Bool) (side : Side) (own : Announced) (id : ℕ) (r : DecoderState) (i : Incoming)
        (replies : List DecoderInstruction) (fields : List Field) →
        read_section side own id r i replies (map (guarded guards) fields) ≡ read_section side own id r i replies fields }
{}

ghost use Rattle.h3_connection.specs.Control.{read_control, taken_peer};
ghost use Rattle.h3_connection.specs.Endpoint.{limit_of};
ghost use Rattle.h3_connection.specs.Announcing.{unless_alone, unless_below};
ghost use Rattle.h3_connection.specs.Pulling.{at_session, just};
ghost use Rattle.h3_connection.specs.StrictConnection.{begins_none_after, is_strict, session_fault, settings_refused, stream_fault};
ghost use Rattle.h3_connection.specs.declared.place.Place.TheVariants.{InSession};
ghost use Rattle.std.specs.Prelude.{Option, false};

/// If an endpoint does not ask for a strict connection, it judges by no rule of `Config::with_strict_connection`: neither settings, nor the
/// first frame of the control stream (`control`), nor the ids of sessions (`stream`, `place`), nor what a section names (`decoder`), nor
/// what it sends after a GOAWAY (`begins`) or announces (`announces`). A fault of the encoder or decoder stream keeps its code (`fault`).
/// Frames of sessions are known to it, and sessions on unidirectional streams (`kinds`, `sessions`).
pub fn without_a_strict_connection_nothing_more_is_judged()
    ensures settings { (side : Side) (own : Announced) (settings : Option (List (ℕ × ℕ))) → is_strict own ≡ false
        → settings_refused side own settings ≡ false }
    ensures control { (e : EndpointHistory) (bytes : List ℕ) → is_strict e.announced ≡ false →
        read_control e bytes ≡ taken_peer e (read_peer (kinds_of e.announced) (limit_of e) e.side
        (with_unread e.peer (e.peer.unread ++ bytes))) }
    ensures fault { (own : Announced) (code : ℕ) (fault : Option ℕ) → is_strict own ≡ false
        → stream_fault (is_strict own) code fault ≡ fault }
    ensures stream { (own : Announced) (id : ℕ) → is_strict own ≡ false → session_fault own id ≡ None }
    ensures place { (own : Announced) (i : Incoming) (session : ℕ) → is_strict own ≡ false →
        at_session own i session ≡ just (answer.Item (item.Session session)) (record i { place = InSession }) }
    ensures decoder { (own : Announced) → is_strict own ≡ false → first_decoder own ≡ announcing own.limits.table }
    ensures begins { (own : Announced) (side : Side) (last : Option ℕ) → is_strict own ≡ false → begins_none_after own side last ≡ None }
    ensures announces { (own : Announced) → is_strict own ≡ false → unless_alone own ≡ unless_below own }
    ensures kinds { (own : Announced) → is_strict own ≡ false → (kinds_of own).sessions ≡ true }
    ensures sessions { (own : Announced) → is_strict own ≡ false → knows_sessions own ≡ true }
{}

ghost use Rattle.std.specs.Prelude.{flat_map};
ghost use Rattle.h3_frames.specs.ExcessiveFrames.{is_excessive, is_excessive_by};
ghost use Rattle.h3_frames.specs.Frames.{frame_known, frame_of};
ghost use Rattle.h3_frames.specs.declared.frame.kinds.FrameKinds.{FrameKinds};
ghost use Rattle.h3_connection.specs.OwnUpdates.{control_frames, goaway_encoding};
ghost use Rattle.h3_connection.specs.Prioritizing.{use_updates, with_waiting};

/// If an endpoint keeps nothing of what updates of priorities say, PRIORITY_UPDATE is of an unknown type to it (`kinds`): such a frame has
/// no meaning (`front`), and its length no limit (`long`). If no update waits there is nothing to use (`used`), and without updates that
/// were written a control stream has its GOAWAY frames alone (`text`).
pub fn without_updates_nothing_of_them_is_read()
    ensures kinds { (own : Announced) → own.choices.extensions.priority_updates ≡ 0 → (kinds_of own).updates ≡ false }
    ensures front { (kinds : FrameKinds) (kind : ℕ) (payload rest : List ℕ) → kinds.updates ≡ false
        → frame_known kinds kind payload rest ≡ frame_of kind payload rest }
    ensures long { (kinds : FrameKinds) (most : ℕ) (bytes : List ℕ) → kinds.updates ≡ false
        → is_excessive_by kinds most bytes ≡ is_excessive most bytes }
    ensures used { (e : EndpointHistory) (count : ℕ) → e.peer.updates.waiting ≡ [] → use_updates e count ≡ with_waiting e [] }
    ensures text { (ids : List ℕ) → control_frames 0 ids [] ≡ flat_map goaway_encoding ids }
{}

ghost use Rattle.std.specs.Prelude.{◌<◌, length};
ghost use Rattle.h3_scheduler.specs.declared.round.Rounds.{Rounds};
ghost use Rattle.h3_connection.specs.EndpointTurns.{turns_of, EndpointTurn, WaitsForTurn};

/// None of an endpoint's request streams starves (RFC 9218, section 10): while one waits for its turn, and `advance` is called for the
/// streams of its urgency that `next_by_priority` names, none of these has a third turn. Streams may come, end and change between turns.
#[tactic(auto, using(crate::proofs::EndpointTurns::two_turns))]
pub fn none_has_a_third_turn()
    ensures { (urgency waiting id : ℕ) (r : Rounds) (turns : List EndpointTurn) → urgency < length r.rounds
        → WaitsForTurn urgency waiting (Some r) turns →
        turns_of urgency id turns ≤ 2 }
{}

ghost use Rattle.h3_frames.specs.ControlStreams.{control_encoding};
ghost use Rattle.h3_frames.specs.declared.proto.frame.Frame.{Frame};
ghost use Rattle.h3_frames.specs.declared.proto.frame.PayloadLen.{PayloadLen};
ghost use Rattle.h3_connection.specs.Endpoint.{new_endpoint_with};
ghost use Rattle.h3_connection.specs.OtherSettings.{OtherSettings, value_in, with_others};
ghost use Rattle.h3_connection.specs.OwnSettings.{control_start};
ghost use Rattle.h3_connection.specs.PeerReading.{Peer, having_frame, with_unread};
ghost use Rattle.h3_connection.specs.Shown.{peer_setting};

/// If an endpoint keeps no settings without a meaning, none are read (`kept`, `read`), and it shows those that have a meaning (`shown`).
pub fn without_other_settings_none_are_kept()
    ensures kept { (settings : Option (List (ℕ × ℕ))) (f : Frame PayloadLen) (o : OtherSettings) (bytes : List ℕ) → o.most ≡ 0
        → with_others settings f o bytes ≡ o }
    ensures read { (p : Peer) (f : Frame PayloadLen) (bytes rest : List ℕ) → p.others.most ≡ 0
        → having_frame p f bytes rest ≡ with_unread p rest }
    ensures shown { (e : EndpointHistory) (id : ℕ) → e.peer.others.kept ≡ [] → peer_setting e id ≡ value_in e.peer.settings id }
{}

/// An endpoint that announces no further settings is as `new_endpoint` makes it (`new`), and its control stream begins with its settings
/// alone (`text`).
pub fn without_further_settings_nothing_more_is_announced()
    ensures new { (side : Side) (own : Announced) → new_endpoint_with side own [] ≡ new_endpoint side own }
    ensures text { (settings : List (ℕ × ℕ)) → control_start settings [] ≡ control_encoding settings }
{}

ghost use Rattle.h3_connection.specs.Unidirectional.{other_role};

/// If an endpoint delivers no streams of other types, a stream of a type without a meaning is ignored (`ignored`, `known`).
pub fn without_other_streams_none_are_handed_out()
    ensures known { (own : Announced) → own.choices.extensions.other_streams ≡ false → (known_streams own).others ≡ false }
    ensures ignored { (kind : ℕ) → other_role false kind ≡ Ignored }
{}

ghost use Rattle.h3_connection.specs.Remembering.{settings_known};

/// If an endpoint remembers no settings, those that came count alone (`came`). Once they came, they count in any case (`known`).
pub fn without_remembered_settings_those_that_came_count()
    ensures came { (own : Announced) (settings : Option (List (ℕ × ℕ))) → own.remembered ≡ None → settings_known own settings ≡ settings }
    ensures known { (own : Announced) (pairs : List (ℕ × ℕ)) → settings_known own (Some pairs) ≡ Some pairs }
{}
