//! Laws over two endpoints that stand in a world. These functions do nothing: their contracts are the laws.
ghost use Rattle.std.specs.Prelude.{◌≡◌, ℕ, true, None, List};
ghost use Rattle.std.specs.List.{AllByRecursion};
ghost use Rattle.h3_proto.specs.declared.stream.Side.{Side};
ghost use Rattle.h3_connection.specs.Endpoint.{EndpointHistory};
ghost use Rattle.h3_connection.specs.OwnIds.{other};
ghost use Rattle.h3_world.specs.declared.event.Event.{Event};
ghost use Rattle.h3_world.specs.Came.{insertions_came};
ghost use Rattle.h3_world.specs.Ends.{answers_of_ends, ends_after, new_ends};
ghost use Rattle.h3_world.specs.Headline.{Happens};
ghost use Rattle.h3_world.specs.Order.{next_part};
ghost use Rattle.h3_world.specs.Run.{Run};
ghost use Rattle.h3_world.specs.Sendable.{IsSendable};
ghost use Rattle.h3_world.specs.Setup.{IsMadeSetup, JudgesPlainly, Setup, announced_at, flags_secrets};
ghost use Rattle.h3_world.specs.Sound.{IsSoundWorld};
ghost use Rattle.h3_world.specs.Streams.{flow, is_open};
ghost use Rattle.h3_world.specs.World.{World, empty_world, party};
ghost use Rattle.h3_headline.specs.Cited.{Laws, ListsAreTheirValue};
ghost use Rattle.h3_headline.specs.Pulling.{DecodesNextAs};
ghost use Rattle.h3_headline.specs.Standing.{Stands, StandsAt};

/// What the lemmas here cite holds: of QPACK's sessions and streams, of what a field list is read as, and of the steps of a world.
pub fn what_is_cited_holds()
    ensures { Laws }
{
    h3_qpack::laws::every_session_is_sound();
    h3_qpack::laws::fronts_of_written_instructions();
    h3_qpack::laws::fronts_of_written_decoder_instructions();
    h3_qpack::laws::written_instructions_are_accepted();
    h3_qpack::laws::every_section_is_written();
    h3_qpack::laws::every_encoding_means_its_fields();
    h3_qpack::laws::instructions_can_be_written();
    h3_header::laws::lists_are_their_value();
    h3_world::laws::the_machine_answers_as_allowed();
    h3_world::laws::every_exact_step_happens();
}

/// An endpoint that stands in a world has read the insertions that came. In a sound world its decoder makes of the section that is next on
/// a stream what was sent, if the stream was not given up. That is its fields once its insertions came, with the secrets among them flagged
/// if their sender guards these, and until then how many it needs (RFC 9204, section 2.2.1).
pub fn endpoints_decode_what_was_sent()
    ensures insertions { (setup : Setup) (w : World) (side : Side) (e : EndpointHistory) → StandsAt setup w side e
        → e.decoding.decoder.table.inserted ≡ insertions_came (party w (other side)) }
    ensures sections { (lists : ListsAreTheirValue) (setup : Setup) (w : World) (side : Side) (id : ℕ) (e : EndpointHistory)
        → IsMadeSetup setup → StandsAt setup w side e → IsSoundWorld setup w →
        is_open w side id ≡ true → (flow w (other side) id).fault ≡ None →
        DecodesNextAs lists side (announced_at setup side) id e.decoding.decoder (insertions_came (party w (other side)))
        (flags_secrets (announced_at setup (other side))) (next_part (flow w (other side) id)) }
{
    what_is_cited_holds();
}

/// Two endpoints with the bytes carried between them run in a world. Over every schedule of events that may be sent, the answers of both
/// are those of a run of the world. Of that run all holds that is said of each step, and both stand in the world that it leads to. Neither
/// end asks for strict messages.
pub fn two_endpoints_run_in_a_world()
    ensures { (setup : Setup) (events : List Event) → IsMadeSetup setup → JudgesPlainly setup → AllByRecursion (IsSendable setup) events →
        (w : World) × Run (Happens setup) (empty_world setup) events (answers_of_ends (new_ends setup) events) w
        × Stands setup w (ends_after (new_ends setup) events) }
{
    what_is_cited_holds();
}
