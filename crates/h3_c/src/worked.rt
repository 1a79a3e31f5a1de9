//! A worked pair of programs: these laws compute. The bytes and answers were worked out from the standards.
ghost use Rattle.std.specs.Prelude.{◌≡◌, [], codes};
ghost use Rattle.h3_proto.specs.declared.stream.Side.TheVariants.{Client, Server};
ghost use Rattle.h3_world.specs.Ends.{answers_of_ends, new_ends};
ghost use Rattle.h3_world.specs.WorkedHeads.{no_tables};
ghost use Rattle.h3_headline.specs.Messages.{pulled, sent};
ghost use Rattle.h3_session.specs.OpeningAt.{to_open};
ghost use Rattle.h3_c.specs.Programs.{opened_answers};
ghost use Rattle.h3_c.specs.WorkedPrograms.{exchange, exchange_answers, exchange_events, all_carried, opening, opening_answers};
ghost use Rattle.h3_c.specs.WorkedPrograms.{request_sent, response_frames, response_sent, rest_carried, schedule_of};

/// A request and its response by the calls of h3.h: which schedule they are, what two endpoints answer to it, what each side is given, and
/// what QUIC carries.
pub fn requests_are_answered()
    ensures events { schedule_of exchange ≡ exchange_events }
    ensures answers { answers_of_ends (new_ends no_tables) exchange_events ≡ exchange_answers }
    ensures asked { sent Client 0 exchange_events exchange_answers ≡ request_sent }
    ensures heard { pulled Server 0 exchange_events exchange_answers ≡ request_sent }
    ensures answered { sent Server 0 exchange_events exchange_answers ≡ response_sent }
    ensures back { pulled Client 0 exchange_events exchange_answers ≡ response_sent }
    ensures taken { all_carried Server 0 ≡ response_frames }
    ensures given { rest_carried Server 0 ≡ codes "hi" }
    ensures others { (rest_carried Server 3 ≡ []) × (rest_carried Client 0 ≡ []) }
{}

/// Requests that are opened up to an id: what C learns of them, and what two endpoints answer.
pub fn requests_are_opened_up_to_an_id()
    ensures learned { opened_answers 0 (to_open 0 8) ≡ opening_answers }
    ensures answers { answers_of_ends (new_ends no_tables) opening ≡ opening_answers }
{}
