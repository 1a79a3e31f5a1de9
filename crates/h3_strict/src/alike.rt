//! The laws of two endpoints that judge alike. These functions do nothing: their contracts are the laws.
ghost use Rattle.std.specs.Prelude.{◌≡◌, Bool, None};
ghost use Rattle.h3_proto.specs.declared.stream.Side.{Side};
ghost use Rattle.h3_connection.specs.declared.arrival.Arrival.{Arrival};
ghost use Rattle.h3_connection.specs.Endpoint.{EndpointHistory};
ghost use Rattle.h3_connection.specs.Keeping.{read_arrival};
ghost use Rattle.h3_world.specs.Setup.{IsMadeSetup, Setup, announced_at};
ghost use Rattle.h3_world.specs.World.{World};
ghost use Rattle.h3_strict.specs.HoldsBehind.{HoldsBehind};
ghost use Rattle.h3_strict.specs.Plainly.{plainly};
ghost use Rattle.h3_strict.specs.ReadsBehind.{ReadsBehind};
ghost use Rattle.h3_strict.specs.Tunnels.{StandsSo};

/// What stands of tunnels between two ends that judge alike stays so, whatever both keep and whichever allocations fail, and a pull finds
/// no fault of the connection then (`holds`). What an end reads next is not too long for it, even if it holds the beginning of that: it is
/// read as by the same end that judges plainly (`reads`).
pub fn tunnels_stand_whatever_is_kept()
    ensures holds { (setup : Setup) (strict : Bool) → IsMadeSetup setup
        → ((side : Side) → (announced_at setup side).choices.strict_messages ≡ strict) → HoldsBehind setup (StandsSo strict setup) }
    ensures reads { (setup : Setup) (w : World) (side : Side) (e next : EndpointHistory) (a : Arrival) → IsMadeSetup setup
        → ReadsBehind setup w side e a → read_arrival (plainly e) a ≡ (next, None) → ((read_arrival e a).1 ≡ None)
        × (plainly (read_arrival e a).0 ≡ next) }
{
    h3_headline::laws::what_is_cited_holds();
}
