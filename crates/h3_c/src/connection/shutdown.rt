//! A connection is shut down.
ghost use Rattle.std.specs.Prelude.{◌≡◌};
ghost use Rattle.h3_connection.specs.Shutdown.{GivesNotice, ShutsDown};
ghost use Rattle.h3_c.specs.Beside.{DoesBeside};
ghost use Rattle.h3_c.specs.Does.CallOfC.{IsDrained};
ghost use Rattle.h3_c.specs.Exported.{Calls};
ghost use Rattle.h3_c.specs.Numbers.{call_told, number};
ghost use Rattle.h3_c.specs.Shutdown.{ShowsUnseen};

use super::Connection;
use crate::numbers::{OK, Told, called};

impl Connection {
    /// Tells the peer that the connection will be shut down.
    pub(crate) fn shutdown_notice(&mut self) -> Told
        ensures does { Calls call_told result self.old self.new (λ call. GivesNotice self.old.endpoint self.new.endpoint call) }
        ensures sessions { self.new.sessions ≡ self.old.sessions }
    {
        called(self.endpoint.shutdown_notice())
    }

    /// No more is taken than came.
    pub(crate) fn shutdown(&mut self) -> Told
        ensures does { Calls call_told result self.old self.new (λ call. ShutsDown self.old.endpoint self.new.endpoint call) }
        ensures sessions { self.new.sessions ≡ self.old.sessions }
    {
        called(self.endpoint.shutdown())
    }

    /// The first id of a request stream that was not seen.
    pub(crate) fn first_unseen(&self, id: &mut u64) -> Told
        ensures { ShowsUnseen self.now result id.new }
    {
        *id = self.endpoint.first_unseen();
        OK
    }

    /// Whether nothing is left to be done. What it tells has no detail.
    pub(crate) fn is_drained(&self, drained: &mut u32) -> Told
        ensures { DoesBeside (IsDrained drained.new (number result.number 0)) self.now self.now }
    {
        *drained = self.sessions.is_drained(&self.endpoint) as u32;
        OK
    }
}
