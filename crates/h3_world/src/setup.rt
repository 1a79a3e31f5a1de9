//! What a client and a server announce.
ghost use Rattle.std.specs.Prelude.{◌≡◌, ◌<◌};
ghost use Rattle.h3_proto.specs.Config.{announced};
ghost use Rattle.h3_connection.specs.Announcing.{announced_by};
ghost use Rattle.h3_world.specs.Setup.{both, announced_at, takes_settings, IsMadeSetup};

use h3_connection::setup::{Announced, Limits, NewError};
use h3_proto::config::Config;
use h3_proto::frame::{SettingId, SettingsError};
use h3_proto::stream::Side;
use std::marker::Model;

/// What a client and a server announce. Each was made by `Setup::new`, so of each it is so that each side announces some settings, with
/// every number within its bound, and takes what the other one announces (`IsMadeSetup`).
#[derive(Drop)]
pub struct Setup {
    client: Announced,
    server: Announced,
}

impl Model for Setup {
    ghost use Rattle.h3_world.specs.Setup.{Setup as Sides, IsMadeSetup};

    ghost Value = { Sides };

    ghost view = { λ s. record { client = s.client; server = s.server } };

    ghost invariant = { λ s. IsMadeSetup (record { client = s.client; server = s.server }) };
}

impl Setup {
    /// The client's configuration, limits and the number of its reserved setting (RFC 9114, section 7.2.4.1), and then the server's.
    ///
    /// # Errors
    /// What `Announced::new` refuses of the client, and then of the server. And WebTransport without datagrams, if one side announces it
    /// and the other one does not take it, since that asks for a strict connection and announces WebTransport too.
    pub fn new(
        client: Config,
        client_limits: Limits,
        client_grease: u64,
        server: Config,
        server_limits: Limits,
        server_grease: u64,
    ) -> Result<Setup, NewError>
        requires client_number { client_grease < 0x210842108421083 }
        requires server_number { server_grease < 0x210842108421083 }
        ensures { result ≡ both (announced_by (announced client client_grease) client_limits client.choices)
            (announced_by (announced server server_grease) server_limits server.choices) }
    {
        let client = Announced::new(client, client_limits, client_grease)?;
        let server = Announced::new(server, server_limits, server_grease)?;
        if !take_settings(&client, &server) {
            return Err(NewError::Settings(SettingsError::InvalidSettingValue(
                SettingId::ENABLE_WEBTRANSPORT,
                1,
            )));
        }
        Ok(Setup { client, server })
    }

    /// What the side announces.
    pub fn announced_at(&self, side: Side) -> &Announced
        ensures { result.now ≡ announced_at self.now side }
    {
        match side {
            Side::Client => &self.client,
            Side::Server => &self.server,
        }
    }

    /// What the client announces, and what the server does.
    pub fn into_sides(self) -> (Announced, Announced)
        ensures client { result.0 ≡ self.client }
        ensures server { result.1 ≡ self.server }
        ensures made { IsMadeSetup self }
    {
        let Setup { client, server } = self;
        (client, server)
    }
}

// Whether each side takes what the other one announces.
fn take_settings(client: &Announced, server: &Announced) -> bool
    ensures { result ≡ takes_settings (record { client = client.now; server = server.now }) }
{
    !(client.refuses_settings(Side::Client, &server.settings)
        || server.refuses_settings(Side::Server, &client.settings))
}
