//! Further settings that an end announces beside those that have a meaning here (RFC 9114, section 7.2.4).
ghost use Rattle.std.specs.Prelude.{◌≡◌, [], IfErr, OnOk, Ok, Err};
ghost use Rattle.h3_proto.specs.Further.{further_from, with_further};

use crate::frame::{SettingId, Settings, SettingsError};

impl Settings {
    /// These pairs of an id and a value as further settings, beside those here. Refuses, in order, the first one whose id is one of
    /// HTTP/2's or is announced here already, as each id that has a meaning is, and what `insert` refuses.
    pub fn further(&self, pairs: &[(u64, u64)]) -> Result<Settings, SettingsError>
        ensures { result ≡ further_from self.now [] pairs.now }
    {
        let mut further = Settings::default();
        for pair in pairs {
            self.add_further(&mut further, SettingId(pair.0), pair.1)?;
        }
        Ok(further)
    }

    // One more of them.
    fn add_further(
        &self,
        further: &mut Settings,
        id: SettingId,
        value: u64,
    ) -> Result<(), SettingsError>
        ensures ok { OnOk result (with_further self.now further.old (id, value) ≡ Ok further.new) }
        ensures err { IfErr result (λ e. with_further self.now further.old (id, value) ≡ Err e) }
    {
        if id.is_forbidden() {
            return Err(SettingsError::InvalidSettingId(id.0));
        }
        if self.contains(id) {
            return Err(SettingsError::Repeated(id));
        }
        further.insert(id, value)
    }
}
