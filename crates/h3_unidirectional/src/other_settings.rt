//! The peer's settings that have no meaning here (RFC 9114, section 7.2.4).
ghost use Rattle.std.specs.Prelude.{◌≡◌};
ghost use Rattle.h3_connection.specs.OtherSettings.{no_others};
ghost use Rattle.h3_proto.specs.Settings.{value_of};
ghost use Rattle.h3_unidirectional.specs.Waits.{others_in};

use h3_proto::frame::SettingId;
use std::alloc::Global;

/// So many at most, in their order. They are few, so that one is found by a look at all.
#[derive(Drop)]
pub(crate) struct OtherSettings {
    pub(crate) most: usize,
    pub(crate) kept: Vec<(u64, u64)>,
}

impl OtherSettings {
    /// None. It takes no memory.
    pub(crate) fn new(alloc: Global, most: usize) -> OtherSettings
        ensures { others_in result ≡ no_others most }
    {
        OtherSettings {
            most,
            kept: Vec::new(alloc),
        }
    }

    /// The value of the first one of this id.
    pub(crate) fn get(&self, id: SettingId) -> Option<u64>
        ensures { result ≡ value_of id self.now.kept.items }
    {
        self.kept
            .iter()
            .find(|pair| pair.0 == id.0)
            .map(|pair| pair.1)
    }
}
