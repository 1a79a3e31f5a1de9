//! A short caller.
ghost use Rattle.std.specs.Prelude.{◌≡◌, unwrap_or};
ghost use Rattle.h3_priority.specs.Priority.{default_parameters, priority_of};

use crate::priority::Priority;

/// The urgency of a response to a request whose `priority` field has this value. A field that is no dictionary is ignored.
pub fn urgency_asked(value: &[u8]) -> u8
    ensures { result ≡ (unwrap_or (priority_of value.now) default_parameters).urgency }
{
    match Priority::read(value) {
        Some(priority) => priority.urgency(),
        None => Priority::default().urgency(),
    }
}
