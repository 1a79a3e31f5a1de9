//! What C calls: the value of a `priority` field.
ghost use Rattle.h3_priority.specs.Priority.{priority_of};
ghost use Rattle.h3_c.specs.Priorities.{ReadsPriority};

use crate::numbers::{FIELD_VALUE, OK};
use h3_priority::priority::Priority;

/// Reads the value of a `priority` field (RFC 9218, section 4). A value that is no dictionary is `H3_FIELD_VALUE`, and nothing is written.
#[unsafe(no_mangle)]
pub extern "C" fn h3_raw_priority_read(
    value: &[u8],
    urgency: &mut u32,
    incremental: &mut u32,
) -> u32
    ensures { ReadsPriority (priority_of value.now) result urgency.old urgency.new incremental.old incremental.new }
{
    let Some(priority) = Priority::read(value) else {
        return FIELD_VALUE.number;
    };
    *urgency = priority.urgency() as u32;
    *incremental = priority.is_incremental() as u32;
    OK.number
}
