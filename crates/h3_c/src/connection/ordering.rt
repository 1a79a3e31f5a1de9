//! Which stream sends next, by priority.
ghost use Rattle.std.specs.Prelude.{◌≡◌};
ghost use Rattle.h3_c.specs.Numbers.{number};
ghost use Rattle.h3_c.specs.Ordering.{SendsPriorityOn, SetsInitialPriorityOn, SetsPriorityOn, ShowsPriorityOf, flag_given, priority_given};
ghost use Rattle.h3_c.specs.Beside.{DoesBeside};
ghost use Rattle.h3_c.specs.Does.CallOfC.{Hold, NextByPriority};

use super::Connection;
use crate::numbers::{ARGUMENT, NONE, OK, Told, called, refused};
use h3_connection::event::Refusal;
use h3_priority::priority::Priority;
use h3_proto::stream::StreamId;

impl Connection {
    /// A request stream has this priority from now on.
    pub(crate) fn set_priority(&mut self, id: u64, urgency: u32, incremental: u32) -> Told
        ensures sets { SetsPriorityOn self.old self.new id urgency incremental result }
        ensures sessions { self.new.sessions ≡ self.old.sessions }
    {
        let Ok(stream) = StreamId::try_from(id) else {
            return ARGUMENT;
        };
        let Some(priority) = priority_given(urgency, incremental) else {
            return ARGUMENT;
        };
        called(self.endpoint.set_priority(stream, priority))
    }

    /// The request of a stream asks for this priority by its `priority` field.
    pub(crate) fn set_initial_priority(&mut self, id: u64, urgency: u32, incremental: u32) -> Told
        ensures sets { SetsInitialPriorityOn self.old self.new id urgency incremental result }
        ensures sessions { self.new.sessions ≡ self.old.sessions }
    {
        let Ok(stream) = StreamId::try_from(id) else {
            return ARGUMENT;
        };
        let Some(priority) = priority_given(urgency, incremental) else {
            return ARGUMENT;
        };
        called(self.endpoint.set_initial_priority(stream, priority))
    }

    /// Tells the server the priority of a response.
    pub(crate) fn send_priority(&mut self, id: u64, urgency: u32, incremental: u32) -> Told
        ensures sends { SendsPriorityOn self.old self.new id urgency incremental result }
        ensures sessions { self.new.sessions ≡ self.old.sessions }
    {
        let Ok(stream) = StreamId::try_from(id) else {
            return ARGUMENT;
        };
        let Some(priority) = priority_given(urgency, incremental) else {
            return ARGUMENT;
        };
        called(self.endpoint.send_priority(stream, priority))
    }

    /// The priority that counts of a request stream. What it tells has no detail.
    pub(crate) fn priority(&self, id: u64, urgency: &mut u32, incremental: &mut u32) -> Told
        ensures { ShowsPriorityOf self.now id (number result.number 0) urgency.old urgency.new incremental.old incremental.new }
    {
        let Ok(stream) = StreamId::try_from(id) else {
            return ARGUMENT;
        };
        let Some(priority) = self.endpoint.priority(stream) else {
            return refused(Refusal::NotOpen);
        };
        *urgency = priority.urgency() as u32;
        *incremental = priority.is_incremental() as u32;
        OK
    }

    /// QUIC has no credit for a stream, or has it again.
    pub(crate) fn hold(&mut self, id: u64, held: u32) -> Told
        ensures { DoesBeside (Hold id held result) self.old self.new }
    {
        let Ok(stream) = StreamId::try_from(id) else {
            return ARGUMENT;
        };
        let Some(is_held) = flag_given(held) else {
            return ARGUMENT;
        };
        called(self.sessions.hold(&mut self.endpoint, stream, is_held))
    }

    /// The stream that sends next. What it tells has no detail.
    pub(crate) fn next_by_priority(&mut self, id: &mut u64) -> Told
        ensures { DoesBeside (NextByPriority id.old id.new (number result.number 0)) self.old self.new }
    {
        let Some(next) = self.sessions.next_by_priority(&mut self.endpoint) else {
            return NONE;
        };
        *id = next;
        OK
    }
}

// The priority that C gives.
fn priority_given(urgency: u32, incremental: u32) -> Option<Priority>
    ensures { result ≡ priority_given urgency incremental }
{
    let urgency = u8::try_from(urgency).ok()?;
    Priority::new(urgency, flag_given(incremental)?)
}

// 0 or 1.
pub(super) fn flag_given(number: u32) -> Option<bool>
    ensures { result ≡ flag_given number }
{
    match number {
        0 => Some(false),
        1 => Some(true),
        _ => None,
    }
}
