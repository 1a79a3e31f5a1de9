//! A connection as C keeps it: the pointer to its box.
ghost use Rattle.h3_c.specs.Held.{held};
ghost use Rattle.h3_c.specs.Seen.{Seen};
ghost use Rattle.h3_c.specs.contracts.connection.Connection.{the_row};
ghost use Rattle.std.specs.Prelude.{◌≡◌, IsSome, Option, Some};

use crate::connection::Connection;
use crate::loose::Loose;
use crate::numbers::Told;
use std::alloc::Global;
use std::marker::Model;

/// `h3_endpoint` of the header: a pointer that owns a connection, or nothing if `value` is `None`.
#[repr(C)]
#[derive(Drop)]
pub struct Handle {
    at: *mut u8,
    pub ghost value: { Option Seen },
}

impl Model for Handle {
    ghost also_owns = { λ h. held the_row h.at h.value };
}

// A handle may move between threads: `proofs/handle/Handle/TheSendSync/Send.antt`.
unsafe impl Send for Handle {}

fn shut(loose: Loose<Connection, Global>) -> Handle
    ensures { result.value ≡ Some loose.value }
{
    let Loose { at, alloc: _ } = loose;
    Handle { at: at as *mut u8 }
}

fn open(alloc: Global, handle: Handle) -> Loose<Connection, Global>
    requires { IsSome handle.value }
    ensures { Some result.value ≡ handle.value }
{
    let Handle { at } = handle;
    Loose {
        at: at as *mut Connection,
        alloc,
    }
}

/// The handle of a boxed connection.
pub(crate) fn kept(connection: Box<Connection>) -> Handle
    ensures { result.value ≡ Some connection.value }
{
    shut(Loose::of(connection))
}

/// The box that a handle owns.
pub(crate) fn opened(alloc: Global, handle: Handle) -> Box<Connection>
    requires { IsSome handle.value }
    ensures { Some result.value ≡ handle.value }
{
    Loose::into_box(open(alloc, handle))
}

/// A call is done: C gets the handle of its connection again, and what the call told.
pub(crate) fn answered(
    connection: Box<Connection>,
    told: Told,
    detail: &mut u64,
    out: &mut Handle,
) -> u32
    ensures kept { out.new.value ≡ Some connection.value }
    ensures number { result ≡ told.number }
    ensures detail { detail.new ≡ told.detail }
{
    *out = kept(connection);
    *detail = told.detail;
    told.number
}
