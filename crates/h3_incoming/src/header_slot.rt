//! The header that a pull makes of the list that it answers.
ghost use Rattle.std.specs.Prelude.{◌≡◌, IfSome, OnOk, OnErr};
ghost use Rattle.h3_connection.specs.Lists.{list_of};
ghost use Rattle.h3_incoming.specs.HeaderSlots.{MakesHeader, ReadsAsHead, is_asked};

use crate::answer::put;
use crate::block::{BlockPull, Told};
use h3_header::Header;
use std::alloc::{AllocError, Global};
use std::boxed::Box;

/// Whether a pull makes a header of the list that it answers, and the header.
#[derive(Drop)]
pub enum HeaderSlot {
    /// None is made.
    Unasked,
    /// One is made of the next list.
    Asked,
    /// It was made. It stands in a block of its own, so that a pull that asks for none has no room for it.
    Made(Box<Header>),
}

impl HeaderSlot {
    /// Whether a header is to be made of the next list.
    pub(crate) fn is_asked(&self) -> bool
        ensures { result ≡ is_asked self.now }
    {
        matches!(self, HeaderSlot::Asked)
    }

    /// Makes the header of an answer's list, if one is asked for. The value of `:protocol` may be any short token, or one of the two names
    /// alone. An `Err` says that an allocation failed.
    pub(crate) fn make(
        &mut self,
        alloc: Global,
        any_protocol: bool,
        answer: &BlockPull,
    ) -> Result<(), AllocError>
        requires { IfSome (list_of answer.now) (ReadsAsHead any_protocol) }
        ensures made { OnOk result (MakesHeader self.old self.new (list_of answer.now)) }
        ensures same { OnErr result (self.new ≡ self.old) }
    {
        let HeaderSlot::Asked = self else {
            return Ok(());
        };
        let Told::Message(_, _) = answer.told() else {
            return Ok(());
        };
        h3_header::laws::lists_are_their_value();
        let list = answer.fields();
        match Header::of_fields(alloc, &list, any_protocol) {
            Ok(header) => {
                let made = Box::new(alloc, header)?;
                put(self, HeaderSlot::Made(made));
                Ok(())
            }
            Err(_) => Err(AllocError),
        }
    }
}
