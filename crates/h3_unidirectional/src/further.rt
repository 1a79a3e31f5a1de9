//! Further settings that the local control stream begins with (RFC 9114, section 7.2.4).
ghost use Rattle.std.specs.Prelude.{◌≡◌, IfOk, OnOk, OnErr};
ghost use Rattle.h3_connection.specs.OwnSettings.{control_start};
ghost use Rattle.h3_unidirectional.specs.Starts.{start_of_both};

use crate::own::OwnStreams;
use crate::waiting::WaitingBytes;
use h3_coding::coding::BufMutExt;
use h3_frames::proto::frame::FrameType;
use h3_proto::frame::Settings;
use h3_proto::stream::StreamType;
use std::alloc::{AllocError, Global};

/// The type of the control stream, and one SETTINGS frame over both lists.
fn start_with(alloc: Global, settings: &Settings, further: &Settings) -> Result<Vec<u8>, AllocError>
    ensures { IfOk result (λ bytes. bytes.items ≡ start_of_both settings.now further.now) }
{
    let mut bytes = Vec::new(alloc);
    let len = (settings.payload_len() + further.payload_len()) as u64;
    bytes.write(StreamType::CONTROL).map_err(|_| AllocError)?;
    bytes.write(FrameType::SETTINGS).map_err(|_| AllocError)?;
    bytes.write_var(len).map_err(|_| AllocError)?;
    settings.write_payload(&mut bytes).map_err(|_| AllocError)?;
    further.write_payload(&mut bytes).map_err(|_| AllocError)?;
    Ok(bytes)
}

/// The same, as what begins a control stream.
fn further_start(
    alloc: Global,
    settings: &Settings,
    further: &Settings,
) -> Result<Vec<u8>, AllocError>
    ensures { IfOk result (λ bytes. bytes.items ≡ control_start settings.now further.now) }
{
    start_with(alloc, settings, further)
}

impl OwnStreams {
    /// The control stream, of which nothing was taken, begins with these settings, and has nothing else. A refusal changes nothing.
    pub fn begin_with(
        &mut self,
        alloc: Global,
        settings: &Settings,
        further: &Settings,
    ) -> Result<(), AllocError>
        ensures ok { OnOk result (self.new ≡ record self.old { control = control_start settings.now further.now }) }
        ensures err { OnErr result (self.new ≡ self.old) }
    {
        let start = further_start(alloc, settings, further)?;
        self.control = WaitingBytes::from_vec(start);
        Ok(())
    }
}
