//! Sessions by a list of events.
ghost use Rattle.std.specs.Prelude.{◌<◌, ◌^◌, IfOk};
ghost use Rattle.h3_qpack.specs.Exchange.{IsEvent};

use crate::log::words;
use crate::session::field;
use h3_qpack::{SessionAnswer, SessionEvent, run};
use std::alloc::{AllocError, Global};

/// A request for https://www.example.com/sample/path on a stream: two fields of the static table, and two that are inserted.
fn request(alloc: Global, stream: u64) -> Result<SessionEvent, AllocError>
    requires { stream < 2 ^ 62 }
    ensures { IfOk result IsEvent }
{
    let fields = vec![in alloc;
        field(b":method", b"GET"),
        field(b":scheme", b"https"),
        field(b":authority", b"www.example.com"),
        field(b":path", b"/sample/path"),
    ]?;
    let first = fields[0].mem_size().saturating_add(fields[1].mem_size());
    let last = fields[2].mem_size().saturating_add(fields[3].mem_size());
    if first.saturating_add(last) > 1000 {
        return Err(AllocError);
    }
    Ok(SessionEvent::Encode(stream, fields))
}

/// The lines of the answers.
fn tell(alloc: Global, text: &mut String, answers: &[SessionAnswer]) -> Result<(), AllocError> {
    for answer in answers {
        let line = line(alloc, answer)?;
        words(text, line.as_str())?;
    }
    Ok(())
}

fn line(alloc: Global, answer: &SessionAnswer) -> Result<String, AllocError> {
    match answer {
        SessionAnswer::Encoded(count) => format!(in alloc; "encoded {count}"),
        SessionAnswer::Delivered => String::from_str(alloc, "delivered"),
        SessionAnswer::Short(undelivered) => format!(in alloc; "short {undelivered}"),
        SessionAnswer::Decoded(fields) => {
            let count = fields.len();
            format!(in alloc; "decoded {count}")
        }
        SessionAnswer::Missing(count) => format!(in alloc; "missing {count}"),
        SessionAnswer::NoBlock => String::from_str(alloc, "no section"),
        SessionAnswer::Canceled => String::from_str(alloc, "canceled"),
        SessionAnswer::Refused(_) => String::from_str(alloc, "refused"),
    }
}

/// The instructions are 28 bytes.
pub fn decodes_what_came(alloc: Global, text: &mut String) -> Result<(), AllocError> {
    words(text, "# a section, and its instructions in pieces")?;
    let events = [
        request(alloc, 0)?,
        SessionEvent::Decode(0),
        SessionEvent::EncoderBytes(20),
        SessionEvent::EncoderBytes(9),
        SessionEvent::EncoderBytes(8),
        SessionEvent::Decode(0),
        SessionEvent::Decode(0),
    ];
    let answers = run(alloc, 220, 2, &events).map_err(|_| AllocError)?;
    tell(alloc, text, &answers)
}

/// Nothing of a canceled stream is decoded.
pub fn gives_a_stream_up(alloc: Global, text: &mut String) -> Result<(), AllocError> {
    words(text, "# a stream that is given up")?;
    let events = [
        request(alloc, 4)?,
        SessionEvent::Cancel(4),
        SessionEvent::Decode(4),
        SessionEvent::Cancel(4),
        SessionEvent::DecoderBytes(1),
        SessionEvent::DecoderBytes(1),
    ];
    let answers = run(alloc, 220, 2, &events).map_err(|_| AllocError)?;
    tell(alloc, text, &answers)
}

/// No session has a table of 2^30 bytes, or more than 65535 waiting streams.
pub fn refuses_limits(alloc: Global, text: &mut String) -> Result<(), AllocError> {
    words(text, "# limits of a session")?;
    refuses(alloc, text, 1 << 30, 0)?;
    refuses(alloc, text, 0, 65536)
}

fn refuses(
    alloc: Global,
    text: &mut String,
    capacity: usize,
    limit: usize,
) -> Result<(), AllocError> {
    match run(alloc, capacity, limit, &[]) {
        Ok(_) => words(text, "accepted"),
        Err(e) => {
            let line = format!(in alloc; "{e:?}")?;
            words(text, line.as_str())
        }
    }
}
