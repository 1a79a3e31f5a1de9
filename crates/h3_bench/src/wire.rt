//! Frames that are to be sent.
ghost use Rattle.std.specs.Prelude.{◌<◌, ◌≤◌, ◌^◌, length};

use crate::report::{Failure, Report, answer};
use bytes::Buf;
use h3_frames::proto::frame::Frame;
use h3_frames::stream::MessageBuf;
use h3_wire::stream::WriteBuf;

/// Sends a DATA frame: its type and length, and then its payload, both as they are lent.
fn send_all<B: Buf>(out: &mut B, report: &mut Report) {
    let head = out.chunk();
    let of_head = head.len();
    if of_head > 0 {
        report.checksum = report.checksum.wrapping_add(u64::from(head[of_head - 1]));
    }
    out.advance(of_head);
    let of_payload = out.chunk().len();
    out.advance(of_payload);
    report.add(1, of_head.wrapping_add(of_payload));
}

/// A front of the payload, of another length for each of 1,024 places, so that no frame's type and length are known beforehand.
fn front_at(place: usize, body: &[u8]) -> &[u8]
    ensures { length result.now ≤ length body.now }
{
    &body[..body.len() - place % 1024 % (body.len() + 1)]
}

fn send(rounds: u64, count: usize, body: &[u8]) -> Report {
    let mut report = Report::new();
    for _ in 0..rounds {
        report = Report::new();
        for place in 0..count {
            let frame = Frame::Data(front_at(place, body));
            send_all(&mut WriteBuf::from(frame), &mut report);
        }
    }
    report
}

fn send_messages(rounds: u64, count: usize, body: &[u8]) -> Report
    requires { length body.now < 2 ^ 62 }
{
    let mut report = Report::new();
    for _ in 0..rounds {
        report = Report::new();
        for place in 0..count {
            // the small form that an endpoint keeps
            let mut message = MessageBuf::data(front_at(place, body));
            send_all(&mut message, &mut report);
        }
    }
    report
}

/// The same, if the payload's length has an encoding (RFC 9000, section 16).
fn try_messages(rounds: u64, count: usize, body: &[u8]) -> Result<Report, Failure> {
    if body.len() >= 1 << 62 {
        return Err(Failure::Input);
    }
    Ok(send_messages(rounds, count, body))
}

/// Sends `count` DATA frames, each with a front of this payload, `rounds` times.
#[unsafe(no_mangle)]
pub extern "C" fn h3_bench_data_send(
    rounds: u64,
    count: usize,
    body: &[u8],
    report: &mut Report,
) -> u32 {
    answer(Ok(send(rounds, count, body)), report)
}

/// The same by `MessageBuf`.
#[unsafe(no_mangle)]
pub extern "C" fn h3_bench_message_send(
    rounds: u64,
    count: usize,
    body: &[u8],
    report: &mut Report,
) -> u32 {
    answer(try_messages(rounds, count, body), report)
}
