//! Frames that are read, of a stream that comes in pieces.

use crate::report::{Failure, Report, answer};
use bytes::{Buf, Bytes};
use h3_frames::buf::BufList;
use h3_frames::frame::FrameDecoder;
use h3_frames::proto::frame::{Frame, PayloadLen};
use std::alloc::Global;
use std::marker::Model;

/// What came and was not taken yet, and how much of a payload is under way.
#[derive(Drop)]
struct Reader {
    unread: BufList<Bytes>,
    decoder: FrameDecoder,
    left: usize,
}

impl Model for Reader {
    ghost use Rattle.std.specs.Prelude.{◌≡◌, ◌<◌, None};
    ghost use Rattle.std.specs.List.{concat};
    ghost use Rattle.h3_frames.specs.Frames.{plain_frames};
    ghost use Rattle.h3_frames.specs.Tries.{Decoding, Expects};

    ghost Value = { Decoding };

    ghost view = { λ r. r.decoder };

    // while a payload is under way, no frame is tried
    ghost invariant = { λ r. Expects plain_frames r.decoder (concat r.unread.pieces) × (0 < r.left → r.decoder.expected ≡ None) };
}

impl Reader {
    fn new(alloc: Global) -> Reader {
        Reader {
            unread: BufList::new(alloc),
            decoder: FrameDecoder::default(),
            left: 0,
        }
    }

    /// One more piece came.
    fn push(&mut self, piece: &Bytes) -> Result<(), Failure> {
        if self.unread.remaining() >= 1 << 62 || piece.len() >= 1 << 62 {
            return Err(Failure::Input);
        }
        let piece = piece.clone()?;
        self.unread.push(piece)?;
        Ok(())
    }

    /// Passes bytes of the payload under way, which are lent where they lie. False: none is there.
    fn pass_payload(&mut self, report: &mut Report) -> bool {
        let count = self.unread.chunk().len().min(self.left);
        if count == 0 {
            return false;
        }
        self.unread.advance(count);
        self.left -= count;
        report.add(0, count);
        true
    }

    /// Takes the next frame, of DATA the type and length alone, or bytes of its payload. False: more has to come.
    fn take(&mut self, alloc: Global, report: &mut Report) -> Result<bool, Failure> {
        if self.left > 0 {
            return Ok(self.pass_payload(report));
        }
        match self.decoder.decode(alloc, &mut self.unread) {
            Ok(Some(Frame::Data(PayloadLen(len)))) => {
                self.left = len;
                report.add(1, 0);
                Ok(true)
            }
            Ok(Some(Frame::Headers(section))) => {
                report.add(1, section.len());
                Ok(true)
            }
            Ok(Some(_)) => Err(Failure::Input),
            Ok(None) => Ok(false),
            Err(_) => Err(Failure::Refused),
        }
    }

    /// Takes all that is there. Each step takes a byte or more.
    fn take_all(&mut self, alloc: Global, report: &mut Report) -> Result<(), Failure> {
        for _ in 0..self.unread.remaining() {
            if !self.take(alloc, report)? {
                return Ok(());
            }
        }
        Ok(())
    }

    fn read(
        &mut self,
        alloc: Global,
        pieces: &[Bytes],
        report: &mut Report,
    ) -> Result<(), Failure> {
        for piece in pieces {
            self.push(piece)?;
            self.take_all(alloc, report)?;
        }
        Ok(())
    }
}

/// A stream from its first byte on: its frames, and the bytes of their payloads.
fn read_stream(alloc: Global, pieces: &[Bytes]) -> Result<Report, Failure> {
    let mut report = Report::new();
    let mut reader = Reader::new(alloc);
    reader.read(alloc, pieces, &mut report)?;
    Ok(report)
}

/// The pieces of a stream, as its packets bring them. They are lent, so no owners are counted.
fn pieces_of(alloc: Global, bytes: &'static [u8], size: usize) -> Result<Vec<Bytes>, Failure> {
    if size == 0 {
        return Err(Failure::Input);
    }
    let mut pieces = Vec::new(alloc);
    for piece in bytes.chunks(size) {
        pieces.push(Bytes::from_static(piece))?;
    }
    Ok(pieces)
}

fn read_rounds(alloc: Global, rounds: u64, pieces: &[Bytes]) -> Result<Report, Failure> {
    let mut report = Report::new();
    for _ in 0..rounds {
        report = read_stream(alloc, pieces)?;
    }
    Ok(report)
}

fn read(alloc: Global, rounds: u64, bytes: &'static [u8], size: usize) -> Result<Report, Failure> {
    read_rounds(alloc, rounds, &pieces_of(alloc, bytes, size)?)
}

/// Reads the HEADERS and DATA frames of a stream, which comes in pieces of this size, `rounds` times.
#[unsafe(no_mangle)]
pub extern "C" fn h3_bench_frames_read(
    alloc: Global,
    rounds: u64,
    size: usize,
    bytes: &'static [u8],
    report: &mut Report,
) -> u32 {
    answer(read(alloc, rounds, bytes, size), report)
}
