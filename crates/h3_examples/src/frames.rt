//! Frames that come in pieces, read by a decoder that is called directly.
use crate::log::words;
use bytes::{Buf, Bytes};
use h3_frames::buf::BufList;
use h3_frames::frame::{FrameDecoder, FrameStreamError};
use h3_frames::proto::frame::{Frame, PayloadLen};
use std::alloc::{AllocError, Global};
use std::marker::Model;

/// A decoder, and the bytes that it left.
#[derive(Drop)]
struct Offered {
    buf: BufList<Bytes>,
    decoder: FrameDecoder,
}

impl Model for Offered {
    ghost use Rattle.std.specs.List.{concat};
    ghost use Rattle.h3_frames.specs.Frames.{plain_frames};
    ghost use Rattle.h3_frames.specs.Tries.{Decoding, Expects};

    ghost Value = { Decoding };

    ghost view = { λ o. o.decoder };

    ghost invariant = { λ o. Expects plain_frames o.decoder (concat o.buf.pieces) };
}

impl Offered {
    fn new(alloc: Global) -> Offered {
        Offered {
            buf: BufList::new(alloc),
            decoder: FrameDecoder::default(),
        }
    }

    /// Decodes once with one more piece, and writes the answer and how often the frame was tried.
    fn offer(&mut self, alloc: Global, piece: &[u8], text: &mut String) -> Result<(), AllocError> {
        if self.buf.remaining() > 1000 || piece.len() > 1000 {
            return words(text, "too long");
        }
        let piece = Bytes::copy_from_slice(alloc, piece)?;
        if self.buf.push(piece).is_err() {
            return Err(AllocError);
        }
        let answer = self.decoder.decode(alloc, &mut self.buf);
        let tries = self.decoder.tries();
        text.push_str(&format!(in alloc; "{} {tries};", answer_text(&answer))?)
    }
}

fn answer_text(answer: &Result<Option<Frame<PayloadLen>>, FrameStreamError>) -> &'static str {
    match answer {
        Ok(Some(Frame::Headers(_))) => "headers",
        Ok(Some(_)) => "another frame",
        Ok(None) => "none",
        Err(FrameStreamError::Proto(_)) => "refused",
        Err(_) => "another error",
    }
}

/// Two pieces: of a frame, of a frame whose type has no meaning and one that is refused.
fn in_two(alloc: Global, text: &mut String, first: &[u8], second: &[u8]) -> Result<(), AllocError> {
    let mut offered = Offered::new(alloc);
    both(alloc, text, &mut offered, first, second)
}

fn both(
    alloc: Global,
    text: &mut String,
    offered: &mut Offered,
    first: &[u8],
    second: &[u8],
) -> Result<(), AllocError> {
    offered.offer(alloc, first, text)?;
    offered.offer(alloc, second, text)?;
    words(text, "")
}

/// A HEADERS frame whole, and cut in two places; a frame without a meaning, and a GOAWAY frame that is too long, cut in two places.
pub fn decode_in_pieces(alloc: Global, text: &mut String) -> Result<(), AllocError> {
    words(text, "# frames in two pieces")?;
    in_two(alloc, text, b"\x01\x05salut", b"")?;
    in_two(alloc, text, b"\x01", b"\x05salut")?;
    in_two(alloc, text, b"\x01\x05salu", b"")?;
    in_two(alloc, text, b"\x21\x00", b"\x07\x02\x00\x09")?;
    in_two(alloc, text, b"\x07\x02\x00", b"\x09")
}

// A HEADERS frame whose type and length take eight bytes each.
const LONGEST: [u8; 19] = [
    192, 0, 0, 0, 0, 0, 0, 1, 192, 0, 0, 0, 0, 0, 0, 3, 0, 0, 217,
];

/// Byte by byte.
pub fn count_tries(alloc: Global, text: &mut String) -> Result<(), AllocError> {
    words(text, "# a frame byte by byte")?;
    let mut offered = Offered::new(alloc);
    each(alloc, text, &mut offered)?;
    words(text, "")
}

fn each(alloc: Global, text: &mut String, offered: &mut Offered) -> Result<(), AllocError> {
    for byte in &LONGEST {
        offered.offer(alloc, &[*byte], text)?;
    }
    Ok(())
}
