//! A session of QPACK (RFC 9204): an encoder and a decoder, and the bytes that go between them.
use crate::log::{bytes, fields, number, words};
use h3_qpack::{Decoder, Encoder, HeaderField, SliceCursor, ack_header, stream_canceled};
use std::alloc::{AllocError, Global};

/// Both ends, and what was written and not yet read: a section, the encoder stream and the decoder stream.
#[derive(Drop)]
struct Ends {
    alloc: Global,
    encoder: Encoder,
    decoder: Decoder,
    section: Vec<u8>,
    instructions: Vec<u8>,
    replies: Vec<u8>,
}

/// A field of static strings.
pub fn field(name: &'static [u8], value: &'static [u8]) -> HeaderField {
    HeaderField::from_static(name, value)
}

/// A request whose header section waits for its insertions, is decoded and acknowledged, and one that is given up.
pub fn round_trip(alloc: Global, text: &mut String) -> Result<(), AllocError> {
    words(
        text,
        "# a session: a table of 220 bytes, on which two streams may wait",
    )?;
    let mut instructions = Vec::new(alloc);
    let encoder = encoder(alloc, &mut instructions)?;
    begin(alloc, text, encoder, instructions)
}

/// The peer's settings came, in which the decoder announced its limits: the encoder may use the table.
fn encoder(alloc: Global, instructions: &mut Vec<u8>) -> Result<Encoder, AllocError> {
    let mut encoder = Encoder::new(alloc);
    match encoder.use_table(220, 2, instructions) {
        Ok(()) => Ok(encoder),
        Err(_) => Err(AllocError),
    }
}

fn begin(
    alloc: Global,
    text: &mut String,
    encoder: Encoder,
    instructions: Vec<u8>,
) -> Result<(), AllocError> {
    let mut ends = Ends {
        alloc,
        encoder,
        decoder: Decoder::announced(alloc, 220),
        section: Vec::new(alloc),
        instructions,
        replies: Vec::new(alloc),
    };
    ends.exchange(text)
}

impl Ends {
    fn exchange(&mut self, text: &mut String) -> Result<(), AllocError> {
        bytes(self.alloc, text, "encoder stream", &self.instructions)?;
        self.send(4, text)?;
        self.read(4, text)?;
        self.carry_instructions(text)?;
        self.read(4, text)?;
        self.carry_replies(text)?;
        self.send(8, text)?;
        self.give_up(8, text)?;
        self.carry_replies(text)
    }

    /// Writes a request for https://www.example.com/sample/path.
    fn send(&mut self, stream: u64, text: &mut String) -> Result<(), AllocError> {
        let request = [
            field(b":method", b"GET"),
            field(b":scheme", b"https"),
            field(b":authority", b"www.example.com"),
            field(b":path", b"/sample/path"),
        ];
        let first = request[0].mem_size().saturating_add(request[1].mem_size());
        let last = request[2].mem_size().saturating_add(request[3].mem_size());
        if first.saturating_add(last) > 1000 {
            return words(text, "too large");
        }
        self.section.clear();
        let sent = self.encoder.encode(stream, &mut self.section, &mut self.instructions, &request);
        let count = sent.map_err(|_| AllocError)?;
        number(self.alloc, text, "required insert count", count)?;
        bytes(self.alloc, text, "section", &self.section)?;
        bytes(self.alloc, text, "encoder stream", &self.instructions)
    }

    /// Decodes the section, if its insertions were read, and acknowledges it if it names some.
    fn read(&mut self, stream: u64, text: &mut String) -> Result<(), AllocError> {
        let mut cursor = SliceCursor::new(&self.section);
        match self.decoder.decode_header(&mut cursor) {
            Ok(decoded) => {
                fields(text, &decoded.fields)?;
                if decoded.dyn_ref && stream < 1 << 62 {
                    ack_header(stream, &mut self.replies)?;
                }
                bytes(self.alloc, text, "decoder stream", &self.replies)
            }
            Err(e) => {
                let line = format!(in self.alloc; "not decoded: {e:?}")?;
                words(text, line.as_str())
            }
        }
    }

    /// The decoder reads what is on the encoder stream.
    fn carry_instructions(&mut self, text: &mut String) -> Result<(), AllocError> {
        let mut cursor = SliceCursor::new(&self.instructions);
        let read = self.decoder.on_encoder_recv(&mut cursor, &mut self.replies);
        let inserted = read.map_err(|_| AllocError)?;
        self.instructions.clear();
        number(self.alloc, text, "insertions read", inserted)?;
        bytes(self.alloc, text, "decoder stream", &self.replies)
    }

    /// The encoder reads what is on the decoder stream.
    fn carry_replies(&mut self, text: &mut String) -> Result<(), AllocError> {
        let mut cursor = SliceCursor::new(&self.replies);
        self.encoder
            .on_decoder_recv(&mut cursor)
            .map_err(|_| AllocError)?;
        self.replies.clear();
        number(
            self.alloc,
            text,
            "known received count",
            self.encoder.known_received(),
        )?;
        number(
            self.alloc,
            text,
            "sections that may wait",
            self.encoder.blocks_out(),
        )
    }

    /// The decoder's side gives a stream up before it decoded its section.
    fn give_up(&mut self, stream: u64, text: &mut String) -> Result<(), AllocError> {
        if stream < 1 << 62 {
            stream_canceled(stream, &mut self.replies)?;
        }
        bytes(self.alloc, text, "decoder stream", &self.replies)
    }
}
