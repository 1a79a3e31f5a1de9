//! QPACK's dynamic table (RFC 9204): what a decoder reads, what an encoder writes, and the law of their sessions.
#![tactic(auto)]

pub mod block_within;
pub mod decoder;
pub mod dynamic;
pub mod encoder;
pub mod encoder_choices;
pub mod encoder_view;
pub mod examples;
pub mod laws;
mod lines;
mod marks;
mod pending_section;
pub mod reserved;
mod section;
pub mod session;
mod static_section;
pub mod view;
pub mod within;
mod writing;

pub use block_within::{BlockWithin, SectionSummary};
pub use decoder::{Decoder, ack_header, stream_canceled};
pub use dynamic::DynamicTable;
pub use encoder::{Encoder, set_dynamic_table_size};
pub use encoder_choices::EncoderChoices;
pub use encoder_view::{DynamicInsertionResult, DynamicLookupResult, DynamicTableEncoder};
pub use h3_field::{
    Decoded, DecoderError, EncoderError, Error, FieldBlock, FieldRef, Fields, HeaderField, Part,
    SliceCursor, block, cursor, decode_stateless, decode_stateless_into, encode_stateless, field,
    parse_error, prefix_int, prefix_string, section_size, static_, stream, vas,
};
pub use session::{SessionAnswer, SessionEvent, run};
pub use view::DynamicTableDecoder;
pub use within::LargeSection;
