//! QPACK without the dynamic table (RFC 9204): fields, integers, strings, the static table, field
//! lines and instructions.
#![tactic(auto)]

pub mod block;
mod borrowed_fields;
mod byte_buffer;
pub mod cursor;
pub mod decoder;
mod decoder_error;
pub mod dynamic;
pub mod encoder;
mod encoder_error;
mod error;
pub mod examples;
pub mod field;
mod field_block;
mod fields;
mod first_room;
pub mod laws;
mod octets;
pub mod parse_error;
mod part;
pub mod prefix_int;
pub mod prefix_string;
mod same;
mod shapes;
mod short;
pub mod static_;
pub mod stream;
pub mod vas;
pub mod waiting;

pub use borrowed_fields::BorrowedFields;
pub use cursor::SliceCursor;
pub use decoder::{Decoded, decode_stateless, decode_stateless_into};
pub use decoder_error::DecoderError;
pub use encoder::{encode_stateless, encode_static_line};
pub use encoder_error::EncoderError;
pub use error::Error;
pub use field::HeaderField;
pub use field_block::FieldBlock;
pub use fields::{FieldRef, Fields, section_size};
pub use first_room::reserve_some;
pub use part::Part;
pub use prefix_string::ShortString;
pub use same::is_same;
