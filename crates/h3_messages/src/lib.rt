//! Well-formed messages (RFC 9114, 4.1.2 and 4.2 to 4.5; RFC 9220, 3): which rule a field list breaks, as it came, and how much
//! content a message has. A list is judged before it becomes a `Header`, since a `Header` keeps neither the order of its
//! fields nor repeats of pseudo-header fields. Names and values have the grammar that `Header::try_from` asks.
//!
//! Nothing here takes memory, but for a list of more than 24,576 fields, whose names a map has to tell apart. No list is refused for its
//! length by these rules.
#![tactic(auto)]

pub mod content;
mod host;
mod invalid;
pub mod judging;
mod known;
pub mod laws;
mod name_set;
pub mod outline;
pub mod own;
mod pseudo;
pub mod reading;
mod regular;
mod request;
mod response;
pub mod response_said;
pub mod said;
pub mod section;
mod seen;
mod slot;
mod survey;
mod text;
pub mod violation;

pub use content::{Asked, Content, is_interim_status};
pub use invalid::invalid_field;
pub use judging::{Judgment, judge};
pub use outline::Outline;
pub use own::or_broken;
pub use reading::ListError;
pub use response_said::ResponseSaid;
pub use said::{Said, awaited_by};
pub use section::{Rules, Section};
pub use violation::Violation;
