//! The prefix of an encoded field section (RFC 9204, section 4.5.1).
ghost use Rattle.std.specs.Prelude.{◌≡◌, ◌⊎◌, ◌+◌, ◌*◌, ◌/◌, ◌^◌, ◌<◌, ◌≤◌, ◌++◌, MatchOption, MatchResult, OnOk, OnErr};
ghost use Rattle.h3_field.specs.Ends.{IsEndOf};
ghost use Rattle.h3_field.specs.Prefix.{IsRequiredCount};
ghost use Rattle.h3_field.specs.PrefixReading.{IsPrefix, HasNoCount, prefix};
ghost use Rattle.h3_field.specs.PrefixWriting.{written_prefix, encoded_bytes};
ghost use Rattle.h3_field.specs.PrefixAnswer.{AnswersPrefix, HasNoPrefix};

use crate::cursor::SliceCursor;
use crate::parse_error::ParseError;
use crate::prefix_int;
use std::alloc::AllocError;
use std::marker::Model;

/// The encoded required insert count, and the base by its sign and its distance from that count:
/// `| encoded insert count (8+) | S | delta base (7+) |` (RFC 9204, section 4.5.1).
#[derive(PartialEq, Debug, Drop)]
pub struct HeaderPrefix {
    count: u64,
    below: bool,
    distance: u64,
}

impl Model for HeaderPrefix {
    ghost use Rattle.std.specs.Prelude.{◌<◌};
    ghost use Rattle.h3_field.specs.IntegerReading.{integer_limit};
    ghost use Rattle.h3_field.specs.PrefixReading.{EncodedPrefix};

    ghost Value = { EncodedPrefix };

    ghost view = { λ p. record { encoded = p.count; is_negative = p.below; delta = p.distance } };

    ghost invariant = { λ p. (p.count < integer_limit 8) × (p.distance < integer_limit 7) };

    ghost inverse = { λ p. record { count = p.encoded; below = p.is_negative; distance = p.delta } };
}

// RFC 9204 4.5.1.1: required insert count, encoded
/// The number of that residue among those that a reader of so many insertions may meet, by the algorithm and in the words of
/// RFC 9204, section 4.5.1.1.
fn required_count(capacity: usize, inserted: usize, encoded: u64) -> Option<u64>
    requires inserted { inserted ≤ 2 ^ 62 }
    requires encoded { 0 < encoded }
    ensures { MatchOption result (HasNoCount capacity inserted encoded) (λ r. IsRequiredCount capacity inserted encoded r) }
{
    let max_entries = capacity as u64 / 32;
    let full_range = 2 * max_entries;
    if encoded > full_range {
        return None;
    }
    let max_value = inserted as u64 + max_entries;
    let max_wrapped = max_value / full_range * full_range;
    let count = max_wrapped + (encoded - 1);
    if count <= max_value {
        if count == 0 { None } else { Some(count) }
    } else if max_wrapped == 0 {
        None
    } else {
        let count = count - full_range;
        if count == 0 { None } else { Some(count) }
    }
}

impl HeaderPrefix {
    /// The prefix of a section with that required insert count and base, written after `total_inserted` insertions
    /// for a reader that announced the capacity `max_table_size`.
    pub fn new(
        required: usize,
        base: usize,
        total_inserted: usize,
        max_table_size: usize,
    ) -> HeaderPrefix
        requires required { required ≤ total_inserted }
        requires capacity { (required ≡ 0) ⊎ (32 ≤ max_table_size) }
        requires count { required < 2 ^ 62 }
        requires base { base < 2 ^ 62 }
        ensures { result ≡ written_prefix max_table_size required base }
    {
        if required == 0 {
            return HeaderPrefix {
                count: 0,
                below: false,
                distance: 0,
            };
        }
        let full_range = 2 * (max_table_size as u64 / 32);
        let count = required as u64 % full_range + 1;
        if base < required {
            return HeaderPrefix {
                count,
                below: true,
                distance: (required - base - 1) as u64,
            };
        }
        HeaderPrefix {
            count,
            below: false,
            distance: (base - required) as u64,
        }
    }

    // RFC 9204 4.5.1.2: base of a section
    /// The required insert count and the base, at a reader of `total_inserted` insertions that announced the capacity
    /// `max_table_size`. With capacity 0 both are 0, whatever was read.
    pub fn get(
        self,
        total_inserted: usize,
        max_table_size: usize,
    ) -> Result<(usize, usize), ParseError>
        requires { total_inserted ≤ 2 ^ 62 }
        ensures { MatchResult result (λ p. IsPrefix max_table_size total_inserted self p.0 p.1)
            (λ e. HasNoPrefix max_table_size total_inserted self e) }
    {
        if max_table_size == 0 {
            return Ok((0, 0));
        }
        let count = if self.count == 0 {
            0
        } else {
            let Some(count) = required_count(max_table_size, total_inserted, self.count) else {
                return Err(ParseError::InvalidPrefix(self.count));
            };
            count
        };
        if self.below {
            if self.distance >= count {
                return Err(ParseError::InvalidBase);
            }
            return Ok((count as usize, (count - self.distance - 1) as usize));
        }
        Ok((count as usize, (count + self.distance) as usize))
    }

    /// Takes the prefix from the front. A refused read takes nothing.
    pub fn decode(buf: &mut SliceCursor<'_>) -> Result<HeaderPrefix, ParseError>
        ensures answer { AnswersPrefix (prefix buf.old) buf.old buf.new result }
        ensures rest { IsEndOf buf.old buf.new }
    {
        let mut ahead = SliceCursor::new(buf.chunk());
        let (_, count) = prefix_int::decode(8, &mut ahead)?;
        let (sign, distance) = prefix_int::decode(7, &mut ahead)?;
        *buf = ahead;
        Ok(HeaderPrefix {
            count,
            below: sign % 2 == 1,
            distance,
        })
    }

    /// Appends the prefix. A refusal appends nothing.
    pub fn encode(&self, buf: &mut Vec<u8>) -> Result<(), AllocError>
        ensures ok { OnOk result (buf.new.items ≡ buf.old.items ++ encoded_bytes self.now) }
        ensures err { OnErr result (buf.new.items ≡ buf.old.items) }
    {
        let sign = if self.below { 1 } else { 0 };
        let start = buf.len();
        prefix_int::encode(8, 0, self.count, buf)?;
        let appended = prefix_int::encode(7, sign, self.distance, buf);
        if appended.is_err() {
            buf.truncate(start);
        }
        appended
    }
}
