//! Whether two texts are the same.
ghost use Rattle.std.specs.Prelude.{◌≡◌, ◌≤◌, ◌+◌, bytes_eq, length};

/// Whether the two texts are the same. It is for short ones: the kit's `==` on slices begins with what pays for long ones.
#[tactic(auto, using(crate::proofs::Runs::other_lengths))]
#[inline(always)]
pub fn is_same(text: &[u8], other: &[u8]) -> bool
    ensures { result ≡ bytes_eq text.now other.now }
{
    text.len() == other.len() && is_same_in_words(text, other)
}

// The same for two of one length: by their first and their last bytes.
#[inline(always)]
fn is_same_in_words(text: &[u8], other: &[u8]) -> bool
    requires { length text.now ≡ length other.now }
    ensures { result ≡ bytes_eq text.now other.now }
{
    match text.len() {
        4..=8 => have_same_ends::<4>(text, other),
        9..=16 => have_same_ends::<8>(text, other),
        _ => text == other,
    }
}

// The same for two of one length whose first and last bytes are all that they have.
#[inline(always)]
fn have_same_ends<const N: usize>(text: &[u8], other: &[u8]) -> bool
    requires same { length text.now ≡ length other.now }
    requires least { N ≤ length text.now }
    requires most { length text.now ≤ N + N }
    ensures { result ≡ bytes_eq text.now other.now }
{
    let Some(first) = text.first_chunk::<N>() else {
        return false;
    };
    let Some(other_first) = other.first_chunk::<N>() else {
        return false;
    };
    let Some(last) = text.last_chunk::<N>() else {
        return false;
    };
    let Some(other_last) = other.last_chunk::<N>() else {
        return false;
    };
    (first == other_first) & (last == other_last)
}
