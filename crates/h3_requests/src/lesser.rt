//! The lesser of two numbers, of which either may be missing.
ghost use Rattle.std.specs.Prelude.{◌≡◌};
ghost use Rattle.h3_requests.specs.Lesser.{lesser_of};

/// The lesser of both, or the one that is there.
pub(crate) fn lesser(one: Option<u64>, other: Option<u64>) -> Option<u64>
    ensures { result ≡ lesser_of one other }
{
    match (one, other) {
        (Some(first), Some(second)) => { if second < first { other } else { one } }
        (Some(_), None) => one,
        (None, _) => other,
    }
}
