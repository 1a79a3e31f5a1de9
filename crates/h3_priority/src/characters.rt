//! The characters of structured fields (RFC 8941).
ghost use Rattle.std.specs.Prelude.{◌≡◌};
ghost use Rattle.h3_priority.specs.Characters.{is_in, is_digit, is_lowercase, is_alpha};

/// A class of characters.
#[derive(Clone, Copy)]
pub enum Class {
    /// SP.
    Space,
    /// OWS: SP and HTAB.
    Whitespace,
    /// DIGIT.
    Digit,
    /// What a key begins with.
    KeyStart,
    /// What stands in a key.
    Key,
    /// What a token begins with.
    TokenStart,
    /// What stands in a token.
    Token,
    /// What stands in a byte sequence.
    Base64,
    /// What stands in a string.
    Printable,
}

fn is_digit(byte: u8) -> bool
    ensures { result ≡ is_digit byte }
{
    byte >= b'0' && byte <= b'9'
}

fn is_lowercase(byte: u8) -> bool
    ensures { result ≡ is_lowercase byte }
{
    byte >= b'a' && byte <= b'z'
}

fn is_alpha(byte: u8) -> bool
    ensures { result ≡ is_alpha byte }
{
    is_lowercase(byte) || byte >= b'A' && byte <= b'Z'
}

impl Class {
    /// Whether a character belongs to the class.
    #[tactic(auto, unfolding(crate::specs::Characters::is_in))]
    pub fn has(self, byte: u8) -> bool
        ensures { result ≡ is_in self byte }
    {
        match self {
            Class::Space => byte == b' ',
            Class::Whitespace => byte == b' ' || byte == b'\t',
            Class::Digit => is_digit(byte),
            Class::KeyStart => is_lowercase(byte) || byte == b'*',
            Class::Key => is_lowercase(byte) || is_digit(byte) || b"_-.*".contains(&byte),
            Class::TokenStart => is_alpha(byte) || byte == b'*',
            Class::Token => is_alpha(byte)
                || is_digit(byte)
                || b"!#$%&'*+-.^_`|~:/".contains(&byte),
            Class::Base64 => is_alpha(byte) || is_digit(byte) || b"+/=".contains(&byte),
            Class::Printable => byte >= b' ' && byte <= b'~',
        }
    }
}
