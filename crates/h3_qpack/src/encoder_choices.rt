//! What an encoder chooses for itself: nothing of it is sent to its decoder.

/// What an encoder chooses for itself beyond its table. By default nothing is chosen.
#[derive(Clone, Copy)]
pub struct EncoderChoices {
    /// It is economical with its table. It names no entry of the oldest eighth of its table, and inserts such a field again (RFC 9204,
    /// section 2.1.1.1). Else it inserts a field with which nothing would drain, and the first of its name. It also inserts one whose value
    /// seems to be among the last 32 that were written as literals. If the decoder lets no section wait (a limit of 0), it inserts such a
    /// field after its literal line. It names the entry once the insertion is known to be received (section 2.1.2). An encoder that is not
    /// economical never inserts there.
    pub economical: bool,
    /// It flags each field that is known to be a secret, as if the caller had: credentials, and short cookies (RFC 9204, section 7.1.3).
    pub guards_secrets: bool,
    /// It writes a string plain if its Huffman code is not shorter. Else each string is Huffman coded.
    pub shortest_strings: bool,
}
