//! What can be read of a stream and of the connection: `h3_stream_state` and `h3_state` of the header.

/// A stream.
#[repr(C)]
#[derive(Copy, Clone)]
pub struct StreamState {
    pub waiting: u64,
    pub unread: u64,
    pub has_outgoing: u32,
    pub is_finished: u32,
    pub is_reset: u32,
    pub tries: u32,
}

/// The connection.
#[repr(C)]
#[derive(Copy, Clone)]
pub struct ConnectionState {
    pub sending_table: u64,
    pub receiving_table: u64,
    pub waiting_heads: u64,
    pub sent: u64,
    pub goaway: u64,
    pub peer_table: u64,
    pub peer_blocked: u64,
    pub peer_section: u64,
    pub has_goaway: u32,
    pub has_settings: u32,
}
