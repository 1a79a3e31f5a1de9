//! How far a message has come (RFC 9114, section 4.1), at its receiver and at its sender.

// The places of a message that comes, and the answers of a pull that lead from one to the next. At each place that is not over the message
// may be given up (`fault`): it is malformed, the peer resets it, or the caller cancels it.
//
//   +------------+  a header section   +--------+  a trailer section     +--------------+
//   | BeforeHead | ------------------> | InBody | ---------------------> | AfterTrailer |
//   +------------+                     +--------+                        +--------------+
//     Interim stays  | Session           Body stays  | End                       | End
//                    v                               v                           |
//             +-----------+           End       +---------+                      |
//             | InSession | ------------------> | is_over | <--------------------+
//             +-----------+                     +---------+
//               Raw stays
//
// A section that is too large leads to the same place as one that is delivered.

/// How far the message that is received has come.
#[derive(Clone, Copy, Debug, PartialEq, Eq)]
pub enum Place {
    /// No header section came, or only those of interim responses.
    BeforeHead,
    /// After the final header section: content and a trailer may come.
    InBody,
    /// After the trailer.
    AfterTrailer,
    /// It is no message, and all bytes are delivered as they are.
    InSession,
}

// The places of a message that is sent, and the calls that lead from one to the next. Up to the end that is taken, `reset` may follow.
//
//   +-------------+  send_head  +----------+  send_trailer  +-------------+
//   | NothingSent | ----------> | HeadSent | -------------> | TrailerSent |
//   +-------------+             +----------+                +-------------+
//     send_head of an interim     send_body stays  | finish        | finish
//     response stays                               v               |
//                                           +-------------+        |
//                                           | is_finished | <------+
//                                           +-------------+

/// How far the message that is sent has come.
#[derive(Clone, Copy, Debug, PartialEq, Eq)]
pub enum SendPlace {
    /// No header section was sent, or only those of interim responses.
    NothingSent,
    /// The final header section was sent.
    HeadSent,
    /// The trailer was sent.
    TrailerSent,
}
