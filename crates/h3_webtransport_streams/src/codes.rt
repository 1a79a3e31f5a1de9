//! The codes with which an application resets streams of its sessions (draft-ietf-webtrans-http3-02, section 4.3): HTTP/3 has them one
//! after another, and leaves out the codes that are reserved.
ghost use Rattle.std.specs.Prelude.{◌≡◌, ◌<◌, ◌^◌};
ghost use Rattle.h3_webtransport_streams.specs.Codes.{code_of, number_of};

/// The code of number 0.
const FIRST: u64 = 0x52e4a40fa8db;

/// The code of HTTP/3 for this number of an application.
pub fn code_of(number: u32) -> u64
    ensures { result ≡ code_of number }
{
    let number = number as u64;
    FIRST + number + number / 30
}

/// The number of an application for this code of HTTP/3, if it has one.
pub fn number_of(code: u64) -> Option<u32>
    ensures { result ≡ number_of code }
{
    if code < FIRST {
        return None;
    }
    let behind = code - FIRST;
    let number = behind - behind / 31;
    if behind % 31 == 30 || number >= 1 << 32 {
        return None;
    }
    Some(number as u32)
}
