//! A window on bits.
ghost use Rattle.std.specs.Prelude.{◌≡◌, ◌+◌, ◌-◌, ◌*◌, ◌%◌, ◌^◌, ◌<◌, ◌≤◌};

/// `count` bits from bit `bit` of byte `byte` on. Bit 0 is the highest one of a byte.
#[derive(Copy, Clone, PartialEq, Eq, Debug)]
pub struct BitWindow {
    pub byte: u64,
    pub bit: u64,
    pub count: u64,
}

impl BitWindow {
    /// No bits, at the first one.
    pub fn new() -> BitWindow
        ensures { result ≡ record { byte = 0; bit = 0; count = 0 } }
    {
        BitWindow {
            byte: 0,
            bit: 0,
            count: 0,
        }
    }

    /// Goes past the window, and makes it `step` bits wide.
    pub fn forwards(&mut self, step: u64)
        requires { self.old.byte + self.old.bit + self.old.count ≤ 2 ^ 63 }
        ensures place { 8 * self.new.byte + self.new.bit ≡ 8 * self.old.byte + self.old.bit + self.old.count }
        ensures bit { self.new.bit < 8 }
        ensures width { self.new.count ≡ step }
    {
        let past = self.bit + self.count;
        self.byte += past / 8;
        self.bit = past % 8;
        self.count = step;
    }

    /// The window from the same bit to the end of its byte. A bit past the first byte counts within its own byte.
    pub fn opposite_bit_window(&self) -> BitWindow
        ensures place { (result.byte ≡ self.now.byte) × (result.bit ≡ self.now.bit) }
        ensures width { result.count ≡ 8 - self.now.bit % 8 }
    {
        BitWindow {
            byte: self.byte,
            bit: self.bit,
            count: 8 - self.bit % 8,
        }
    }
}
