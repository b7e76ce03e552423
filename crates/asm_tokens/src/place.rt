//! Places in a file.

ghost use Rattle.std.specs.Prelude.{◌≡◌, ◌+◌, ◌-◌, ◌^◌, ◌<◌, length};
ghost use Rattle.asm_tokens.specs.Places.{after_byte, place_after};

/// A place in a file: its line and, in bytes, its column, both from 1.
#[derive(Clone, Copy, Debug, PartialEq, Eq)]
pub struct Place {
    pub line: usize,
    pub column: usize,
}

impl Place {
    ghost use Rattle.asm_tokens.specs.Places.{start};

    /// The first place of a file.
    pub fn start() -> Place
        ensures { result ≡ start }
    {
        Place { line: 1, column: 1 }
    }

    /// The place after a byte.
    fn after_byte(self, byte: u8) -> Place
        requires line { self.line < 2 ^ 64 - 1 }
        requires column { self.column < 2 ^ 64 - 1 }
        ensures { result ≡ after_byte self byte }
    {
        if byte == b'\n' {
            Place {
                line: self.line + 1,
                column: 1,
            }
        } else {
            Place {
                line: self.line,
                column: self.column + 1,
            }
        }
    }

    /// The place after these bytes.
    pub fn after(self, bytes: &[u8]) -> Place
        requires line { self.line + length bytes.now < 2 ^ 64 }
        requires column { self.column + length bytes.now < 2 ^ 64 }
        ensures { result ≡ place_after self bytes.now }
    {
        let mut place = self;
        for byte in bytes {
            place = place.after_byte(*byte);
        }
        place
    }
}
