ghost use Rattle.std.specs.Prelude.{◌≡◌, ℕ, List};
ghost use Rattle.octets.specs.BigEndian.{be_number, be_bytes};

/// A number that a format has in a fixed count of bytes, the highest first.
// Over std's own methods, to say what they do once for each width and in the words of the formats.
pub trait BigEndian {
    /// As many bytes as the number has.
    type Bytes;

    /// How many they are.
    ghost width: { ℕ };

    /// The bytes, as a list.
    ghost listed: { Self.Bytes → List ℕ };

    /// The number, whatever its type.
    ghost number: { Self → ℕ };

    /// The number that these bytes hold.
    fn from_bytes(bytes: Self::Bytes) -> Self
        ensures { number result ≡ be_number (listed bytes) };

    /// The bytes that hold the number.
    fn to_bytes(self) -> Self::Bytes
        ensures { listed result ≡ be_bytes width (number self) };
}

impl BigEndian for u16 {
    type Bytes = [u8; 2];

    ghost width = { 2 };

    ghost listed = { λ bytes. bytes };

    ghost number = { λ n. n };

    fn from_bytes(bytes: [u8; 2]) -> u16 {
        u16::from_be_bytes(bytes)
    }

    fn to_bytes(self) -> [u8; 2] {
        u16::to_be_bytes(self)
    }
}

impl BigEndian for u32 {
    type Bytes = [u8; 4];

    ghost width = { 4 };

    ghost listed = { λ bytes. bytes };

    ghost number = { λ n. n };

    fn from_bytes(bytes: [u8; 4]) -> u32 {
        u32::from_be_bytes(bytes)
    }

    fn to_bytes(self) -> [u8; 4] {
        u32::to_be_bytes(self)
    }
}
