ghost use Rattle.std.specs.Prelude.{◌≡◌, ◌<◌, ◌≤◌};

/// After how many bytes a file is cut into pieces: 1 to 8,388,608.
#[derive(Clone, Copy)]
pub struct Cut {
    bytes: u32,
    ghost in_range: { (0 < bytes) × (bytes ≤ 8_388_608) },
}

impl Cut {
    /// The cut after so many bytes.
    pub fn after(bytes: u32) -> Cut
        requires some { 0 < bytes }
        requires most { bytes ≤ 8_388_608 }
        ensures { result.bytes ≡ bytes }
    {
        Cut { bytes }
    }

    /// How many bytes a piece has, but for a last one that is shorter.
    pub fn piece_length(self) -> usize
        ensures value { result ≡ self.bytes }
        ensures some { 0 < result }
    {
        self.bytes as usize
    }
}
