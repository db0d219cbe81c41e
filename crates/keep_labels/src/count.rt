ghost use Rattle.std.specs.Prelude.{◌≡◌, ◌<◌, ◌≤◌, ◌↔◌, IfSome, IsSome};

/// How many a policy keeps: 1 to 1,048,576.
#[derive(Clone, Copy)]
pub struct Count {
    number: u32,
    ghost in_range: { (0 < number) × (number ≤ 1_048_576) },
}

impl Count {
    /// The count of this number, if it is in range.
    pub fn new(number: u32) -> Option<Count>
        ensures accepted { IsSome result ↔ (0 < number) × (number ≤ 1_048_576) }
        ensures value { IfSome result (λ count. count.number ≡ number) }
    {
        if number == 0 || number > 1_048_576 {
            return None;
        }
        Some(Count { number })
    }

    pub fn get(self) -> u32
        ensures { result ≡ self.number }
    {
        self.number
    }
}
