ghost use Rattle.std.specs.Prelude.{◌≡◌, filter, nat_le, nat_lt};
ghost use Rattle.std.specs.List.Sorted.{IsNonDecreasingBy};

/// That a change touches a facet.
#[derive(Clone, Copy, Debug)]
pub struct Mention {
    /// The change's number.
    pub number: u64,
    /// Whether the change writes the facet, or only looks at it.
    pub writes: bool,
}

impl Mention {
    fn is_up_to(&self, number: u64) -> bool
        ensures { result ≡ nat_le self.now.number number }
    {
        self.number <= number
    }
}

/// Those with greater numbers, of mentions by number. It takes log n steps for n mentions.
pub(crate) fn above(mentions: &[Mention], number: u64) -> &[Mention]
    requires { IsNonDecreasingBy (λ m. m.number) mentions.now }
    ensures { result.now ≡ filter (λ m. nat_lt number m.number) mentions.now }
{
    let start = mentions.partition_point(|mention| mention.is_up_to(number));
    &mentions[start..]
}

/// Those with lesser numbers.
pub(crate) fn below(mentions: &[Mention], number: u64) -> &[Mention]
    requires { IsNonDecreasingBy (λ m. m.number) mentions.now }
    ensures { result.now ≡ filter (λ m. nat_lt m.number number) mentions.now }
{
    let end = mentions.partition_point(|mention| mention.number < number);
    &mentions[..end]
}
