ghost use Rattle.std.specs.Prelude.{◌≡◌, ◌≤◌};
ghost use Rattle.std.specs.Option.{option_map};
ghost use Rattle.kinds.specs.Counts.{counted};

// The greatest count.
const MOST: u16 = 4096;

// A count of figures, from 1 to 4,096: what a sum can be divided by.
#[derive(Clone, Copy)]
pub struct Count {
    value: u16,
    ghost within: { (1 ≤ value) × (value ≤ 4096) },
}

impl Count {
    // None of any other number.
    pub fn new(value: usize) -> Option<Count>
        ensures { option_map (λ (c : Count). c.value) result ≡ counted value }
    {
        let value = u16::try_from(value)
            .ok()
            .filter(|n| (1..=MOST).contains(n))?;
        Some(Count { value })
    }

    pub fn get(self) -> u16
        ensures { result ≡ self.value }
    {
        self.value
    }
}
