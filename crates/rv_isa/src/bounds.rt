ghost use Rattle.std.specs.Prelude.{◌≡◌};
ghost use Rattle.rv_isa.specs.Bounds.{is_in_range, is_power, lies, takes};

/// Which numbers a key takes.
#[derive(Clone, Copy)]
pub enum Bounds {
    /// Every number from the first to the second.
    Whole(u32, u32),
    /// The multiples of 4096 among them.
    Pages(u32, u32),
    /// The powers of two among them.
    Powers(u32, u32),
    /// The multiples of 4.
    Words,
    /// The multiples of 4096 up to the bytes of RAM.
    Front,
}

fn lies(low: u32, high: u32, number: u32) -> bool
    ensures { result ≡ lies low high number }
{
    low <= number && number <= high
}

impl Bounds {
    /// Whether a number is in the range, and a multiple where one is asked for, on a machine with so
    /// many bytes of RAM.
    pub fn is_in_range(self, ram_size: u32, number: u32) -> bool
        ensures { result ≡ is_in_range self ram_size number }
    {
        match self {
            Bounds::Whole(low, high) | Bounds::Powers(low, high) => lies(low, high, number),
            Bounds::Pages(low, high) => lies(low, high, number) && number % 4096 == 0,
            Bounds::Words => number % 4 == 0,
            Bounds::Front => number <= ram_size && number % 4096 == 0,
        }
    }

    /// Whether a number is a power of two, where one is asked for.
    pub fn is_power(self, number: u32) -> bool
        ensures { result ≡ is_power self number }
    {
        match self {
            Bounds::Powers(_, _) => number.is_power_of_two(),
            _ => true,
        }
    }

    /// Whether a key with these bounds takes a number, on a machine with so many bytes of RAM.
    pub fn takes(self, ram_size: u32, number: u32) -> bool
        ensures { result ≡ takes self ram_size number }
    {
        self.is_in_range(ram_size, number) && self.is_power(number)
    }
}
