// Machine words that stand for sets, whatever their width.
ghost use Rattle.std.proofs.Common.{rules};
ghost use Rattle.std.specs.Prelude.{◌≡◌, ◌≤◌, ◌<◌, ◌^◌, ℕ};

pub trait Word: Copy + Drop {
    // How what may be in a set is numbered.
    type Place: Copy + Drop;

    // How many bits a word has.
    ghost width: { ℕ };

    // The word as a number.
    ghost number: { Self → ℕ };

    // The bit's number.
    ghost place: { Self.Place → ℕ };

    // The word in 64 bits.
    fn wide(self) -> u64
        ensures same { result ≡ number self }
        ensures bound { result < 2 ^ width };

    // The word of n, whose bits past the width are 0.
    fn narrow(n: u64) -> Self
        requires { n < 2 ^ width }
        ensures { number result ≡ n };

    // Which bit stands for t.
    fn at(t: Self::Place) -> u64
        ensures { result ≡ place t };

    ghost within: { width ≤ 64 };
}

// Signals and nodes.
impl Word for u32 {
    type Place = u32;

    ghost width = { 32 };

    ghost number = { λ w. w };

    ghost place = { λ t. t };

    ghost within = { Prim.search rules };

    // The word in 64 bits.
    fn wide(self) -> u64 {
        self as u64
    }

    fn narrow(n: u64) -> u32 {
        n as u32
    }

    fn at(t: u32) -> u64 {
        t as u64
    }
}

// States.
impl Word for u64 {
    type Place = usize;

    ghost width = { 64 };

    ghost number = { λ w. w };

    ghost place = { λ t. t };

    ghost within = { Prim.search rules };

    // The word in 64 bits.
    fn wide(self) -> u64 {
        self
    }

    fn narrow(n: u64) -> u64 {
        n
    }

    fn at(t: usize) -> u64 {
        t as u64
    }
}
