// What a fill and a clearing ask of their items: a zero, and a union that is zero only where both are.
ghost use Rattle.std.specs.Prelude.{◌≡◌, ◌↔◌, IsTrue};

pub trait Zeroed: Copy {
    ghost zero: { Self };

    fn zero() -> Self
        ensures { result ≡ zero };

    fn united(self, other: Self) -> Self
        ensures { result ≡ zero → (self ≡ zero) × (other ≡ zero) };

    fn is_zero(self) -> bool
        ensures { IsTrue result ↔ (self ≡ zero) };
}

impl Zeroed for u8 {
    ghost zero = { 0 };

    fn zero() -> u8 {
        0
    }

    fn united(self, other: u8) -> u8 {
        self | other
    }

    fn is_zero(self) -> bool {
        self == 0
    }
}

impl Zeroed for u32 {
    ghost zero = { 0 };

    fn zero() -> u32 {
        0
    }

    fn united(self, other: u32) -> u32 {
        self | other
    }

    fn is_zero(self) -> bool {
        self == 0
    }
}

impl Zeroed for u64 {
    ghost zero = { 0 };

    fn zero() -> u64 {
        0
    }

    fn united(self, other: u64) -> u64 {
        self | other
    }

    fn is_zero(self) -> bool {
        self == 0
    }
}
