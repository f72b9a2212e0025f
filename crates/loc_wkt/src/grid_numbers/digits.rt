// Digits as they are read from the left, in constant room: of a significand its head and the zeros behind it, of an exponent as much
// as decides.

ghost use Rattle.std.specs.Prelude.{◌≡◌, ◌≤◌, ◌<◌, ◌+◌, ◌*◌, ◌^◌, ℕ, List, ◌++◌, length, min, true};
ghost use Rattle.std.specs.Char.{is_ascii_digit};
ghost use Rattle.std.specs.List.{list_all};
ghost use Rattle.std.specs.Str.Parse.{digits_value};
ghost use Rattle.loc_wkt.specs.GridNumbers.{Represents};

const HEAD_LIMIT: u64 = 10_000_000_000_000_000_000;

// A head below this takes one digit more.
const SHORT_HEAD: u64 = HEAD_LIMIT / 10;

const MOST_SHIFT: u128 = 1 << 66;

/// Digits read so far: a head below 10^19 that ends in no zero, and the zeros behind it. Where the head is longer, it is not kept.
#[derive(Clone, Copy)]
pub struct Digits {
    pub head: u64,
    pub zeros: usize,
    pub long: bool,
}

impl Digits {
    /// No digits.
    pub fn none() -> Digits
        ensures none { Represents result 0 }
        ensures zeros { result.zeros ≡ 0 }
    {
        Digits {
            head: 0,
            zeros: 0,
            long: false,
        }
    }

    /// One digit more.
    fn push(self, digit: u8) -> Digits
        requires small { digit < 10 }
        requires few { self.zeros + 1 < 2 ^ 64 }
        ensures value { (v : ℕ) → Represents self v → Represents result (v * 10 + digit) }
        ensures zeros { result.zeros ≤ self.zeros + 1 }
    {
        let long = Digits {
            head: 0,
            zeros: 0,
            long: true,
        };
        if digit == 0 {
            if self.head == 0 && !self.long {
                return self;
            }
            return Digits {
                head: self.head,
                zeros: self.zeros + 1,
                long: self.long,
            };
        }
        if self.zeros == 0 && !self.long && self.head < SHORT_HEAD {
            return Digits {
                head: self.head * 10 + digit as u64,
                zeros: 0,
                long: false,
            };
        }
        if self.long || self.zeros > 18 || self.head >= HEAD_LIMIT {
            return long;
        }
        let head = self.head as u128 * 10u64.pow(self.zeros as u32 + 1) as u128 + digit as u128;
        if head >= HEAD_LIMIT as u128 {
            return long;
        }
        Digits {
            head: head as u64,
            zeros: 0,
            long: false,
        }
    }

    /// More digits.
    pub fn followed_by(self, digits: &[u8]) -> Digits
        requires digits { list_all is_ascii_digit digits.now ≡ true }
        requires few { self.zeros + length digits.now < 2 ^ 64 }
        ensures value { (before : List ℕ) → Represents self (digits_value 10 before) → Represents result (digits_value 10 (before ++ digits.now)) }
        ensures zeros { result.zeros ≤ self.zeros + length digits.now }
    {
        let mut read = self;
        for b in digits {
            read = read.push(*b - b'0');
        }
        read
    }
}

/// The value of digits, of which no more than 2^66 is kept.
pub fn capped_value(digits: &[u8]) -> u128
    requires { list_all is_ascii_digit digits.now ≡ true }
    ensures { result ≡ min (digits_value 10 digits.now) (2 ^ 66) }
{
    let mut value: u128 = 0;
    for b in digits {
        value = (value * 10 + (*b - b'0') as u128).min(MOST_SHIFT);
    }
    value
}
