// Numbers in decimal.
ghost use Rattle.std.specs.Prelude.{◌≡◌, ℕ, ◌+◌, ◌<◌, ◌≤◌, List, [], ◌∷◌, ◌++◌, length, decimal};
ghost use Rattle.std.specs.Fmt.{signed_decimal};
ghost use Rattle.text_buffer.specs.Texts.{spelt};

use crate::buffer::Numeral;

// A number, of any width.
pub trait Integer: Copy {
    // Its digits, behind a sign where it is below zero.
    ghost text: { Self → List ℕ };

    fn numeral(self) -> Numeral
        ensures { spelt result ≡ text self };
}

impl Numeral {
    fn empty() -> Numeral
        ensures { spelt result ≡ [] }
    {
        Numeral {
            bytes: [0; 40],
            start: 40,
        }
    }

    pub fn as_bytes(&self) -> &[u8]
        ensures { result.now ≡ spelt self.now }
    {
        &self.bytes[self.start..]
    }

    // Puts a byte in front.
    fn put_before(&mut self, byte: u8)
        requires { length (spelt self.old) < 40 }
        ensures { spelt self.new ≡ byte ∷ spelt self.old }
    {
        self.start -= 1;
        self.bytes[self.start] = byte;
    }

    // Puts the digits of a number in front, from the last one on.
    fn put_digits_before(&mut self, n: u64)
        requires { length (decimal n) + length (spelt self.old) ≤ 40 }
        ensures { spelt self.new ≡ decimal n ++ spelt self.old }
    {
        let mut rest = n;
        while rest >= 10 {
            self.put_before(b'0' + (rest % 10) as u8);
            rest /= 10;
        }
        self.put_before(b'0' + rest as u8);
    }
}

fn numeral_of(n: u64) -> Numeral
    ensures { spelt result ≡ decimal n }
{
    let mut numeral = Numeral::empty();
    numeral.put_digits_before(n);
    numeral
}

fn signed_numeral_of(z: i64) -> Numeral
    ensures { spelt result ≡ signed_decimal z }
{
    let mut numeral = numeral_of(z.unsigned_abs());
    if z < 0 {
        numeral.put_before(b'-');
    }
    numeral
}

// Digits are cut off until the rest has 64 bits.
fn wide_numeral_of(n: u128) -> Numeral
    ensures { spelt result ≡ decimal n }
{
    let mut numeral = Numeral::empty();
    let mut rest = n;
    while rest > u64::MAX as u128 {
        numeral.put_before(b'0' + (rest % 10) as u8);
        rest /= 10;
    }
    numeral.put_digits_before(rest as u64);
    numeral
}

impl Integer for u8 {
    ghost text = { decimal };

    fn numeral(self) -> Numeral {
        numeral_of(self as u64)
    }
}

impl Integer for u16 {
    ghost text = { decimal };

    fn numeral(self) -> Numeral {
        numeral_of(self as u64)
    }
}

impl Integer for u32 {
    ghost text = { decimal };

    fn numeral(self) -> Numeral {
        numeral_of(self as u64)
    }
}

impl Integer for u64 {
    ghost text = { decimal };

    fn numeral(self) -> Numeral {
        numeral_of(self)
    }
}

impl Integer for usize {
    ghost text = { decimal };

    fn numeral(self) -> Numeral {
        numeral_of(self as u64)
    }
}

impl Integer for i8 {
    ghost text = { signed_decimal };

    fn numeral(self) -> Numeral {
        signed_numeral_of(self as i64)
    }
}

impl Integer for i16 {
    ghost text = { signed_decimal };

    fn numeral(self) -> Numeral {
        signed_numeral_of(self as i64)
    }
}

impl Integer for i32 {
    ghost text = { signed_decimal };

    fn numeral(self) -> Numeral {
        signed_numeral_of(self as i64)
    }
}

impl Integer for i64 {
    ghost text = { signed_decimal };

    fn numeral(self) -> Numeral {
        signed_numeral_of(self)
    }
}

impl Integer for isize {
    ghost text = { signed_decimal };

    fn numeral(self) -> Numeral {
        signed_numeral_of(self as i64)
    }
}

impl Integer for u128 {
    ghost text = { decimal };

    fn numeral(self) -> Numeral {
        wide_numeral_of(self)
    }
}

impl Integer for i128 {
    ghost text = { signed_decimal };

    fn numeral(self) -> Numeral {
        let mut numeral = wide_numeral_of(self.unsigned_abs());
        if self < 0 {
            numeral.put_before(b'-');
        }
        numeral
    }
}
