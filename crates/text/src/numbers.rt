// Numbers in decimal.
ghost use Rattle.std.specs.Prelude.{◌≡◌, ◌≤◌, IfSome, unsigned_abs};
ghost use Rattle.text.specs.Numbers.{number, within, signed, sized};

// The number that `field` writes, where it is from `least` to `most`. A zero stands only alone.
pub fn number_within(field: &[u8], least: u32, most: u32) -> Option<u32>
    ensures value { result ≡ within least most (number field.now) }
    ensures bounds { IfSome result (λ n. (least ≤ n) × (n ≤ most)) }
{
    if matches!(field, [] | [b'0', _, ..]) {
        return None;
    }
    let mut n: u64 = 0;
    for byte in field {
        if !byte.is_ascii_digit() {
            return None;
        }
        n = n * 10 + (*byte - b'0') as u64;
        if n > most as u64 {
            return None;
        }
    }
    (n >= least as u64).then_some(n as u32)
}

// The signed number that `field` writes, where it is at most `size` in size. There is no -0.
pub fn signed_within(field: &[u8], size: u32) -> Option<i64>
    ensures value { result ≡ sized size (signed field.now) }
    ensures bound { IfSome result (λ z. unsigned_abs z ≤ size) }
{
    match field {
        [b'-', digits @ ..] => number_within(digits, 1, size).map(|n| -(n as i64)),
        digits => number_within(digits, 0, size).map(i64::from),
    }
}
