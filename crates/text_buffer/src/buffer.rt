// Memory for text.
ghost use Rattle.std.specs.Prelude.{◌≡◌, ◌≤◌, length};

// A text that is being written: the first `len` of the bytes.
#[derive(Drop)]
pub struct TextBuffer<const N: usize> {
    pub(crate) bytes: [u8; N],
    pub(crate) len: usize,
    ghost few: { len ≤ N },
    ghost full: { length bytes ≡ N },
}

// The text of a number: the bytes from `start` on. That of the least `i128` takes all of them.
#[derive(Clone, Copy)]
pub struct Numeral {
    pub(crate) bytes: [u8; 40],
    pub(crate) start: usize,
    ghost within: { start ≤ 40 },
    ghost full: { length bytes ≡ 40 },
}

// The text does not fit: one error, which has no cases.
#[derive(Clone, Copy, Debug, Eq, PartialEq)]
pub struct NoRoom;
