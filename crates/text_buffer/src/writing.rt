// Writing text, and handing it over.
ghost use Rattle.std.specs.Prelude.{◌≡◌, ◌+◌, [], ◌++◌, length, drop, is_ok, if◌then◌else◌, Some, None, nat_le};
ghost use Rattle.std.specs.Result.{result_ok};
ghost use Rattle.text_buffer.specs.Texts.{written, IsPut};

use crate::buffer::{NoRoom, TextBuffer};
use crate::numbers::Integer;

impl<const N: usize> TextBuffer<N> {
    pub fn new() -> TextBuffer<N>
        ensures { written result ≡ [] }
    {
        TextBuffer {
            bytes: [0; N],
            len: 0,
        }
    }

    pub fn as_bytes(&self) -> &[u8]
        ensures { result.now ≡ written self.now }
    {
        &self.bytes[..self.len]
    }

    // Puts a text at the end. Where it does not fit, all stays as it is.
    pub fn put(&mut self, text: &[u8]) -> Result<(), NoRoom>
        ensures fits { is_ok result ≡ nat_le (length (written self.old) + length text.now) N }
        ensures after { written self.new ≡ (if is_ok result then written self.old ++ text.now else written self.old) }
    {
        if text.len() > N - self.len {
            return Err(NoRoom);
        }
        let (start, end) = (self.len, self.len + text.len());
        let bytes = &mut self.bytes[..];
        bytes[start..end].copy_from_slice(text);
        self.len = end;
        Ok(())
    }

    // Puts a number in decimal at the end. Where it does not fit, all stays as it is.
    pub fn put_number<I: Integer>(&mut self, n: I) -> Result<(), NoRoom>
        ensures fits { is_ok result ≡ nat_le (length (written self.old) + length (I.text n)) N }
        ensures after { written self.new ≡ (if is_ok result then written self.old ++ I.text n else written self.old) }
    {
        self.put(n.numeral().as_bytes())
    }

    // Puts a label, a number in decimal and its unit. Where they do not fit, some of them may have been put.
    // Not by `write!`, since what it promises does not say when a text does not fit.
    pub fn put_figure<I: Integer>(&mut self, label: &[u8], n: I, unit: &[u8]) -> Result<(), NoRoom>
        ensures { IsPut (label.now ++ (I.text n ++ unit.now)) self.old self.new result }
    {
        self.put(label)?;
        self.put_number(n)?;
        self.put(unit)
    }

    // Copies the text to the front of `out`, and says how long it is. Where it does not fit, `out`
    // stays as it is.
    pub fn copy_to(&self, out: &mut [u8]) -> Result<usize, NoRoom>
        ensures length { result_ok result ≡ (if nat_le (length (written self.now)) (length out.old) then Some (length (written self.now)) else None) }
        ensures after { out.new ≡ (if is_ok result then written self.now ++ drop (length (written self.now)) out.old else out.old) }
    {
        let text = self.as_bytes();
        if out.len() < text.len() {
            return Err(NoRoom);
        }
        out[..text.len()].copy_from_slice(text);
        Ok(text.len())
    }
}
