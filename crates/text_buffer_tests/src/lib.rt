// Tests of text that is being written.
#![tactic(auto)]

#[cfg(test)]
mod tests {
    use text_buffer::buffer::{NoRoom, TextBuffer};

    fn least() -> Result<TextBuffer<24>, NoRoom> {
        let mut text: TextBuffer<24> = TextBuffer::new();
        text.put(b"x=")?;
        text.put_number(-9_223_372_036_854_775_808_i64)?;
        text.put_number(0_u64)?;
        text.put_number(0_i64)?;
        Ok(text)
    }

    #[test]
    fn the_least_number_is_written(rt: HostRuntime) {
        let mut out = [b'.'; 30];
        let length = least().and_then(|text| text.copy_to(&mut out[..]));
        assert!(rt; length == Ok(24));
        assert!(rt; &out[..] == &b"x=-922337203685477580800......"[..]);
    }

    fn extremes() -> Result<TextBuffer<187>, NoRoom> {
        let mut text: TextBuffer<187> = TextBuffer::new();
        text.put_figure(b"", u8::MAX, b" ")?;
        text.put_figure(b"", u16::MAX, b" ")?;
        text.put_figure(b"", u32::MAX, b" ")?;
        text.put_figure(b"", usize::MAX, b" ")?;
        text.put_figure(b"", u128::MAX, b" ")?;
        text.put_figure(b"", 18_446_744_073_709_551_616_u128, b" ")?;
        text.put_figure(b"", i8::MIN, b" ")?;
        text.put_figure(b"", i16::MIN, b" ")?;
        text.put_figure(b"", i32::MIN, b" ")?;
        text.put_figure(b"", isize::MAX, b" ")?;
        text.put_number(i128::MIN)?;
        Ok(text)
    }

    #[test]
    fn numbers_of_any_width_are_written(rt: HostRuntime) {
        let mut out = [b'.'; 187];
        let length = extremes().and_then(|text| text.copy_to(&mut out[..]));
        assert!(rt; length == Ok(187));
        assert!(rt;
            &out[..]
                == &b"255 65535 4294967295 18446744073709551615 340282366920938463463374607431768211455 18446744073709551616 -128 -32768 -2147483648 9223372036854775807 -170141183460469231731687303715884105728"[..]
        );
    }

    #[test]
    fn what_does_not_fit_is_refused(rt: HostRuntime) {
        let mut text: TextBuffer<4> = TextBuffer::new();
        let long = text.put_number(18_446_744_073_709_551_615_u64).is_err();
        let exact = text.put_number(-999_i64).is_ok();
        let nothing = text.put(b"").is_ok();
        let one_more = text.put(b"1").is_err();
        assert!(rt; long && exact && nothing && one_more);
        assert!(rt; text.as_bytes() == &b"-999"[..]);
    }
}
