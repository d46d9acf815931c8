//! Worked words: numbers, names, ports and lines.

use std::test::Fail;
use text_words::{Lines, Words, is_name, number_in, port_in};

#[test]
fn numbers_are_decimal_or_hexadecimal_under_128_bits(rt: HostRuntime) {
    let numbers: [(&[u8], Option<u128>); 16] = [
        (b"0", Some(0)),
        (b"007", Some(7)),
        (b"0x0", Some(0)),
        (b"0xdeadBEEF", Some(3735928559)),
        (b"18446744073709551616", Some(18446744073709551616)),
        (b"340282366920938463463374607431768211455", Some(u128::MAX)),
        (b"0x00ffffffffffffffffffffffffffffffff", Some(u128::MAX)),
        (b"340282366920938463463374607431768211456", None),
        (b"0x100000000000000000000000000000000", None),
        (b"", None),
        (b"0x", None),
        (b"0X1", None),
        (b"x1", None),
        (b"1f", None),
        (b"-1", None),
        (b"1_000", None),
    ];
    for (word, number) in numbers {
        assert!(rt; number_in(word) == number, "{word:?}");
    }
}

#[test]
fn names_have_1_to_32_bytes_of_their_kind(rt: HostRuntime) {
    let names: [(&[u8], bool); 7] = [
        (b"a", true),
        (b"leaf-1_0.z9", true),
        (b"12345678901234567890123456789012", true),
        (b"123456789012345678901234567890123", false),
        (b"", false),
        (b"a b", false),
        (b"a/b", false),
    ];
    for (word, right) in names {
        assert!(rt; is_name(word) == right, "{word:?}");
    }
}

#[test]
fn a_port_is_a_name_a_slash_and_a_number(rt: HostRuntime) -> Result<(), Fail> {
    let port = port_in(b"h0/0x10").ok_or("a port")?;
    assert!(rt; port.name == b"h0".as_slice());
    assert!(rt; port.number == 16);
    for word in [b"h0/".as_slice(), b"/1", b"h0", b"h0/1/1", b"h0/-1", b""] {
        assert!(rt; port_in(word).is_none(), "{word:?}");
    }
    Ok(())
}

#[test]
fn a_line_feed_inside_a_line_is_a_bad_character(rt: HostRuntime) {
    let lines: [(&[u8], bool); 9] = [
        (b"send h1/1 5\n", false),
        (b"send h1/1 5\r\n", false),
        (b"send # \r \0 \xff\n", false),
        (b"send\r# 1", false),
        (b"send h1/1\r", true),
        (b"send\nh1/1\n", true),
        (b"send # one\ntwo\n", true),
        (b"\n\n", true),
        (b"se\x7fnd\n", true),
    ];
    for (line, bad) in lines {
        assert!(rt; Words::of(line).is_none() == bad, "{line:?}");
    }
}

#[test]
fn a_text_is_cut_into_lines_and_these_into_words(rt: HostRuntime) -> Result<(), Fail> {
    let wanted: [(&[u8], usize); 4] = [(b"a  b\n", 2), (b"\n", 0), (b"\tc # d\r\n", 1), (b"e", 1)];
    let mut lines = Lines::new(b"a  b\n\n\tc # d\r\ne");
    for (line, count) in wanted {
        let next = lines.next().ok_or("a line")?;
        assert!(rt; next == line);
        let words = Words::of(next).ok_or("words")?;
        assert!(rt; words.count() == count, "{line:?}");
    }
    assert!(rt; lines.next().is_none());
    Ok(())
}
