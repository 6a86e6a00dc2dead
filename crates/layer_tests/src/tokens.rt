//! Tokens as they are read and written, ints and bools, and texts as keys.

use std::collections::{BTreeMap, HashMap};
use std::test::Fail;
use token_text::{
    Text, TokenFault, copy_text, push_token, read_bool, read_int, read_token, token_bytes,
};

#[test]
fn reads_tokens(rt: HostRuntime) -> Result<(), Fail> {
    // a line, the place from which it is read, and the next token: its start, its end and its bytes
    let readings: [(&[u8], usize, usize, usize, &[u8]); 28] = [
        // plain tokens
        (b"abc", 0, 0, 3, b"abc"),
        (b"ab cd", 1, 1, 2, b"b"),
        (b"ab cd", 2, 3, 5, b"cd"),
        (b"\t\x0b\x0c\r a b", 0, 5, 6, b"a"),
        (b"a\x0bb", 0, 0, 1, b"a"),
        (b"a\\nb", 0, 0, 4, b"a\\nb"),
        (b"a\"b\" c", 0, 0, 4, b"a\"b\""),
        (b"\\\"x", 0, 0, 3, b"\\\"x"),
        (b"\\q \"", 0, 0, 2, b"\\q"),
        (b"#x @y", 0, 0, 2, b"#x"),
        (b"#x @y", 2, 3, 5, b"@y"),
        (b"a\x00\x7f\x80\xffb", 0, 0, 6, b"a\x00\x7f\x80\xffb"),
        // quoted tokens
        (b"\"\"", 0, 0, 2, b""),
        (b" \"a b\"", 0, 1, 6, b"a b"),
        (b"\"#\t@\"", 0, 0, 5, b"#\t@"),
        (b"\"\x80\xc8\xff\"", 0, 0, 5, b"\x80\xc8\xff"),
        (b"\"a\"\"b\"c", 0, 0, 3, b"a"),
        (b"\"a\"\"b\"c", 3, 3, 6, b"b"),
        (b"\"a\"\"b\"c", 6, 6, 7, b"c"),
        // escapes: bytes that stand for themselves, and letters
        (br#""\\\"\'\?""#, 0, 0, 10, b"\\\"'?"),
        (
            br#""\a\b\t\n\v\f\r""#,
            0,
            0,
            16,
            b"\x07\x08\x09\x0a\x0b\x0c\x0d",
        ),
        // escapes: one or two hexadecimal digits
        (br#""\x4""#, 0, 0, 5, b"\x04"),
        (br#""\x4a\x4A\xfF\xB09""#, 0, 0, 19, b"\x4a\x4a\xff\xb09"),
        (br#""\x4g""#, 0, 0, 6, b"\x04g"),
        (br#""\xc \xE~""#, 0, 0, 10, b"\x0c \x0e~"),
        // escapes: one to three octal digits
        (br#""\7\18""#, 0, 0, 7, b"\x07\x018"),
        (br#""\12\779""#, 0, 0, 9, b"\x0a\x3f9"),
        (br#""\101\3777\000""#, 0, 0, 15, b"A\xff7\x00"),
    ];
    for (line, at, start, end, bytes) in readings {
        assert!(rt; at <= line.len());
        let read = read_token(rt.alloc(), line, at)?;
        let token = read.ok_or("no token")?;
        assert_eq!(rt; token.start, start, "at {line:?}");
        assert_eq!(rt; token.end, end, "at {line:?}");
        assert_eq!(rt; token.bytes.as_bytes(), bytes, "at {line:?}");
    }
    // the bytes from 128 on, plain and in quotes
    for byte in 128..=255 {
        let line = [byte, b' ', b'"', byte, b'"'];
        for at in 0..2 {
            let read = read_token(rt.alloc(), &line, at)?;
            let token = read.ok_or("no token")?;
            assert_eq!(rt; token.bytes.as_bytes(), [byte].as_slice());
        }
    }
    Ok(())
}

#[test]
fn refuses_tokens(rt: HostRuntime) -> Result<(), Fail> {
    for (line, at) in [
        (b"".as_slice(), 0),
        (b" \t\x0b\x0c\r", 0),
        (b"ab ", 2),
        (b"\"a\"", 3),
    ] {
        assert!(rt; at <= line.len());
        assert!(rt; read_token(rt.alloc(), line, at)?.is_none(), "at {line:?}");
    }
    let faults: [(&[u8], usize, TokenFault); 21] = [
        // a bad escape
        (br#""\x""#, 0, TokenFault::BadEscape(1)),
        (br#""\xg""#, 0, TokenFault::BadEscape(1)),
        (br#""\x"#, 0, TokenFault::BadEscape(1)),
        (br#""\X41""#, 0, TokenFault::BadEscape(1)),
        (br#""\400""#, 0, TokenFault::BadEscape(1)),
        (br#""a\777""#, 0, TokenFault::BadEscape(2)),
        (br#""\8""#, 0, TokenFault::BadEscape(1)),
        (br#""\A""#, 0, TokenFault::BadEscape(1)),
        (br#""\e""#, 0, TokenFault::BadEscape(1)),
        (br#""\ ""#, 0, TokenFault::BadEscape(1)),
        (b"\"\\\x80\"", 0, TokenFault::BadEscape(1)),
        (br#""a\"#, 0, TokenFault::BadEscape(2)),
        (br#""\q\w""#, 0, TokenFault::BadEscape(1)),
        (br#"a "b\9"#, 1, TokenFault::BadEscape(4)),
        // no closing quote behind it either
        (br#""ab\qc"#, 0, TokenFault::BadEscape(3)),
        // no closing quote
        (br#"""#, 0, TokenFault::OpenQuote(0)),
        (br#""abc d"#, 0, TokenFault::OpenQuote(0)),
        (br#" x "ab"#, 2, TokenFault::OpenQuote(3)),
        (br#""a\""#, 0, TokenFault::OpenQuote(0)),
        (br#""\37"#, 0, TokenFault::OpenQuote(0)),
        (br#""a"b""#, 4, TokenFault::OpenQuote(4)),
    ];
    for (line, at, fault) in faults {
        assert!(rt; at <= line.len());
        let read = read_token(rt.alloc(), line, at);
        assert!(rt; read.is_err(), "at {line:?}");
        assert_eq!(rt; read.err(), Some(fault), "at {line:?}");
    }
    Ok(())
}

#[test]
fn writes_tokens(rt: HostRuntime) -> Result<(), Fail> {
    let spellings: [(&[u8], &[u8]); 20] = [
        // plain
        (b"abc", b"abc"),
        (b"-", b"-"),
        (b"x#@", b"x#@"),
        (b"!'?~", b"!'?~"),
        (b"\x80\xa0\xff", b"\x80\xa0\xff"),
        // in quotes
        (b"", br#""""#),
        (b"#x", br##""#x""##),
        (b"@", br#""@""#),
        (b"a b", br#""a b""#),
        (b" ", br#"" ""#),
        (b"say \"hi\"", br#""say \"hi\"""#),
        (b"a\"", br#""a\"""#),
        (b"\\", br#""\\""#),
        (b"\x07\x08\x09\x0a\x0b\x0c\x0d", br#""\a\b\t\n\v\f\r""#),
        (b"\x00", br#""\000""#),
        (b"\x01\x06\x0e\x1b", br#""\001\006\016\033""#),
        (b"\x1f7", br#""\0377""#),
        (b"\x7f", br#""\177""#),
        (b"a\x7f'?#", br#""a\177'?#""#),
        (b"\x80 ", b"\"\x80 \""),
    ];
    for (bytes, spelling) in spellings {
        let written = token_bytes(rt.alloc(), bytes)?;
        assert_eq!(rt; written.as_bytes(), spelling, "at {bytes:?}");
        let mut out = Vec::from_slice(rt.alloc(), b"get ")?;
        push_token(&mut out, bytes)?;
        assert_eq!(rt;
            out.as_slice().strip_prefix(b"get "),
            Some(spelling),
            "at {bytes:?}"
        );
    }
    Ok(())
}

#[test]
fn reads_ints_and_bools(rt: HostRuntime) {
    let ints: [(&[u8], Option<i64>); 26] = [
        (b"0", Some(0)),
        (b"+5", Some(5)),
        (b"-0", Some(0)),
        (b"+0", Some(0)),
        (b"007", Some(7)),
        (b"-007", Some(-7)),
        (b"00000000000000000000000000012", Some(12)),
        (b"9223372036854775807", Some(9_223_372_036_854_775_807)),
        (b"-9223372036854775808", Some(i64::MIN)),
        (b"9223372036854775808", None),
        (b"-9223372036854775809", None),
        (b"18446744073709551616", None),
        (b"", None),
        (b"+", None),
        (b"-", None),
        (b"+-1", None),
        (b"--1", None),
        (b"-+1", None),
        (b"1a", None),
        (b" 1", None),
        (b"1 ", None),
        (b"1_000", None),
        (b"0x1", None),
        (b"1.0", None),
        (b"1\xff", None),
        (b"\xd9\xa1", None),
    ];
    for (bytes, value) in ints {
        assert_eq!(rt; read_int(bytes), value, "at {bytes:?}");
    }
    let bools: [(&[u8], Option<bool>); 12] = [
        (b"0", Some(false)),
        (b"false", Some(false)),
        (b"1", Some(true)),
        (b"true", Some(true)),
        (b"", None),
        (b"True", None),
        (b"FALSE", None),
        (b"2", None),
        (b"00", None),
        (b"+1", None),
        (b"true ", None),
        (b"yes", None),
    ];
    for (bytes, value) in bools {
        assert_eq!(rt; read_bool(bytes), value, "at {bytes:?}");
    }
}

// Maps find a text and order it by its bytes. With ample memory each call succeeds.
#[test]
fn keeps_texts(rt: HostRuntime) -> Result<(), Fail> {
    let mut places = HashMap::new(rt.alloc());
    let mut ordered = BTreeMap::new(rt.alloc());
    places.insert(Text::new(rt.alloc()), 0)?;
    ordered.insert(Text::new(rt.alloc()), 0)?;
    let texts: [&[u8]; 6] = [b"b", b"ab", b"\x80", b"a", b"\xff", b"a\x00"];
    for (i, bytes) in texts.into_iter().enumerate() {
        places.insert(copy_text(rt.alloc(), bytes)?, i + 1)?;
        ordered.insert(copy_text(rt.alloc(), bytes)?, i + 1)?;
    }
    let again = places.insert(copy_text(rt.alloc(), b"ab")?, 9)?;
    assert_eq!(rt; again, Some(2));
    assert_eq!(rt; places.len(), 7);
    assert_eq!(rt; places.get(&copy_text(rt.alloc(), b"\x80")?), Some(&3));
    assert_eq!(rt; places.get(&copy_text(rt.alloc(), b"A")?), None);
    assert_eq!(rt; places.get(&Text::new(rt.alloc())), Some(&0));
    let mut order = Vec::new(rt.alloc());
    for place in ordered.values() {
        order.push(*place)?;
    }
    assert_eq!(rt; order.as_slice(), [0, 4, 6, 2, 1, 3, 5].as_slice());
    assert!(rt; copy_text(rt.alloc(), b"a")? == copy_text(rt.alloc(), b"a")?);
    assert!(rt; copy_text(rt.alloc(), b"a")? != copy_text(rt.alloc(), b"b")?);
    Ok(())
}
