//! Lines of a file, parts of a line, and tables of labels.

use std::alloc::{AllocError, Global};
use std::test::Fail;
use token_text::{LabelTable, Text, after_blanks, copy_text, next_line, split_once, split_word};

// The hasher of the tables multiplies the first eight bytes of a whole slice of 16 by the last eight
// xor this factor: with these last every product is 0, whatever stands first.
const FACTOR: u64 = 0x9e37_79b9_7f4a_7c15;

#[test]
fn splits_lines(rt: HostRuntime) {
    // bytes, their first line, and what follows it
    let lines: [(&[u8], &[u8], &[u8]); 5] = [
        (b"a\nb", b"a", b"b"),
        (b"a\n", b"a", b""),
        (b"a", b"a", b""),
        (b"\n\n", b"", b"\n"),
        (b"a\rb\x0c\n", b"a\rb\x0c", b""),
    ];
    for (bytes, line, after) in lines {
        assert_eq!(rt; next_line(bytes), Some((line, after)), "at {bytes:?}");
    }
    assert_eq!(rt; next_line(b""), None);
    assert_eq!(rt;
        split_once(b"u v w", b' '),
        Some((b"u".as_slice(), b"v w".as_slice()))
    );
    assert_eq!(rt; split_once(b"uvw", b' '), None);
    assert_eq!(rt; after_blanks(b" \t\x0b\x0c\ra b"), b"a b".as_slice());
    assert_eq!(rt; split_word(b"a\rb"), (b"a".as_slice(), b"\rb".as_slice()));
}

#[test]
fn keeps_labels(rt: HostRuntime) -> Result<(), Fail> {
    let mut table = LabelTable::new(rt.alloc());
    assert!(rt; table.is_empty());
    assert!(rt; table.insert(copy_text(rt.alloc(), b"a")?)?);
    assert!(rt; table.insert(copy_text(rt.alloc(), b"")?)?);
    assert!(rt; !table.insert(copy_text(rt.alloc(), b"a")?)?);
    assert_eq!(rt; table.len(), 2);
    assert_eq!(rt; table.find(&copy_text(rt.alloc(), b"")?), Some(1));
    assert_eq!(rt; table.find(&copy_text(rt.alloc(), b"b")?), None);
    assert_eq!(rt; table.label(0).as_bytes(), b"a".as_slice());
    table.remove_last();
    assert_eq!(rt; table.len(), 1);
    Ok(())
}

// A label of 16 bytes, the last eight those of the factor.
fn chosen_label(alloc: Global, number: u64) -> Result<Text, AllocError> {
    let mut bytes = [0; 16];
    bytes[..8].copy_from_slice(&number.to_le_bytes());
    bytes[8..].copy_from_slice(&FACTOR.to_le_bytes());
    copy_text(alloc, &bytes)
}

// With one hash for all of these labels the look-ups would compare billions of pairs, and not end
// in the time of a test.
#[test]
fn finds_chosen_labels_fast(rt: HostRuntime) -> Result<(), Fail> {
    let mut table = LabelTable::new(rt.alloc());
    for number in 0..80_000 {
        assert!(rt; table.insert(chosen_label(rt.alloc(), number)?)?);
    }
    for number in 0..80_000 {
        let place = table.find(&chosen_label(rt.alloc(), number)?);
        assert_eq!(rt; place, Some(number as usize));
    }
    for number in 80_000..240_000 {
        assert_eq!(rt; table.find(&chosen_label(rt.alloc(), number)?), None);
    }
    Ok(())
}

// A text of at most 22 bytes stands in its value, and a longer one doesn't.
#[test]
fn copies_texts_of_each_length(rt: HostRuntime) -> Result<(), Fail> {
    let bytes = [b'x'; 40];
    for count in 0..41 {
        let text = copy_text(rt.alloc(), &bytes[..count])?;
        let copy = text.clone()?;
        assert_eq!(rt; copy.as_bytes(), &bytes[..count]);
        assert!(rt; copy == text);
        assert_eq!(rt; copy.len(), count);
    }
    Ok(())
}
