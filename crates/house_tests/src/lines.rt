//! Lines, words and numbers.
use line_words::{Line, Lines, NumberFault, Refusal1, Why, decimal, plain_whole, put_whole, whole};
use std::alloc::{AllocError, Global};
use std::test::Fail;

#[test]
fn numbers(rt: HostRuntime) -> Result<(), Fail> {
    assert!(rt; whole("9223372036854775807") == Ok(9223372036854775807));
    assert!(rt; whole("9223372036854775808") == Err(NumberFault::TooBig));
    assert!(rt; whole("99999999999999999999999999") == Err(NumberFault::TooBig));
    assert!(rt; whole("007") == Ok(7));
    assert!(rt; whole("") == Err(NumberFault::BadNumber));
    assert!(rt; whole("+7") == Err(NumberFault::BadNumber));
    assert!(rt; plain_whole("0") == Ok(0));
    assert!(rt; plain_whole("007") == Err(NumberFault::BadNumber));
    for (word, value) in [
        ("1.5", Ok(1_500_000_000_000)),
        ("+1.5e3", Ok(1_500_000_000_000_000)),
        ("1.", Ok(1_000_000_000_000)),
        (".5", Ok(500_000_000_000)),
        ("1e-999999", Ok(0)),
        ("-1e-13", Ok(0)),
        ("-1.0000000000009", Ok(-1_000_000_000_000)),
        ("1.23457e-05", Ok(12_345_700)),
        (
            "999999999999999.9999999999999",
            Ok(999_999_999_999_999_999_999_999_999),
        ),
        ("1e15", Err(NumberFault::TooBig)),
        ("-1e15", Err(NumberFault::TooBig)),
        (
            "1e99999999999999999999999999999999999999999",
            Err(NumberFault::TooBig),
        ),
        ("0e99999999999999999999999999999999999999999", Ok(0)),
        (".", Err(NumberFault::BadNumber)),
        ("e5", Err(NumberFault::BadNumber)),
        ("1e", Err(NumberFault::BadNumber)),
        ("--1", Err(NumberFault::BadNumber)),
        ("1.2.3", Err(NumberFault::BadNumber)),
    ] {
        assert!(rt; decimal(word) == value, "{}", word);
    }
    Ok(())
}

/// A line with this number, whose words have these texts and spans.
fn is_line(
    found: Option<Result<Line, Refusal1>>,
    number: u64,
    want: &[(&str, usize, usize)],
) -> bool {
    let Some(Ok(line)) = found else {
        return false;
    };
    let mut words = line.words();
    for (text, start, end) in want {
        match words.next() {
            Some(word) if word.text == *text && word.start == *start && word.end == *end => {}
            _ => return false,
        }
    }
    words.next().is_none() && line.number() == number
}

fn is_refused(found: Option<Result<Line, Refusal1>>, line: u64, why: Why) -> bool {
    match found {
        Some(Err(refusal)) => refusal.line == line && refusal.why == why,
        _ => false,
    }
}

#[test]
fn lines_and_words(rt: HostRuntime) {
    let mut lines = Lines::new(b"\r\n# any \x00 byte\n\ta  bc#\x00\r\nd");
    assert!(rt; is_line(lines.next(), 3, &[("a", 1, 2), ("bc", 4, 6)]));
    assert!(rt; is_line(lines.next(), 4, &[("d", 0, 1)]));
    assert!(rt; lines.next().is_none());
    assert!(rt; lines.end_line() == 5);
}

/// An empty line, and then a line that begins so and goes on with `len` times an `a`.
fn long_line(alloc: Global, begin: &[u8], len: usize) -> Result<Vec<u8>, AllocError> {
    let mut bytes = Vec::from_slice(alloc, b"\n")?;
    bytes.extend_from_slice(begin)?;
    for _ in 0..len {
        bytes.push(b'a')?;
    }
    Ok(bytes)
}

#[test]
fn refused_lines(rt: HostRuntime) -> Result<(), Fail> {
    let mut bytes = long_line(rt.alloc(), b"#", 65534)?;
    bytes.extend_from_slice(b"\r\nb")?;
    assert!(rt; is_line(Lines::new(&bytes).next(), 3, &[("b", 0, 1)]));

    let mut bytes = long_line(rt.alloc(), b"#", 65535)?;
    bytes.extend_from_slice(b"\r\nb")?;
    let mut lines = Lines::new(&bytes);
    assert!(rt; is_refused(lines.next(), 2, Why::LongLine));
    assert!(rt; is_refused(lines.next(), 2, Why::LongLine));
    assert!(rt; lines.end_line() == 4);

    let mut bytes = long_line(rt.alloc(), b"b", 65536)?;
    assert!(rt; is_refused(Lines::new(&bytes).next(), 2, Why::LongLine));
    bytes.push(127)?;
    assert!(rt; is_refused(Lines::new(&bytes).next(), 2, Why::BadByte));
    Ok(())
}

#[test]
fn printed(rt: HostRuntime) -> Result<(), Fail> {
    let mut out = Vec::from_slice(rt.alloc(), b"a ")?;
    put_whole(rt.alloc(), &mut out, 0)?;
    put_whole(rt.alloc(), &mut out, 18446744073709551615)?;
    assert!(rt; out.as_slice() == b"a 018446744073709551615".as_slice());
    Ok(())
}
