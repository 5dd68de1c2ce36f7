//! Bytes in hexadecimal, as the rows of the tests have them.
ghost use Rattle.std.specs.Prelude.{◌<◌, IfSome};

use std::alloc::{AllocError, Global};
use std::test::Fail;

/// One hexadecimal digit.
fn digit(byte: u8) -> Option<u8>
    ensures { IfSome result (λ value. value < 16) }
{
    match byte {
        b'0'..=b'9' => Some(byte - b'0'),
        b'a'..=b'f' => Some(byte - b'a' + 10),
        _ => None,
    }
}

/// The bytes of hexadecimal digits, two a byte.
fn append_digits(bytes: &mut Vec<u8>, text: &str) -> Result<(), AllocError> {
    for pair in text.as_bytes().chunks(2) {
        if let [high, low] = pair {
            bytes.push(digit(*high).unwrap_or(0) * 16 + digit(*low).unwrap_or(0))?;
        }
    }
    Ok(())
}

/// What a word stands for: the text of its name, or the word itself.
fn meaning<'a>(names: &'a [(&'a str, &'a str)], word: &'a str) -> &'a str {
    for (name, text) in names {
        if *name == word {
            return text;
        }
    }
    word
}

/// The bytes of words of hexadecimal digits and of names, some of them repeated: `17*a101` is 17 times a101.
pub(crate) fn hex<'a>(
    alloc: Global,
    names: &'a [(&'a str, &'a str)],
    text: &'a str,
) -> Result<Vec<u8>, Fail> {
    let mut bytes = Vec::new(alloc);
    for word in text.split_whitespace() {
        let (times, unit) = word.split_once('*').unwrap_or(("1", word));
        let times: u8 = times.parse()?;
        for _ in 0..times {
            for digits in meaning(names, unit).split_whitespace() {
                append_digits(&mut bytes, digits)?;
            }
        }
    }
    Ok(bytes)
}

/// Appends bytes as hexadecimal digits.
pub(crate) fn push_hex(alloc: Global, text: &mut String, bytes: &[u8]) -> Result<(), AllocError> {
    for byte in bytes {
        text.push_str(format!(in alloc; "{byte:02x}")?.as_str())?;
    }
    Ok(())
}
