// Bytes and strings as the lines write them.
ghost use Rattle.std.specs.Prelude.{◌≡◌, ◌<◌, length, IfSome, Some, None, MatchOption};
ghost use Rattle.payload.specs.Faults.{Finds};
ghost use Rattle.payload.specs.Spelling.{hex_value, hex_byte, hex_digit, hex_digits, hex_word, hex_words, texts, before, is_plain, spelled, string_of};

use crate::line_fault::LineFault;
use std::alloc::Global;
use std::fmt;

// The value of a digit of base sixteen.
fn hex_value(digit: u8) -> Option<u8>
    ensures value { result ≡ hex_value digit }
    ensures bound { IfSome result (λ v. v < 16) }
{
    (digit as char).to_digit(16).map(|value| value as u8)
}

// The byte that two digits of base sixteen make.
fn hex_byte(high: u8, low: u8) -> Option<u8>
    ensures { result ≡ hex_byte high low }
{
    let high = hex_value(high)?;
    let low = hex_value(low)?;
    Some(16 * high + low)
}

// The byte of a word of two digits.
fn hex_word(word: &str) -> Option<u8>
    ensures { result ≡ hex_word word.now }
{
    match word.as_bytes() {
        [high, low] => hex_byte(*high, *low),
        _ => None,
    }
}

// The bytes of words of two digits each.
pub fn payload_of(heap: Global, words: &[&str]) -> Result<Vec<u8>, LineFault>
    ensures { Finds (hex_words (texts words.now)) result }
{
    // Kept: `try_collect` does not say that a word which is none is what it fails for.
    let mut bytes = Vec::new(heap);
    for word in words {
        bytes.push(hex_word(word).ok_or(LineFault::Unknown)?)?;
    }
    Ok(bytes)
}

// Whether a byte stands for itself: it is printable, and no space, % or =.
fn is_plain(byte: u8) -> bool
    ensures { result ≡ is_plain byte }
{
    byte.is_ascii_graphic() && byte != b'%' && byte != b'='
}

// The byte that a text begins with, and the text behind it.
fn first_byte(text: &[u8]) -> Option<(u8, &[u8])>
    ensures first { MatchOption result (0 < length text.now → spelled text.now ≡ None) (λ p. spelled text.now ≡ before (Some p.0) (spelled p.1.now)) }
    ensures shorter { IfSome result (λ p. length p.1.now < length text.now) }
{
    match text {
        [b'%', high, low, rest @ ..] => Some((hex_byte(*high, *low)?, rest)),
        [byte, rest @ ..] if is_plain(*byte) => Some((*byte, rest)),
        _ => None,
    }
}

// The bytes that a text stands for.
fn decoded(heap: Global, text: &[u8]) -> Result<Vec<u8>, LineFault>
    ensures { Finds (spelled text.now) result }
{
    let mut bytes = Vec::new(heap);
    let mut rest = text;
    // Kept: a step takes one byte or three and may be refused, so it is no item of a for.
    while !rest.is_empty() {
        let (byte, more) = first_byte(rest).ok_or(LineFault::Unknown)?;
        bytes.push(byte)?;
        rest = more;
    }
    Ok(bytes)
}

// The string of a word: % and two digits stand for a byte, a plain byte for itself, and a lone % for the empty string.
pub fn unescaped(heap: Global, word: &str) -> Result<Vec<u8>, LineFault>
    ensures { Finds (string_of word.now) result }
{
    match word {
        "" => Err(LineFault::Unknown),
        "%" => Ok(Vec::new(heap)),
        _ => decoded(heap, word.as_bytes()),
    }
}

// The digit of a value below sixteen.
fn hex_digit(value: u8) -> char
    requires { value < 16 }
    ensures { result ≡ hex_digit value }
{
    let digit = if value < 10 {
        b'0' + value
    } else {
        b'A' + (value - 10)
    };
    digit as char
}

// The two digits of a byte, which make it again.
#[derive(Clone, Copy)]
struct Digits(u8);

impl fmt::Display for Digits {
    ghost output = { λ digits. Some (hex_digits digits.0) };

    // Kept: digit by digit, since with `{byte:02X}` a run that prints much takes a third longer.
    fn fmt<W: fmt::Write>(&self, f: &mut fmt::Formatter<W>) -> fmt::Result {
        let Digits(byte) = *self;
        let (high, low) = (hex_digit(byte / 16), hex_digit(byte % 16));
        write!(f, "{high}{low}")
    }
}

// Bytes, two digits each; a dash where there are none.
#[derive(Clone, Copy)]
pub struct Hex<'a>(pub &'a [u8]);

impl fmt::Display for Hex<'_> {
    fn fmt<W: fmt::Write>(&self, f: &mut fmt::Formatter<W>) -> fmt::Result {
        let [first, rest @ ..] = self.0 else {
            return f.write_str("-");
        };
        write!(f, "{}", Digits(*first))?;
        for byte in rest {
            write!(f, " {}", Digits(*byte))?;
        }
        Ok(())
    }
}

// A string, with escapes for the bytes that do not stand for themselves.
#[derive(Clone, Copy)]
pub struct Escaped<'a>(pub &'a [u8]);

impl fmt::Display for Escaped<'_> {
    fn fmt<W: fmt::Write>(&self, f: &mut fmt::Formatter<W>) -> fmt::Result {
        if self.0.is_empty() {
            return f.write_str("%");
        }
        for byte in self.0 {
            if is_plain(*byte) {
                f.write_char(*byte as char)?;
            } else {
                write!(f, "%{}", Digits(*byte))?;
            }
        }
        Ok(())
    }
}
