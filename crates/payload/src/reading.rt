// A line and what it asks for.
ghost use Rattle.std.specs.Prelude.{◌≡◌, ◌^◌, ◌<◌, IfOk};
ghost use Rattle.std.specs.NonZero.{non_zero_u64_get};
ghost use Rattle.std.specs.Option.{option_map};
ghost use Rattle.std.specs.Result.{OkIff};
ghost use Rattle.std.specs.Str.Parse.{IsNumeral, digits_value};
ghost use Rattle.payload.specs.Asked.{flag_word, kind_word, page_asked};

use crate::command::{Change, Command, Kind, Line, Row, Rows, Shape};
use crate::line_fault::LineFault;
use crate::strings::{payload_of, unescaped};
use std::alloc::{AllocError, Global};
use std::num::NonZeroU64;
use std::str::FromStr;

// A number in base ten: digits only, and below 2^64.
fn number(word: &str) -> Result<u64, LineFault>
    ensures { OkIff result (IsNumeral 10 word.now × (digits_value 10 word.now < 2 ^ 64)) (digits_value 10 word.now) }
{
    if word.starts_with('+') {
        return Err(LineFault::Unknown);
    }
    word.parse::<u64>().map_err(|_| LineFault::Unknown)
}

// A number that is a byte.
fn small_number(word: &str) -> Result<u8, LineFault>
    ensures { IfOk result (λ n. n ≡ digits_value 10 word.now) }
{
    u8::try_from(number(word)?).map_err(|_| LineFault::Unknown)
}

// A page, where 0 is none.
fn page(word: &str) -> Result<Option<NonZeroU64>, LineFault>
    ensures { IfOk result (λ page. option_map non_zero_u64_get page ≡ page_asked (digits_value 10 word.now)) }
{
    Ok(NonZeroU64::new(number(word)?))
}

// Whether a number that is 0 or 1 is 1.
// Kept: bool's own FromStr reads true and false, and a match of two words is plainest.
fn flag(word: &str) -> Result<bool, LineFault>
    ensures { IfOk result (λ b. word.now ≡ flag_word b) }
{
    match word {
        "0" => Ok(false),
        "1" => Ok(true),
        _ => Err(LineFault::Unknown),
    }
}

impl FromStr for Kind {
    type Err = LineFault;

    ghost from_str_gives = { λ word r. IfOk r (λ k. word ≡ kind_word k) };

    fn from_str(word: &str) -> Result<Kind, LineFault> {
        match word {
            "counter" => Ok(Kind::Counter),
            "free" => Ok(Kind::Free),
            "meta" => Ok(Kind::Meta),
            "link" => Ok(Kind::Link),
            "node" => Ok(Kind::Node),
            _ => Err(LineFault::Unknown),
        }
    }
}

// The row of a word, whose key and value an = parts.
fn row<V, F: Fn(&str) -> Result<V, LineFault>>(
    heap: Global,
    word: &str,
    value_of: F,
) -> Result<Row<V>, LineFault>
    requires { F.IsAlwaysCallable value_of }
{
    let (key, value) = word.split_once('=').ok_or(LineFault::Unknown)?;
    Ok(Row {
        key: unescaped(heap, key)?,
        value: value_of(value)?,
    })
}

// The rows behind the word that says of which kind they are.
fn rows(heap: Global, words: &[&str]) -> Result<Rows, LineFault> {
    match words {
        ["leaf", rows @ ..] => rows
            .iter()
            .map(|word| row(heap, word, |value| unescaped(heap, value)))
            .try_collect(heap)
            .map(Rows::Leaf),
        ["index", rows @ ..] => rows
            .iter()
            .map(|word| row(heap, word, number))
            .try_collect(heap)
            .map(Rows::Index),
        _ => Err(LineFault::Unknown),
    }
}

// A node with no bounds and no neighbours.
fn plain_shape(heap: Global, rows: Rows) -> Shape {
    Shape {
        prefix_len: 0,
        next: None,
        child: None,
        merging: false,
        lo: Vec::new(heap),
        hi: Vec::new(heap),
        rows,
    }
}

// A node in full, behind the word node.
fn full_shape(heap: Global, words: &[&str]) -> Result<Shape, LineFault> {
    let [prefix_len, next, child, merging, lo, hi, data @ ..] = words else {
        return Err(LineFault::Unknown);
    };
    Ok(Shape {
        prefix_len: small_number(prefix_len)?,
        next: page(next)?,
        child: page(child)?,
        merging: flag(merging)?,
        lo: unescaped(heap, lo)?,
        hi: unescaped(heap, hi)?,
        rows: rows(heap, data)?,
    })
}

// The command of a line's words.
fn command_of(heap: Global, words: &[&str]) -> Result<Command, LineFault> {
    let command = match words {
        ["set", key, value] => {
            Command::Link(Change::Set(unescaped(heap, key)?, unescaped(heap, value)?))
        }
        ["del", key] => Command::Link(Change::Del(unescaped(heap, key)?)),
        ["intend", page] => Command::Link(Change::Intend(number(page)?)),
        ["confirm"] => Command::Link(Change::Confirm),
        ["cap"] => Command::Link(Change::Cap),
        ["node", shape @ ..] => Command::Node(full_shape(heap, shape)?),
        ["leaf", ..] | ["index", ..] => Command::Node(plain_shape(heap, rows(heap, words)?)),
        ["split", at, page] => Command::Split(unescaped(heap, at)?, number(page)?),
        ["counter", value] => Command::Counter(number(value)?),
        ["root", name] => Command::Root(unescaped(heap, name)?),
        ["setroot", name, page] => Command::SetRoot(unescaped(heap, name)?, number(page)?),
        ["delroot", name] => Command::DelRoot(unescaped(heap, name)?),
        ["read", kind, payload @ ..] => Command::Read(kind.parse()?, payload_of(heap, payload)?),
        _ => return Err(LineFault::Unknown),
    };
    Ok(command)
}

// The words of a line, which spaces part.
fn words_of(heap: Global, line: &str) -> Result<Vec<&str>, AllocError> {
    line.split(' ')
        .filter(|word| !word.is_empty())
        .collect(heap)
}

pub fn line_of(heap: Global, text: &str) -> Result<Line, LineFault> {
    if text.starts_with('#') {
        return Ok(Line::Comment);
    }
    let words = words_of(heap, text)?;
    if words.is_empty() {
        return Ok(Line::Blank);
    }
    Ok(Line::Command(command_of(heap, words.as_slice())?))
}
