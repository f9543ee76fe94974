#![tactic(auto)]

ghost use Rattle.std.specs.Prelude.{◌≡◌, ℕ, Bool, ◌+◌, ◌≤◌, ◌<◌, length, drop};
ghost use Rattle.lists.specs.Lists.{all};
ghost use Rattle.interface.specs.Refusals.{is_allowed};
ghost use Rattle.interface.specs.Sheet.{
  line_feed,
  space,
  is_upper,
  is_digit,
  cut,
  is_name,
  is_numeral,
  half_text,
  is_lone_minus,
  same_bytes,
};
ghost use Rattle.interface.specs.Calls.{piece_at, ValueCall};
ghost use Rattle.text.specs.Reading.{is_name_byte, Decides, digits, read_on, is_end, signed_read, number_at};

use answers::{Cursor, Refusal};
use pairs::{Carried, Pair};

// Digits as a number, and the place after them.
#[derive(Clone, Copy, Debug, PartialEq, Eq)]
struct Digits {
    number: u32,
    end: usize,
}

pub fn is_upper(b: u8) -> bool
    ensures { result ≡ is_upper b }
{
    (b'A' <= b) & (b <= b'Z')
}

pub fn is_digit(b: u8) -> bool
    ensures { result ≡ is_digit b }
{
    (b'0' <= b) & (b <= b'9')
}

pub fn is_name_byte(b: u8) -> bool
    ensures { result ≡ is_name_byte b }
{
    is_upper(b) | is_digit(b)
}

pub fn is_allowed(b: u8) -> bool
    ensures { result ≡ is_allowed b }
{
    is_name_byte(b) | (b == b'-') | (b == b'.') | (b == b' ') | (b == b'\n')
}

// Every byte passes the test. Without an early exit the loop becomes vector code, as in piece_count.
pub fn all_bytes<F: Fn(u8) -> bool>(s: &[u8], test: F) -> bool
    requires { F.IsAlwaysCallable test }
    ensures { (p : ℕ → Bool) → Decides (F.post test) p → result ≡ all p s.now }
{
    let mut good = true;
    for b in s {
        good = good & test(*b);
    }
    good
}

// The end of the piece that starts at from: the place of the next c, or the length.
pub fn piece_end(s: &[u8], c: u8, from: usize) -> usize
    requires { from ≤ length s.now }
    ensures { result ≡ from + length (piece_at c s.now from) }
{
    for end in from..s.len() {
        if s[end] == c {
            return end;
        }
    }
    s.len()
}

// Passes over 16 bytes of the piece that starts at from as long as none of them is c.
fn skip(s: &[u8], c: u8, from: usize) -> usize
    requires { from ≤ length s.now }
    ensures upper_bound { result ≤ length s.now }
    ensures result_value { result + length (piece_at c s.now result) ≡ from + length (piece_at c s.now from) }
{
    let mut at = from;
    for bytes in s[from..].chunks_exact(16) {
        if !all_bytes(bytes, |b| b != c) {
            return at;
        }
        at += 16;
    }
    at
}

// The end of the line that starts at from.
pub fn line_end(s: &[u8], from: usize) -> usize
    requires { from ≤ length s.now }
    ensures { result ≡ from + length (piece_at line_feed s.now from) }
{
    let at = skip(s, b'\n', from);
    piece_end(s, b'\n', at)
}

// The number of pieces between the bytes c. A count of 16 bits is enough, and the narrower the faster.
pub fn piece_count(s: &[u8], c: u8) -> usize
    requires { length s.now ≤ 12288 }
    ensures { result ≡ length (cut c s.now) }
{
    let mut n: u16 = 1;
    for b in s {
        if *b == c {
            n += 1;
        }
    }
    n as usize
}

// A name: 1 to 8 bytes, first A to Z, then A to Z or 0 to 9.
pub fn is_name(word: &[u8]) -> bool
    ensures { result ≡ is_name word.now }
{
    let size = word.len();
    if size == 0 {
        return false;
    }
    if size > 8 {
        return false;
    }
    if !is_upper(word[0]) {
        return false;
    }
    all_bytes(&word[1..], is_name_byte)
}

// The digits from a place on, at most 7, and the place after them.
fn read_digits(line: &[u8], from: usize) -> Digits
    requires { from ≤ length line.now }
    ensures { result ≡ read_on 0 from (digits 7 (drop from line.now)) }
{
    let stop = line.len().min(from + 7);
    let mut number: u32 = 0;
    for end in from..stop {
        let b = line[end];
        if !is_digit(b) {
            return Digits { number, end };
        }
        number = number * 10 + (b - b'0') as u32;
    }
    Digits { number, end: stop }
}

// No piece goes on at the place: the line ends, or a space stands there.
fn is_end(line: &[u8], at: usize) -> bool
    ensures { result ≡ is_end (drop at line.now) }
{
    if at >= line.len() {
        return true;
    }
    line[at] == b' '
}

// From a place to the end of the digits there stands a numeral: 1 to 7 digits without a leading zero, or 0.
fn is_numeral(line: &[u8], from: usize, end: usize) -> bool
    requires { (from ≤ length line.now) × (end ≡ from + length (digits 7 (drop from line.now))) }
    ensures { result ≡ is_numeral (digits 7 (drop from line.now)) }
{
    if end == from {
        return false;
    }
    (line[from] != b'0') | (end - from == 1)
}

// `.5` stands at the place, and nothing more.
fn is_half(line: &[u8], at: usize) -> bool
    requires { at ≤ length line.now }
    ensures { result ≡ same_bytes (piece_at space line.now at) half_text }
{
    line[at..].starts_with(b".5") && is_end(line, at + 2)
}

// A number of half points with its sign, and the place after it; `-0` is none.
fn signed(negative: bool, halves: u32, end: usize) -> Option<(i32, Cursor)>
    requires { halves < 20000000 }
    ensures { result ≡ signed_read negative halves end }
{
    let next = Cursor { at: end };
    if !negative {
        return Some((halves as i32, next));
    }
    if halves == 0 {
        return None;
    }
    Some((0 - halves as i32, next))
}

// The number of half points that stands at a place of a line, with the place after it: a numeral, before it an optional
// minus, behind it an optional `.5`, which is looked for last, since most values have none. That the line goes on
// behind the minus is tested first: a value then takes 5 instructions less.
fn read_number(line: &[u8], at: usize) -> Option<(i32, Cursor)>
    ensures { result ≡ number_at line.now at }
{
    if at >= line.len() {
        return None;
    }
    let negative = line[at] == b'-';
    let from = at + negative as usize;
    if from >= line.len() {
        return None;
    }
    let digits = read_digits(line, from);
    let number = digits.number;
    let end = digits.end;
    if !is_numeral(line, from, end) {
        return None;
    }
    if is_end(line, end) {
        return signed(negative, number * 2, end);
    }
    if is_half(line, end) {
        return signed(negative, number * 2 + 1, end + 2);
    }
    None
}

// A lone minus stands at the place: the mark.
fn is_lone_minus(line: &[u8], at: usize) -> bool
    ensures { result ≡ is_lone_minus (piece_at space line.now at) }
{
    at < line.len() && line[at] == b'-' && is_end(line, at + 1)
}

// The pair that stands at a place of a line, with the place after it: a number, or the mark, which is looked for last,
// so that a number takes no more time.
pub fn read_value(line: &[u8], at: usize) -> Result<(Pair, Cursor), Refusal>
    ensures { ValueCall line.now at result }
{
    if let Some((number, next)) = read_number(line, at) {
        return Ok((
            Pair {
                carries: Carried::Scored(number),
            },
            next,
        ));
    }
    if is_lone_minus(line, at) {
        return Ok((
            Pair {
                carries: Carried::Unscored,
            },
            Cursor { at: at + 1 },
        ));
    }
    Err(Refusal::WrongValues)
}
