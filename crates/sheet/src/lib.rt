#![tactic(auto)]

ghost use Rattle.std.specs.Prelude.{◌≡◌, [], ◌∷◌, ◌≤◌, ◌<◌, length, MatchOption};
ghost use Rattle.lists.specs.Lists.{all};
ghost use Rattle.interface.specs.Sheet.{space, cut, is_name, entries, is_among, has_equal};
ghost use Rattle.interface.specs.Refusals.{wrong_length, wrong_byte, wrong_names, equal_names, wrong_lines};

// Check 2.
pub fn wrong_length(sheet: &[u8]) -> bool
    ensures { result ≡ wrong_length sheet.now }
{
    if sheet.len() == 0 {
        return true;
    }
    sheet.len() > 12288
}

// Check 3.
pub fn wrong_byte(sheet: &[u8]) -> bool
    ensures { result ≡ wrong_byte sheet.now }
{
    !text::all_bytes(sheet, text::is_allowed)
}

// Every piece of the line is a name.
fn are_names(line: &[u8]) -> bool
    ensures { result ≡ all is_name (cut space line.now) }
{
    line.split(|b| *b == b' ').all(|word| text::is_name(word))
}

// Check 4.
pub fn wrong_names(sheet: &[u8]) -> bool
    ensures { result ≡ wrong_names sheet.now }
{
    let end = text::line_end(sheet, 0);
    if end >= sheet.len() {
        return true;
    }
    !are_names(&sheet[..end])
}

// The word equals a piece of the line.
fn is_among(word: &[u8], line: &[u8]) -> bool
    ensures { result ≡ is_among word.now (cut space line.now) }
{
    line.split(|b| *b == b' ').any(|piece| word == piece)
}

// The first piece of the line and what follows the space behind it, or no space stands in the line.
fn split_once(line: &[u8]) -> Option<(&[u8], &[u8])>
    ensures { MatchOption result
        (cut space line.now ≡ line.now ∷ [])
        (λ r. (cut space line.now ≡ r.0.now ∷ cut space r.1.now) × (length r.1.now < length line.now)) }
{
    let end = text::piece_end(line, b' ', 0);
    if end >= line.len() {
        return None;
    }
    Some((&line[..end], &line[end + 1..]))
}

// Two pieces of the line are equal.
fn has_equal(line: &[u8]) -> bool
    ensures { result ≡ has_equal (cut space line.now) }
{
    let mut rest = line;
    while let Some((word, others)) = split_once(rest) {
        if is_among(word, others) {
            return true;
        }
        rest = others;
    }
    false
}

// Check 5.
pub fn equal_names(sheet: &[u8]) -> bool
    ensures { result ≡ equal_names sheet.now }
{
    let end = text::line_end(sheet, 0);
    has_equal(&sheet[..end])
}

// The number of names.
pub fn entry_count(sheet: &[u8]) -> usize
    requires { length sheet.now ≤ 12288 }
    ensures { result ≡ entries sheet.now }
{
    let end = text::line_end(sheet, 0);
    text::piece_count(&sheet[..end], b' ')
}

// Check 7.
pub fn wrong_lines(sheet: &[u8], n: usize) -> bool
    requires { (0 < length sheet.now) × (length sheet.now ≤ 12288) × (n ≡ entries sheet.now) × (n ≤ 32) }
    ensures { result ≡ wrong_lines sheet.now }
{
    if text::piece_count(sheet, b'\n') != n + 2 {
        return true;
    }
    let last = sheet.len() - 1;
    sheet[last] != b'\n'
}
