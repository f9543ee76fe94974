#![tactic(auto)]

ghost use Rattle.std.specs.Prelude.{◌≡◌, false, not, cond, ◌++◌, map, suc, ◌+◌, ◌≤◌, ◌<◌, length, drop, OnOk};
ghost use Rattle.std.proofs.lemmas.List.Edits.{sets};
ghost use Rattle.lists.specs.Lists.{all, below};
ghost use Rattle.integers.specs.Integers.{eq_z};
ghost use Rattle.clusters.specs.PairList.{row_start, pair_list};
ghost use Rattle.answers.specs.Answers.{number_of};
ghost use Rattle.interface.specs.Sheet.{space, cut, entries, value, mirrored};
ghost use Rattle.interface.specs.Refusals.{wrong_length, wrong_byte, wrong_names, equal_names};
ghost use Rattle.interface.specs.Refusals.{wrong_count, wrong_lines, is_row, wrong_values, reader_refusal};
ghost use Rattle.interface.specs.Calls.{ReaderCall, start_of, NameCall};
ghost use Rattle.reader.specs.Square.{number_said, square, Holds};
ghost use Rattle.reader.specs.Names.{NamePart};
ghost use Rattle.reader.specs.Own.{SheetRead};

use answers::Refusal;

// Reads a line of n values into the slots from base on, or refuses it.
fn read_row(line: &[u8], n: usize, base: usize, values: &mut [i32; 1024]) -> Result<(), Refusal>
    requires { base + n ≤ 1024 }
    ensures value { number_of result ≡ cond (not (is_row n (cut space line.now))) 8 0 }
    ensures values_after { OnOk result
        (values.new ≡ sets values.old base (map number_said (cut space line.now))) }
{
    let mut at: usize = 0;
    for k in 0..n {
        let Ok((pair, next)) = text::read_value(line, at) else {
            return Err(Refusal::WrongValues);
        };
        let number = i32::from(pair);
        values[base + k] = number;
        let end = next.at;
        if end >= line.len() {
            if k + 1 < n {
                return Err(Refusal::WrongValues);
            }
            return Ok(());
        }
        at = end + 1;
    }
    Err(Refusal::WrongValues)
}

// Reads the n value lines, or refuses one.
fn read_rows(sheet: &[u8], n: usize, values: &mut [i32; 1024]) -> Result<(), Refusal>
    requires { (n ≡ entries sheet.now) × (n ≤ 32) × (wrong_lines sheet.now ≡ false) }
    ensures value { number_of result ≡ cond (wrong_values sheet.now) 8 0 }
    ensures holds { OnOk result (Holds values.new n (value sheet.now)) }
{
    let mut at = text::line_end(sheet, 0) + 1;
    for i in 0..n {
        let end = text::line_end(sheet, at);
        read_row(&sheet[at..end], n, i * 32, values)?;
        at = end + 1;
    }
    Ok(())
}

// Row i equals column i, up to the diagonal.
fn is_mirrored_row(values: &[i32; 1024], i: usize) -> bool
    requires { i < 32 }
    ensures { result
        ≡ all (λ j. eq_z (square values.now i j) (square values.now j i)) (below i) }
{
    (0..i).all(|j| values[i * 32 + j] == values[j * 32 + i])
}

// Check 9.
fn is_mirrored(values: &[i32; 1024], n: usize) -> bool
    requires { n ≤ 32 }
    ensures { result ≡ mirrored n (square values.now) }
{
    (0..n).all(|i| is_mirrored_row(values, i))
}

// Writes row i of the lower triangle to the slots from start on. By `copy_from_slice` it would ask the C library for
// memmove.
fn fill_row(pairs: &mut [i32; 528], values: &[i32; 1024], i: usize, start: usize)
    requires { (i < 32) × (start + i < 528) }
    ensures { pairs.new
        ≡ sets pairs.old start (map (square values.now i) (below (suc i))) }
{
    for j in 0..i + 1 {
        pairs[start + j] = values[i * 32 + j];
    }
}

// Writes the pair list to the first slots.
fn fill(pairs: &mut [i32; 528], values: &[i32; 1024], n: usize)
    requires { n ≤ 32 }
    ensures { pairs.new
        ≡ pair_list n (square values.now) ++ drop (row_start n) pairs.old }
{
    let mut start: usize = 0;
    for i in 0..n {
        fill_row(pairs, values, i, start);
        start += i + 1;
    }
}

// Checks 8 and 9 of a sheet that passes those before them, and, if neither refuses, the pair list in the first slots.
// In a function of its own, so that the square is cleared for such sheets alone.
fn read_values(sheet: &[u8], n: usize, pairs: &mut [i32; 528]) -> Result<usize, Refusal>
    requires names { (wrong_length sheet.now ≡ false) × (wrong_byte sheet.now ≡ false)
        × (wrong_names sheet.now ≡ false) × (equal_names sheet.now ≡ false) }
    requires rows { (n ≡ entries sheet.now) × (wrong_count n ≡ false) × (wrong_lines sheet.now ≡ false) }
    ensures { ReaderCall sheet.now pairs.old result pairs.new }
{
    let mut values = [0i32; 1024];
    read_rows(sheet, n, &mut values)?;
    if !is_mirrored(&values, n) {
        return Err(Refusal::NotMirrored);
    }
    fill(pairs, &values, n);
    Ok(n)
}

// Checks 2 to 9, one after the other, and, if none refuses, the number of entries, and the pair list in the first
// slots: for sheets that were not accepted in one pass.
pub fn read_checked(sheet: &[u8], pairs: &mut [i32; 528]) -> Result<usize, Refusal>
    ensures { ReaderCall sheet.now pairs.old result pairs.new }
{
    if sheet::wrong_length(sheet) {
        return Err(Refusal::WrongLength);
    }
    if sheet::wrong_byte(sheet) {
        return Err(Refusal::WrongByte);
    }
    if sheet::wrong_names(sheet) {
        return Err(Refusal::WrongNames);
    }
    if sheet::equal_names(sheet) {
        return Err(Refusal::EqualNames);
    }
    let n = sheet::entry_count(sheet);
    if matrix::is_wrong_count(n) {
        return Err(Refusal::WrongCount);
    }
    if sheet::wrong_lines(sheet, n) {
        return Err(Refusal::WrongLines);
    }
    read_values(sheet, n, pairs)
}

// The same in one pass where that will do, into slots of the caller's own: nothing is known of those if the sheet is
// refused.
pub fn read_own(pairs: &mut [i32; 528], sheet: &[u8]) -> Result<usize, Refusal>
    ensures { SheetRead sheet.now result pairs.new }
{
    if let Some(n) = accept::accept(pairs, sheet) {
        return Ok(n);
    }
    read_checked(sheet, pairs)
}

// Checks 2 to 9 and, if none refuses, the number of entries, and the pair list in the first slots. A refusal writes no
// slot, so one pass goes into slots of its own.
pub fn read(sheet: &[u8], pairs: &mut [i32; 528]) -> Result<usize, Refusal>
    ensures { ReaderCall sheet.now pairs.old result pairs.new }
{
    let mut own = [0i32; 528];
    let Some(n) = accept::accept(&mut own, sheet) else {
        return read_checked(sheet, pairs);
    };
    let count = matrix::pair_count(n);
    pairs[..count].copy_from_slice(&own[..count]);
    Ok(n)
}

// Checks 2 to 9.
pub fn check(sheet: &[u8]) -> Result<(), Refusal>
    ensures { number_of result ≡ reader_refusal sheet.now }
{
    let mut pairs = [0i32; 528];
    read_own(&mut pairs, sheet)?;
    Ok(())
}

// The place where piece i of the line starts.
fn piece_start(line: &[u8], i: usize) -> usize
    requires { i < length (cut space line.now) }
    ensures { result ≡ start_of (cut space line.now) i }
{
    let mut at: usize = 0;
    for _ in 0..i {
        at = text::piece_end(line, b' ', at) + 1;
    }
    at
}

// A part of the sheet, from its start up to its end.
#[derive(Clone, Copy, Debug, PartialEq, Eq)]
pub struct Part {
    pub start: usize,
    pub end: usize,
}

// Where the name of an entry stands; the empty part at 0 if the sheet is refused or has no such entry.
pub fn name_part(sheet: &[u8], entry: usize) -> Part
    ensures { NamePart sheet.now entry result.start result.end }
{
    let none = Part { start: 0, end: 0 };
    let mut pairs = [0i32; 528];
    let Ok(n) = read_own(&mut pairs, sheet) else {
        return none;
    };
    if entry >= n {
        return none;
    }
    let line = &sheet[..text::line_end(sheet, 0)];
    let start = piece_start(line, entry);
    let end = text::piece_end(line, b' ', start);
    Part { start, end }
}

// The name of an entry as its own part of the sheet.
pub fn name(sheet: &[u8], entry: usize) -> &[u8]
    ensures { NameCall sheet.now sheet.entry.ref_ptr entry result.now result.ref_ptr }
{
    let part = name_part(sheet, entry);
    &sheet[part.start..part.end]
}
