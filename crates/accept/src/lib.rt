// A sheet read in one pass: it is accepted, or the reader judges it check by check.
#![tactic(auto)]

ghost use Rattle.std.specs.Prelude.{◌≡◌, true, not, map, ◌⊎◌, ℕ, suc, ◌+◌, ◌≤◌, ◌<◌, eqb, length, get_or};
ghost use Rattle.std.specs.Prelude.{IfSome, OnSome};
ghost use Rattle.std.proofs.lemmas.List.Edits.{sets};
ghost use Rattle.lists.specs.Lists.{all, below};
ghost use Rattle.clusters.specs.PairList.{row_start};
ghost use Rattle.interface.specs.Sheet.{value};
ghost use Rattle.accept.specs.Places.{Run, Half, CellAt, BothAt, At, RowRead};
ghost use Rattle.accept.specs.Names.{NameRun, LineRead, NamesRead};
ghost use Rattle.accept.specs.Read.{PairsRead};

use arrayvec::ArrayVec;

// A value's number in the pair list, and the length of its text.
#[derive(Clone, Copy, Debug, PartialEq, Eq)]
struct Cell {
    number: i32,
    size: usize,
}

// Digits as a number, and how many they are.
#[derive(Clone, Copy, Debug, PartialEq, Eq)]
struct Digits {
    number: u32,
    size: usize,
}

// The digits at p, at most 7; where the cell is mirrored, as far as the same stand at q, or none of them. Of each kind
// there is one call, which is inlined with its loop unrolled.
fn read_digits<const MIRRORED: bool>(sheet: &[u8], p: usize, q: usize) -> Digits
    requires { (p + 8 ≤ length sheet.now) × (q + 8 ≤ length sheet.now) × ((MIRRORED ≡ true) ⊎ (p ≡ q)) }
    ensures { Run sheet.now p q result.number result.size }
{
    let mut number: u32 = 0;
    for size in 0..7 {
        let b = sheet[p + size];
        if !text::is_digit(b) {
            return Digits { number, size };
        }
        if MIRRORED & (sheet[q + size] != b) {
            return Digits { number: 0, size: 0 };
        }
        number = number * 10 + (b - b'0') as u32;
    }
    Digits { number, size: 7 }
}

// A cell of any form at p, with the byte stop behind it: for marks, minus signs, and what stands near the sheet's end.
fn read_any(sheet: &[u8], p: usize, stop: u8) -> Option<Cell>
    requires { p ≤ length sheet.now }
    ensures { IfSome result (λ c. CellAt sheet.now p stop c.number c.size) }
{
    let end = text::piece_end(sheet, stop, p);
    if end >= sheet.len() {
        return None;
    }
    let Ok((pair, next)) = text::read_value(&sheet[p..end], 0) else {
        return None;
    };
    let size = next.at;
    if size != end - p {
        return None;
    }
    let number = i32::from(pair);
    Some(Cell { number, size })
}

// The same cell at p and at q, each with its byte behind it.
fn read_any_both(sheet: &[u8], p: usize, q: usize, near: u8, far: u8) -> Option<Cell>
    requires { (p ≤ length sheet.now) × (q ≤ length sheet.now) }
    ensures { IfSome result (λ c. BothAt sheet.now p q near far c.number c.size) }
{
    let cell = read_any(sheet, p, near)?;
    if cell.size >= sheet.len() - q {
        return None;
    }
    let end = p + cell.size;
    let other = q + cell.size;
    if sheet[other] != far {
        return None;
    }
    if sheet[p..end] != sheet[q..other] {
        return None;
    }
    Some(cell)
}

// `.5` stands behind the digits, and its byte behind that.
fn is_half(sheet: &[u8], at: usize, stop: u8) -> bool
    requires { at + 3 ≤ length sheet.now }
    ensures { result ≡ true → Half sheet.now at stop }
{
    let five = at + 1;
    let end = at + 2;
    (sheet[at] == b'.') & (sheet[five] == b'5') & (sheet[end] == stop)
}

// Digits with `.5` behind them, at p and at q.
fn read_half(sheet: &[u8], p: usize, q: usize, near: u8, far: u8, digits: Digits) -> Option<Cell>
    requires { (p + 10 ≤ length sheet.now) × (q + 10 ≤ length sheet.now) × Run sheet.now p q digits.number digits.size }
    ensures { IfSome result (λ c. BothAt sheet.now p q near far c.number c.size) }
{
    let Digits { number, size } = digits;
    if !is_half(sheet, p + size, near) {
        return None;
    }
    if !is_half(sheet, q + size, far) {
        return None;
    }
    if size == 0 {
        return None;
    }
    if (sheet[p] == b'0') & (size != 1) {
        return None;
    }
    let halves = (number * 2 + 1) as i32;
    let whole = size + 2;
    Some(Cell {
        number: halves,
        size: whole,
    })
}

// The same cell at p and at q, each with its byte behind it, if it begins with a digit and does not stand near the
// sheet's end. A whole number takes one branch more than its digits.
fn read_plain<const MIRRORED: bool>(
    sheet: &[u8],
    p: usize,
    q: usize,
    near: u8,
    far: u8,
) -> Option<Cell>
    requires { (p ≤ length sheet.now) × (q ≤ length sheet.now) × ((MIRRORED ≡ true) ⊎ (p ≡ q)) }
    ensures { IfSome result (λ c. BothAt sheet.now p q near far c.number c.size) }
{
    if (sheet.len() - p < 10) | (sheet.len() - q < 10) {
        return None;
    }
    let digits = read_digits::<MIRRORED>(sheet, p, q);
    let Digits { number, size } = digits;
    let end = p + size;
    let other = q + size;
    if (size == 0)
        | (sheet[end] != near)
        | (sheet[other] != far)
        | ((sheet[p] == b'0') & (size != 1))
    {
        return read_half(sheet, p, q, near, far, digits);
    }
    let halves = (number * 2) as i32;
    Some(Cell {
        number: halves,
        size,
    })
}

// The same cell at p and at q, whatever stands there. In a function of its own for each kind, which is inlined: the
// place of the answer is then cleared on this way alone, and a plain cell stays in registers.
fn read_other<const MIRRORED: bool>(
    sheet: &[u8],
    p: usize,
    q: usize,
    near: u8,
    far: u8,
) -> Option<Cell>
    requires { (p ≤ length sheet.now) × (q ≤ length sheet.now) }
    ensures { IfSome result (λ c. BothAt sheet.now p q near far c.number c.size) }
{
    read_any_both(sheet, p, q, near, far)
}

// The same cell at p and at q, each with its byte behind it; or one cell, its own mirror image. For what is not plain
// there is a call, so that the next place does not wait for a choice of lengths.
fn read_cell<const MIRRORED: bool>(
    sheet: &[u8],
    p: usize,
    q: usize,
    near: u8,
    far: u8,
) -> Option<Cell>
    requires { (p ≤ length sheet.now) × (q ≤ length sheet.now) × ((MIRRORED ≡ true) ⊎ (p ≡ q)) }
    ensures { IfSome result (λ c. BothAt sheet.now p q near far c.number c.size) }
{
    if let Some(cell) = read_plain::<MIRRORED>(sheet, p, q, near, far) {
        return Some(cell);
    }
    read_other::<MIRRORED>(sheet, p, q, near, far)
}

// Row i up to its own place: cells (i, 0) .. (i, i) go to the slots from start on. Cell (j, i), j < i, has to stand at
// the cursor of line j, with the same text; the cursor then moves past it. Answers where the row is left, if it is
// accepted.
fn read_row(
    cur: &mut [usize],
    pairs: &mut [i32],
    sheet: &[u8],
    i: usize,
    from: usize,
    stop: u8,
    start: usize,
) -> Option<usize>
    requires { (i < length cur.old) × (start + i < length pairs.old) × ((stop ≡ 32) ⊎ (stop ≡ 10))
        × At sheet.now i 0 from × ((j : ℕ) → j < i → At sheet.now j i (get_or cur.old j 0)) }
    ensures row_read { IfSome result (λ next. RowRead sheet.now stop i next cur.new) }
    ensures pairs_after { OnSome result
        (pairs.new ≡ sets pairs.old start (map (value sheet.now i) (below (suc i)))) }
{
    let mut at = from;
    for j in 0..i {
        let q = cur[j];
        let cell = read_cell::<true>(sheet, at, q, b' ', stop)?;
        cur[j] = q + cell.size + 1;
        pairs[start + j] = cell.number;
        at = at + cell.size + 1;
    }
    let cell = read_cell::<false>(sheet, at, at, stop, stop)?;
    pairs[start + i] = cell.number;
    let next = at + cell.size + 1;
    cur[i] = next;
    Some(next)
}

// A name as a number, its bytes the digits in base 256, and its length.
#[derive(Clone, Copy, Debug, PartialEq, Eq)]
struct Name {
    packed: u64,
    size: usize,
}

// The names of a sheet: how many, and where the value lines start.
#[derive(Clone, Copy, Debug, PartialEq, Eq)]
pub struct Names {
    pub count: usize,
    pub next: usize,
}

// The bytes of names from p on, at most 8.
fn read_name(sheet: &[u8], p: usize) -> Name
    requires { p ≤ length sheet.now }
    ensures { NameRun sheet.now p result.packed result.size }
{
    let mut packed: u64 = 0;
    for size in 0..8 {
        let at = p + size;
        if at >= sheet.len() {
            return Name { packed, size };
        }
        let b = sheet[at];
        if !text::is_name_byte(b) {
            return Name { packed, size };
        }
        packed = packed * 256 + u64::from(b);
    }
    Name { packed, size: 8 }
}

// None of the numbers is this one. Without an early exit the loop becomes vector code.
fn is_new(known: &[u64], packed: u64) -> bool
    ensures { result ≡ all (λ other. not (eqb other packed)) known.now }
{
    known
        .iter()
        .fold(true, |good, other| good & (*other != packed))
}

// Line 1, name by name.
fn read_line(sheet: &[u8]) -> Option<Names>
    ensures { IfSome result (λ names. LineRead sheet.now names.count names.next) }
{
    let mut known = ArrayVec::<u64, 32>::new();
    let mut at: usize = 0;
    loop {
        let Name { packed, size } = read_name(sheet, at);
        let end = at + size;
        if end >= sheet.len() {
            return None;
        }
        if size == 0 {
            return None;
        }
        if !text::is_upper(sheet[at]) {
            return None;
        }
        if known.is_full() {
            return None;
        }
        if !is_new(known.as_slice(), packed) {
            return None;
        }
        known.push(packed);
        if sheet[end] == b'\n' {
            return Some(Names {
                count: known.len(),
                next: end + 1,
            });
        }
        if sheet[end] != b' ' {
            return None;
        }
        at = end + 1;
    }
}

// The names of a sheet of the right length; or the reader has to say which check refuses, if any.
pub fn read_names(sheet: &[u8]) -> Option<Names>
    ensures { IfSome result (λ names. NamesRead sheet.now names.count names.next) }
{
    if sheet::wrong_length(sheet) {
        return None;
    }
    read_line(sheet)
}

// The value lines behind the names: the number of entries, where checks 2 to 9 pass and the pair list stands in the
// first slots; or the reader has to say which check refuses, if any, and nothing is known of the slots.
pub fn read_rows(pairs: &mut [i32], sheet: &[u8], names: Names) -> Option<usize>
    requires { NamesRead sheet.now names.count names.next × (row_start names.count ≤ length pairs.old) }
    ensures { IfSome result (λ n. PairsRead sheet.now n pairs.old pairs.new) }
{
    let mut cur = [0usize; 32];
    let mut at = names.next;
    let mut start: usize = 0;
    let last = names.count - 1;
    for i in 0..last {
        let next = read_row(&mut cur, pairs, sheet, i, at, b' ', start)?;
        let end = text::line_end(sheet, next);
        if end >= sheet.len() {
            return None;
        }
        at = end + 1;
        start += i + 1;
    }
    let next = read_row(&mut cur, pairs, sheet, last, at, b'\n', start)?;
    if next != sheet.len() {
        return None;
    }
    Some(names.count)
}

// Both, with slots for every sheet: the number of entries, if the sheet is accepted.
pub fn accept(pairs: &mut [i32], sheet: &[u8]) -> Option<usize>
    requires { 528 ≤ length pairs.old }
    ensures { IfSome result (λ n. PairsRead sheet.now n pairs.old pairs.new) }
{
    let names = read_names(sheet)?;
    read_rows(pairs, sheet, names)
}
