// The listing writer, and a text handed over.
#![tactic(auto)]

ghost use Rattle.std.specs.Prelude.{◌≡◌, ◌++◌, ◌∷◌, [], map, ◌+◌, ◌*◌, ◌≤◌, ◌<◌, pos, length, take, drop, ◌≤ℤ◌};
ghost use Rattle.std.proofs.lemmas.List.Edits.{sets};
ghost use Rattle.lists.specs.Lists.{each};
ghost use Rattle.interface.specs.Listing.{line_of, digit, digits, hexadecimal, decimal, points_text, listing};
ghost use Rattle.listing.specs.Lines.{line};
ghost use Rattle.listing.specs.Put.{Put};
ghost use Rattle.listing.specs.Natural.{Natural};
ghost use Rattle.listing.specs.Over.{HandedOver};

use answers::Refusal;
use clusters::Group;

fn digit(k: usize) -> u8
    requires { k < 16 }
    ensures { result ≡ digit k }
{
    if k < 10 {
        b'0' + k as u8
    } else {
        b'a' - 10 + k as u8
    }
}

// The number of decimal digits. Comparing with 10, 100 and so on takes less time than dividing.
fn decimal_length(n: usize) -> usize
    ensures { result ≡ length (decimal n) }
{
    let mut top: usize = 10;
    for k in 1..19 {
        if n < top {
            return k;
        }
        top *= 10;
    }
    if n < top { 19 } else { 20 }
}

// A buffer, and the place in it up to which a text is written.
#[derive(Drop)]
pub struct Text<'a> {
    out: &'a mut [u8],
    pub at: usize,
}

impl<'a> Text<'a> {
    // The empty text.
    pub fn new(out: &'a mut [u8]) -> Text<'a>
        ensures same_reference { result.out.ghost_name ≡ out.entry.ghost_name }
        ensures bytes { result.out.now ≡ out.old }
        ensures place { result.at ≡ 0 }
    {
        Text { out, at: 0 }
    }

    pub fn put_byte(&mut self, byte: u8)
        requires { self.old.at < length self.old.out.now }
        ensures { Put self.old (byte ∷ []) self.new }
    {
        self.out[self.at] = byte;
        self.at += 1;
    }

    pub fn put_bytes(&mut self, bytes: &[u8])
        requires { self.old.at + length bytes.now ≤ length self.old.out.now }
        ensures { Put self.old bytes.now self.new }
    {
        let end = self.at + bytes.len();
        self.out[self.at..end].copy_from_slice(bytes);
        self.at = end;
    }

    // Puts the last count digits of n in a base, the last one first.
    fn put_digits(&mut self, base: usize, count: usize, n: usize)
        requires { (0 < base) × (base ≤ 16) × (self.old.at + count ≤ length self.old.out.now) }
        ensures { Put self.old (digits base count n) self.new }
    {
        let mut rest = n;
        for i in (0..count).rev() {
            self.out[self.at + i] = digit(rest % base);
            rest /= base;
        }
        self.at += count;
    }

    // 20 bytes at most.
    fn put_number(&mut self, n: usize)
        requires { self.old.at + 20 ≤ length self.old.out.now }
        ensures { Put self.old (decimal n) self.new }
    {
        self.put_digits(10, decimal_length(n), n);
    }

    // Puts a number of half points, in points, 21 bytes at most.
    pub fn put_points(&mut self, k: usize)
        requires { self.old.at + 21 ≤ length self.old.out.now }
        ensures { Put self.old (points_text k) self.new }
    {
        self.put_number(k / 2);
        if k % 2 != 0 {
            self.put_bytes(b".5");
        }
    }

    // 34 bytes at most.
    fn put_line(&mut self, group: Group)
        requires natural { pos 0 ≤ℤ group.index }
        requires room { self.old.at + 34 ≤ length self.old.out.now }
        ensures upper_bound { self.new.at ≤ self.old.at + 34 }
        ensures put { Put self.old (line 32 group) self.new }
    {
        self.put_digits(16, 8, group.set as usize);
        self.put_byte(b' ');
        self.put_number(sets::size(group.set));
        self.put_byte(b' ');
        self.put_points(group.index as usize);
        self.put_byte(b'\n');
    }

    // Puts the line of each group.
    fn put_lines(&mut self, groups: &[Group])
        requires natural { Natural groups.now }
        requires room { self.old.at + 34 * length groups.now ≤ length self.old.out.now }
        ensures upper_bound { self.new.at ≤ self.old.at + 34 * length groups.now }
        ensures put { Put self.old (each groups.now (line 32)) self.new }
    {
        for &group in groups {
            self.put_line(group);
        }
    }
}

// Writes the listing of the groups to the start of out, and answers its length.
pub fn write(out: &mut [u8], groups: &[Group]) -> usize
    requires natural { Natural groups.now }
    requires room { 15 + 34 * length groups.now ≤ length out.old }
    ensures value { result ≡ length (listing (map (line_of 32) groups.now)) }
    ensures out_after { out.new ≡ listing (map (line_of 32) groups.now) ++ drop result out.old }
{
    let mut text = Text::new(out);
    text.put_bytes(b"set size index\n");
    text.put_lines(groups);
    text.at
}

// Hands over a text: its length, and the text in the first bytes of a buffer; or 14, and nothing is written.
pub fn hand_over(text: &[u8], out: &mut [u8]) -> Result<usize, Refusal>
    ensures { HandedOver text.now out.old result out.new }
{
    if out.len() < text.len() {
        return Err(Refusal::ShortBuffer);
    }
    out[..text.len()].copy_from_slice(text);
    Ok(text.len())
}

// The same of the listing of the groups. A buffer with room for the longest lines is written to at once.
pub fn hand_listing(groups: &[Group], out: &mut [u8]) -> Result<usize, Refusal>
    requires natural { Natural groups.now }
    requires few { length groups.now ≤ 64 }
    ensures { HandedOver (listing (map (line_of 32) groups.now)) out.old result out.new }
{
    let room = 15 + 34 * groups.len();
    if room <= out.len() {
        let length = write(out, groups);
        return Ok(length);
    }
    // room for the first line and 64 of the longest lines
    let mut text = [0u8; 2191];
    let written = write(&mut text, groups);
    hand_over(&text[..written], out)
}
