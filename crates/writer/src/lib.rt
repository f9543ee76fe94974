// The sheet writer.
#![tactic(auto)]

ghost use Rattle.std.specs.Prelude.{◌≡◌, ◌++◌, ◌∷◌, [], ◌+◌, ◌*◌, ◌≤◌, ◌<◌, T, length, drop};
ghost use Rattle.pairs.specs.Pairs.{carried};
ghost use Rattle.clusters.specs.PairList.{row_start, score, scores_in_range};
ghost use Rattle.interface.specs.Sheet.{line_feed, space, cut};
ghost use Rattle.interface.specs.SheetText.{pair_text, row_text, sheet_text};
ghost use Rattle.listing.specs.Put.{Put};

use listing::Text;
use matrix::PairList;
use pairs::{Carried, Pair};

// 22 bytes at most.
fn put_pair(text: &mut Text<'_>, v: i32)
    requires { text.old.at + 22 ≤ length text.old.out.now }
    ensures { Put text.old (pair_text (carried v)) text.new }
{
    match Pair::from(v).carries {
        Carried::Scored(score) => {
            if score.is_negative() {
                text.put_byte(b'-');
            }
            text.put_points(score.unsigned_abs() as usize);
        }
        Carried::Unscored => text.put_byte(b'-'),
    }
}

// Puts row i of the values and its line feed, 10 bytes at most for each value.
fn put_row(text: &mut Text<'_>, list: &PairList<'_>, i: usize)
    requires row { (i < list.now.n) × T (scores_in_range list.now.pairs.now) }
    requires room { text.old.at + 10 * list.now.n + 13 ≤ length text.old.out.now }
    ensures near { text.new.at ≤ text.old.at + 10 * list.now.n }
    ensures put { Put text.old (row_text list.now.n (score list.now.pairs.now) i ++ (line_feed ∷ [])) text.new }
{
    let mut place = matrix::place_of(i, 0);
    for j in 0..list.n - 1 {
        put_pair(text, list.pairs[place]);
        text.put_byte(b' ');
        place = matrix::next_place(place, i, j);
    }
    put_pair(text, list.pairs[place]);
    text.put_byte(b'\n');
}

// Writes the sheet of the names in line 1 and the pair list to the start of out, and answers its length.
pub fn write(out: &mut [u8], line: &[u8], list: &PairList<'_>) -> usize
    requires sheet { (list.now.n ≡ length (cut space line.now)) × T (scores_in_range list.now.pairs.now) }
    requires room { length line.now + 320 * list.now.n + 14 ≤ length out.old }
    ensures value { result ≡ length (sheet_text (cut space line.now) (score list.now.pairs.now)) }
    ensures out_after { out.new
        ≡ sheet_text (cut space line.now) (score list.now.pairs.now) ++ drop result out.old }
{
    let mut sheet = Text::new(out);
    sheet.put_bytes(line);
    sheet.put_byte(b'\n');
    for i in 0..list.n {
        put_row(&mut sheet, list, i);
    }
    sheet.at
}
