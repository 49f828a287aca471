// Loading of a customer's letters: a text of lines, each a byte value and its letter number in columns of five bytes.
//
// load_letters  the public call
ghost use Rattle.std.specs.Prelude.{◌≡◌, replicate};
ghost use Rattle.letters.specs.Alphabet.{byte_values};
ghost use Rattle.letters.specs.Loading.{load_answer};
ghost use Rattle.letters.specs.Lines.{kept, LinesRead};

use crate::alphabet;
use crate::alphabet::{Alphabet, BYTE_VALUES, Letters, MAX_LINES};
use fsbm::answer::Refusal;
use fsbm::limits::MAX_LETTERS;
use sheet::parts;

// The bytes of a line: two columns and the line end.
const LINE_LENGTH: usize = 11;

// Stands for a letter that no byte may have: 0, or one above MAX_LETTERS.
const NO_LETTER: u8 = 255;

// A letter as it is kept until all lines are read: itself, or NO_LETTER for one that no text without fault names.
#[tactic(auto, unfolding(crate::specs::Lines::kept))]
fn keep(letter: usize) -> u8
    ensures { result ≡ kept letter }
{
    if letter == 0 || MAX_LETTERS < letter {
        return NO_LETTER;
    }
    letter as u8
}

// The lines, one after the other: the letter that each names, at its byte. They refuse their first fault, 1, 2, 3 or 21. All letters are
// 0 before.
fn read_lines(text: &[u8], letters: &mut Letters) -> Result<(), Refusal>
    requires { letters.old ≡ replicate byte_values 0 }
    ensures { LinesRead text.now result letters.new }
{
    for i in 0..text.len().div_ceil(LINE_LENGTH) {
        let [byte, letter] = parts::read_line::<2>(text, LINE_LENGTH * i)?;
        if MAX_LINES <= i {
            return Err(Refusal::BadCount);
        }
        if BYTE_VALUES <= byte || letters[byte] != 0 {
            return Err(Refusal::BadByte);
        }
        letters[byte] = keep(letter);
    }
    Ok(())
}

// The public call that loads a customer's letters: 0 to 250 lines, each a byte value and its letter. It refuses the first fault: in a
// line 1 (fewer bytes are left than it takes), 2 (a column or the line end is not as described), 3 (the 251st line), 21 (a byte value
// above 255 or listed before), in this order; after all lines 22 (a letter missing below the largest, or letter 0).
// Time: one pass over the text, and some 500 steps. Memory: 512 bytes.
pub fn load_letters(text: &[u8]) -> Result<Alphabet, Refusal>
    ensures { result ≡ load_answer text.now }
{
    let mut letters = [0; BYTE_VALUES];
    read_lines(text, &mut letters)?;
    let most = alphabet::largest(&letters);
    let count = usize::from(most);
    if MAX_LETTERS < count || !alphabet::is_gapless(&letters, most) {
        return Err(Refusal::MissingLetter);
    }
    Ok(Alphabet { letters, count })
}
