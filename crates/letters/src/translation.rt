// Written words: bytes to letters, by the customer's record.
//
// have_letters   whether every byte of a written word has a letter
// write_letters  its letters
// translate      the public call that translates a written word
ghost use Rattle.fsbm.specs.Answers.{count_values};
ghost use Rattle.std.specs.Prelude.{◌≡◌, ◌≤◌, length};
ghost use Rattle.basics.specs.Search.{all_in};
ghost use Rattle.letters.specs.Alphabet.{letter_in};
ghost use Rattle.letters.specs.Translation.{has_letter, written, translate_answer, translate_word, translate_values};

use crate::alphabet;
use crate::alphabet::{Alphabet, Letters};
use fsbm::answer::Refusal;
use spelling::Spelling;

// The letter of each byte, lent by whoever has them, with or without the rest of a record.
#[derive(Clone, Copy)]
struct Lent<'a> {
    letters: &'a Letters,
}

impl Spelling for Lent<'_> {
    ghost letters = { λ s. letter_in s.letters.now };

    fn letter(&self, b: u8) -> u8 {
        self.letters[usize::from(b)]
    }
}

// Whether every byte has a letter.
// Time: the bytes once, to the first that has none.
pub fn have_letters(letters: &Letters, bytes: &[u8]) -> bool
    ensures { result ≡ all_in (has_letter (letter_in letters.now)) bytes.now }
{
    spelling::have_letters(&Lent { letters }, bytes)
}

// The letters of the bytes, written to the front of the word, which is long enough.
// Time: the bytes once.
pub fn write_letters(letters: &Letters, bytes: &[u8], word: &mut [u8])
    requires { length bytes.now ≤ length word.old }
    ensures { word.new ≡ written (letter_in letters.now) bytes.now word.old }
{
    spelling::write_letters(&Lent { letters }, bytes, word);
}

// The public call that translates a written word: for each byte the letter that the customer's record has for it, at the front of the
// word slice. It refuses 16 (a record that no loading gives), 9 (more than 255 bytes), 8 (a byte that has no letter), 18 (the word
// slice is too short) with the length needed, in this order. A refusal leaves the slice as it was; what stands past the letters stays.
// Time: some 800 steps for the record, then the bytes twice. Memory: 512 bytes.
pub fn translate(a: Alphabet, bytes: &[u8], word: &mut [u8]) -> Result<usize, Refusal>
    ensures { (result ≡ translate_answer a bytes.now (length word.old)) × (word.new ≡ translate_word a bytes.now word.old) × (count_values result ≡ translate_values a bytes.now (length word.old)) }
{
    if !alphabet::is_good(&a) {
        return Err(Refusal::BadTable);
    }
    spelling::translate_by(&a, bytes, word)
}
