// Written words: bytes to letters.
//
// Spelling       which byte is which letter
// have_letters   whether every byte has a letter
// write_letters  the letters of the bytes
// translate_by   a written word to letters, by any spelling
// translate      the public call: the same by the fixed spelling

#![tactic(auto)]

ghost use Rattle.fsbm.specs.Answers.{count_values};
ghost use Rattle.std.specs.Prelude.{ℕ, ◌≡◌, ◌≤◌, length};
ghost use Rattle.basics.specs.Search.{all_in};
ghost use Rattle.spelling.specs.Words.{has_letter, written, word_refusal, answer_by, word_by};
ghost use Rattle.spelling.specs.Spelling.{letter_of, translate_answer, translate_word, translate_values};

use fsbm::answer::Refusal;

// The longest word that is translated.
const LONGEST_WRITTEN: usize = 255;

// Stands for the letter of a byte that has none.
const NO_LETTER: u8 = 0;

// The letter of each byte: a to z are 1 to 26, hyphen is 27, apostrophe is 28; 0 where it has none.
const LETTERS: [u8; 256] = [
    0, 0, 0, 0, 0, 0, 0, 0, 0, 0, 0, 0, 0, 0, 0, 0, 0, 0, 0, 0, 0, 0, 0, 0, 0, 0, 0, 0, 0, 0, 0, 0,
    0, 0, 0, 0, 0, 0, 0, 28, 0, 0, 0, 0, 0, 27, 0, 0, 0, 0, 0, 0, 0, 0, 0, 0, 0, 0, 0, 0, 0, 0, 0,
    0, 0, 0, 0, 0, 0, 0, 0, 0, 0, 0, 0, 0, 0, 0, 0, 0, 0, 0, 0, 0, 0, 0, 0, 0, 0, 0, 0, 0, 0, 0, 0,
    0, 0, 1, 2, 3, 4, 5, 6, 7, 8, 9, 10, 11, 12, 13, 14, 15, 16, 17, 18, 19, 20, 21, 22, 23, 24,
    25, 26, 0, 0, 0, 0, 0, 0, 0, 0, 0, 0, 0, 0, 0, 0, 0, 0, 0, 0, 0, 0, 0, 0, 0, 0, 0, 0, 0, 0, 0,
    0, 0, 0, 0, 0, 0, 0, 0, 0, 0, 0, 0, 0, 0, 0, 0, 0, 0, 0, 0, 0, 0, 0, 0, 0, 0, 0, 0, 0, 0, 0, 0,
    0, 0, 0, 0, 0, 0, 0, 0, 0, 0, 0, 0, 0, 0, 0, 0, 0, 0, 0, 0, 0, 0, 0, 0, 0, 0, 0, 0, 0, 0, 0, 0,
    0, 0, 0, 0, 0, 0, 0, 0, 0, 0, 0, 0, 0, 0, 0, 0, 0, 0, 0, 0, 0, 0, 0, 0, 0, 0, 0, 0, 0, 0, 0, 0,
    0, 0, 0, 0, 0, 0, 0, 0,
];

// Which byte is which letter.
pub trait Spelling {
    ghost letters: { Self → ℕ → ℕ };

    // The letter of a byte; 0 where it has none.
    fn letter(&self, b: u8) -> u8
        ensures { result ≡ letters self.now b };
}

// The fixed spelling: a to z are 1 to 26, hyphen is 27, apostrophe is 28.
struct Fixed;

impl Spelling for Fixed {
    ghost letters = { λ s. letter_of };

    fn letter(&self, b: u8) -> u8 {
        LETTERS[usize::from(b)]
    }
}

// Whether every byte has a letter.
// Time: the bytes once, to the first that has none.
pub fn have_letters<S: Spelling>(spelling: &S, bytes: &[u8]) -> bool
    ensures { result ≡ all_in (has_letter (S.letters spelling.now)) bytes.now }
{
    for b in bytes {
        if spelling.letter(*b) == NO_LETTER {
            return false;
        }
    }
    true
}

// The letters of the bytes, written to the front of the word, which is long enough; 0 for a byte that has none.
// Time: the bytes once.
pub fn write_letters<S: Spelling>(spelling: &S, bytes: &[u8], word: &mut [u8])
    requires { length bytes.now ≤ length word.old }
    ensures { word.new ≡ written (S.letters spelling.now) bytes.now word.old }
{
    for (i, b) in bytes.iter().enumerate() {
        word[i] = spelling.letter(*b);
    }
}

// Translates a written word by a spelling: how many letters it has, its letters at the front of the word slice. It refuses 9 (more than
// 255 bytes), 8 (a byte that has no letter), 18 (the word slice is too short) with the length needed, in this order. A refusal leaves
// the slice as it was; what stands past the letters stays.
// Time: the bytes twice. Memory: none beside its arguments.
#[tactic(auto, unfolding(crate::specs::Words::word_refusal))]
pub fn translate_by<S: Spelling>(
    spelling: &S,
    bytes: &[u8],
    word: &mut [u8],
) -> Result<usize, Refusal>
    ensures { (result ≡ answer_by (word_refusal (S.letters spelling.now) bytes.now (length word.old)) (length bytes.now))
        × (word.new ≡ word_by (word_refusal (S.letters spelling.now) bytes.now (length word.old)) (S.letters spelling.now) bytes.now word.old) }
{
    if LONGEST_WRITTEN < bytes.len() {
        return Err(Refusal::TooLong);
    }
    if !have_letters(spelling, bytes) {
        return Err(Refusal::AbsentLetter);
    }
    if word.len() < bytes.len() {
        return Err(Refusal::ShortWord(bytes.len()));
    }
    write_letters(spelling, bytes, word);
    Ok(bytes.len())
}

// The public call that translates a written word by the fixed spelling, as translate_by does: its letters at the front of the word
// slice. It refuses 9 (more than 255 bytes), 8 (a byte that has no letter), 18 (the word slice is too short) with the length needed, in
// this order. A refusal leaves the slice as it was; what stands past the letters stays.
// Time: the bytes twice. Memory: none beside its arguments.
pub fn translate(bytes: &[u8], word: &mut [u8]) -> Result<usize, Refusal>
    ensures { (result ≡ translate_answer bytes.now (length word.old)) × (word.new ≡ translate_word bytes.now word.old) × (count_values result ≡ translate_values bytes.now (length word.old)) }
{
    translate_by(&Fixed, bytes, word)
}
