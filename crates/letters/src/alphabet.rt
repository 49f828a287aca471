// The record of a customer's letters: for each byte value its letter. Whether it is one that some text gives.
ghost use Rattle.std.specs.Prelude.{◌≡◌, replicate};
ghost use Rattle.basics.specs.Search.{all_below};
ghost use Rattle.letters.specs.Alphabet.{byte_values, letter_in, largest_of, gapless, lettered, good_alphabet};
ghost use Rattle.letters.specs.Seen.{noted, Seen};

use spelling::Spelling;

// The number of byte values.
pub const BYTE_VALUES: usize = 256;

// The most lines of a text of letters, and so the most bytes that have letters.
pub const MAX_LINES: usize = 250;

// The letter of each byte value; 0 where it has none.
pub type Letters = [u8; BYTE_VALUES];

// A customer's letters: the letter of each byte value, and the largest letter.
#[repr(C)]
#[derive(Clone, Copy, Debug, PartialEq, Eq)]
pub struct Alphabet {
    pub letters: Letters,
    pub count: usize,
}

impl Spelling for Alphabet {
    ghost letters = { λ a. letter_in a.letters };

    fn letter(&self, b: u8) -> u8 {
        self.letters[usize::from(b)]
    }
}

// The largest letter; 0 where there is none.
pub fn largest(letters: &Letters) -> u8
    ensures { result ≡ largest_of byte_values (letter_in letters.now) }
{
    let mut most = 0;
    for letter in letters {
        most = most.max(*letter);
    }
    most
}

// How many bytes have letters. (A narrow count lets the compiler add many at once.)
fn with_letters(letters: &Letters) -> u16
    ensures { result ≡ lettered byte_values (letter_in letters.now) }
{
    let mut count = 0;
    for letter in letters {
        count += u16::from(*letter != 0);
    }
    count
}

// Notes each letter that some byte has: 1 at its number. All are 0 before.
fn note(letters: &Letters, seen: &mut Letters)
    requires { seen.old ≡ replicate byte_values 0 }
    ensures { Seen byte_values (letter_in letters.now) seen.new }
{
    for letter in letters {
        seen[usize::from(*letter)] = 1;
    }
}

// Whether each letter from 1 to count is noted: whether the least of their notes is above 0. (With no early exit, so that the compiler
// can look at many at once.)
fn all_seen(seen: &Letters, count: u8) -> bool
    ensures { result ≡ all_below count (noted seen.now) }
{
    let mut least = 1;
    for k in 0..usize::from(count) {
        least = least.min(seen[k + 1]);
    }
    least != 0
}

// Whether each letter from 1 to the largest, which is count, belongs to some byte.
pub fn is_gapless(letters: &Letters, count: u8) -> bool
    requires { count ≡ largest_of byte_values (letter_in letters.now) }
    ensures { result ≡ gapless byte_values (letter_in letters.now) }
{
    let mut seen = [0; BYTE_VALUES];
    note(letters, &mut seen);
    all_seen(&seen, count)
}

// Whether some text of letters gives this record.
#[tactic(auto, unfolding(crate::specs::Alphabet::good_alphabet))]
pub fn is_good(a: &Alphabet) -> bool
    ensures { result ≡ good_alphabet a.now }
{
    let most = largest(&a.letters);
    usize::from(with_letters(&a.letters)) <= MAX_LINES
        && a.count == usize::from(most)
        && is_gapless(&a.letters, most)
}
