// Why a call turns its input down, and the tests that come before every answer on a table and a word.
ghost use Rattle.std.specs.Prelude.{◌≡◌, length};
ghost use Rattle.fsbm.specs.Answers.{number_of, needed_of, passed, good_letter, good_letters, word_fault, table_and_word};

use crate::machine;
use crate::machine::Machine;

// Why a call turns its input down. Each refusal has its number; one for a slice that is too short also has the length that it needs.
#[derive(Clone, Copy, Debug, PartialEq, Eq)]
pub enum Refusal {
    // 1: fewer bytes are left than the next line takes.
    MissingBytes,
    // 2: a column or a line end is not as described.
    BadColumn,
    // 3: a count is outside its range.
    BadCount,
    // 4: a state's number is out of turn, or its mark is none.
    BadState,
    // 5: a transition names a state or a letter that is not there.
    AbsentName,
    // 6: the transitions do not rise strictly.
    NotRising,
    // 7: bytes stand after the last line.
    BytesLeft,
    // 8: a word has a letter that is not there, or a written byte has none.
    AbsentLetter,
    // 9: a word or a run is too long.
    TooLong,
    // 10: the second table is not plain.
    NotPlain,
    // 11: the letter counts differ.
    LettersDiffer,
    // 12: too many joined states.
    ManyStates,
    // 13: too many joined transitions.
    ManyTransitions,
    // 14: the run does not accept.
    NotAccepting,
    // 15: the list of transitions is too short.
    ShortList(usize),
    // 16: a record and its list break the rules of a table.
    BadTable,
    // 17: the slice for a run is too short.
    ShortRun(usize),
    // 18: the slice for a word is too short.
    ShortWord(usize),
    // 19: the slice for a sheet or a page is too short.
    ShortSheet(usize),
    // 20: the slice for the copy list is too short.
    ShortCopies(usize),
    // 21: a byte value is no byte's, or was listed before.
    BadByte,
    // 22: a letter is missing below the largest.
    MissingLetter,
    // 34: the ends of words fall or pass the letters.
    BadEnds,
    // 35: the slice for answers is too short.
    ShortAnswers(usize),
    // 36: the slice for sets of states is too short.
    ShortSets(usize),
}

impl Refusal {
    // Its number.
    pub fn number(self) -> u8
        ensures { result ≡ number_of self }
    {
        match self {
            Refusal::MissingBytes => 1,
            Refusal::BadColumn => 2,
            Refusal::BadCount => 3,
            Refusal::BadState => 4,
            Refusal::AbsentName => 5,
            Refusal::NotRising => 6,
            Refusal::BytesLeft => 7,
            Refusal::AbsentLetter => 8,
            Refusal::TooLong => 9,
            Refusal::NotPlain => 10,
            Refusal::LettersDiffer => 11,
            Refusal::ManyStates => 12,
            Refusal::ManyTransitions => 13,
            Refusal::NotAccepting => 14,
            Refusal::ShortList(_) => 15,
            Refusal::BadTable => 16,
            Refusal::ShortRun(_) => 17,
            Refusal::ShortWord(_) => 18,
            Refusal::ShortSheet(_) => 19,
            Refusal::ShortCopies(_) => 20,
            Refusal::BadByte => 21,
            Refusal::MissingLetter => 22,
            Refusal::BadEnds => 34,
            Refusal::ShortAnswers(_) => 35,
            Refusal::ShortSets(_) => 36,
        }
    }

    // The length that the slice needs, in its own elements, where it is too short; else 0.
    pub fn needed(self) -> usize
        ensures { result ≡ needed_of self }
    {
        match self {
            Refusal::ShortList(needed)
            | Refusal::ShortRun(needed)
            | Refusal::ShortWord(needed)
            | Refusal::ShortSheet(needed)
            | Refusal::ShortCopies(needed)
            | Refusal::ShortAnswers(needed)
            | Refusal::ShortSets(needed) => needed,
            _ => 0,
        }
    }
}

// Whether x is a letter of a machine with this many.
fn good_letter(letters: usize, x: u8) -> bool
    ensures { result ≡ good_letter letters x }
{
    x >= 1 && x as usize <= letters
}

// Whether every letter of a word is there.
fn good_letters(letters: usize, word: &[u8]) -> bool
    ensures { result ≡ good_letters letters word.now }
{
    for x in word {
        if !good_letter(letters, *x) {
            return false;
        }
    }
    true
}

// The first refusal of a word of at most longest letters on a machine with this many letters: 9 the word is too long, 8 it has a letter
// that is not there.
// Time: the word once.
pub fn word_fault(longest: usize, letters: usize, word: &[u8]) -> Result<(), Refusal>
    ensures { result ≡ passed (word_fault longest letters word.now) }
{
    if longest < word.len() {
        return Err(Refusal::TooLong);
    }
    if !good_letters(letters, word) {
        return Err(Refusal::AbsentLetter);
    }
    Ok(())
}

// The first refusal of a table and a word of at most longest letters: 16 the record and its list break the rules of a table, then 9
// and 8, those of the word.
// Time: the table and the word, each once.
pub fn table_and_word(longest: usize, m: Machine, list: &[u16], word: &[u8]) -> Result<(), Refusal>
    ensures { result ≡ passed (table_and_word longest m list.now word.now) }
{
    if !machine::is_well_formed(m, list) {
        return Err(Refusal::BadTable);
    }
    word_fault(longest, m.letters, word)
}
