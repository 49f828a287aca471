// Stretches of a word that stand a second time after themselves.
ghost use Rattle.std.specs.Prelude.{◌+◌, ◌≤◌, ◌<◌, length};
ghost use Rattle.tables.specs.Halves.{Matched, Shared, SharedFrom};

// How many lengths the half of a square can have in a word that is recognized, 0 among them.
pub const HALVES: usize = 128;

// Whether the d letters from i on stand a second time after themselves.
pub fn halves_match(word: &[u8], i: usize, d: usize) -> bool
    requires { i + d + d ≤ length word.now }
    ensures { Matched word.now i d result }
{
    word[i..i + d] == word[i + d..i + d + d]
}

// How many letters from i on are those that stand d later, from how many they are from i + 1 on.
fn longer(word: &[u8], i: usize, d: usize, count: u16) -> u16
    requires { (i + d < length word.now) × (count < 256) }
    ensures { (result ≤ count + 1) × (Shared word.now (i + 1) d count → Shared word.now i d result) }
{
    if word[i] == word[i + d] {
        return count + 1;
    }
    0
}

// Brings the counts from position i + 1 to position i: for each distance below 128 how many letters from i on are those that stand
// so much later. A stretch of d letters stands a second time after itself just if the count of d is at least d.
pub fn count_shared(word: &[u8], i: usize, counts: &mut [u16; HALVES])
    requires { (i < length word.now) × (length word.now ≤ 255) × SharedFrom word.now (i + 1) counts.old }
    ensures { SharedFrom word.now i counts.new }
{
    for d in 1..HALVES.min(word.len() - i) {
        counts[d] = longer(word, i, d, counts[d]);
    }
}
