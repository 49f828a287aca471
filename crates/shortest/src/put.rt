// Entries and letters put in front of what a run and a word have already.
ghost use Rattle.std.specs.Prelude.{◌+◌, ◌≤◌, length};
ghost use Rattle.shortest.specs.Put.{PutReady, Put, Again, Unloaded};

use blocks::sizes::MOST_PAIRS;
use fsbm::machine;

// Puts the entry of transition k before place r of the run, and its letter, if it has one, before place i of the word. Returns the place
// of the first letter.
pub fn put(list: &[u16], k: usize, word: &mut [u8], i: usize, run: &mut [u16], r: usize) -> usize
    requires { PutReady list.now k word.old i run.old r }
    ensures { Put list.now k word.old i run.old r word.new result run.new }
{
    run[r - 1] = k as u16;
    let t = machine::transition_at(list, k);
    if t.letter == 0 {
        return i;
    }
    word[i - 1] = t.letter as u8;
    i - 1
}

// Puts the n letters from place i on before place i once more.
pub fn again(word: &mut [u8], i: usize, n: usize)
    requires { (n ≤ i) × (i + n ≤ length word.old) }
    ensures { Again word.old i n word.new }
{
    word.copy_within(i..i + n, i - n);
}

// Puts the first c entries of later before place r, the first of them last.
pub fn unload(later: &[u16; MOST_PAIRS], c: usize, run: &mut [u16], r: usize)
    requires { (c ≤ 4096) × (c ≤ r) × (r ≤ length run.old) }
    ensures { Unloaded later.now c run.old r run.new }
{
    for k in 0..c {
        run[r - 1 - k] = later[k];
    }
}
