// Stretches of a word that stand twice in a row: what a copy of at least one letter needs.
ghost use Rattle.std.specs.Prelude.{◌+◌, ◌-◌, ◌≤◌, ◌<◌, ◌≡◌, ◌⊎◌, length};
ghost use Rattle.decide.specs.Reach.{LastSquare};
ghost use Rattle.decide.specs.Squares.{RunEnd, RepeatEnds, RepeatEndsAt, Ended, Squared, Turning};

use fsbm::limits::POSITIONS;
use stateset::StateSet;

// The first position from q up to stop where the letter is not the one d positions before it; stop where there is none.
fn run_end(word: &[u8], d: usize, q: usize, stop: usize) -> usize
    requires { (d ≤ q) × (q ≤ stop) × (stop ≤ length word.now) }
    ensures { RunEnd word.now d q stop result }
{
    for r in q..stop {
        if word[r] != word[r - d] {
            return r;
        }
    }
    stop
}

// A position up to which the letters from q on repeat those d positions before them; where it is before stop, the letter there does not. It
// goes on from the position up to which letters were compared before at this distance.
fn known_end(word: &[u8], ends: &mut [u8; POSITIONS], d: usize, q: usize, stop: usize) -> usize
    requires { (0 < d) × (d ≤ q) × (q ≤ stop) × (stop ≤ length word.now) × (length word.now ≤ 255) × RepeatEndsAt word.now ends.old d q }
    ensures { Ended word.now ends.old ends.new d q stop result }
{
    let e = usize::from(ends[d]);
    if stop <= e {
        return e;
    }
    let r = run_end(word, d, q.max(e), stop);
    ends[d] = r as u8;
    r
}

// Whether the letters from i up to j stand once more from j on. Letters that were found the same before are not compared again.
fn is_square(word: &[u8], ends: &mut [u8; POSITIONS], i: usize, j: usize) -> bool
    requires { (i < j) × (j + (j - i) ≤ length word.now) × (length word.now ≤ 255) × RepeatEndsAt word.now ends.old (j - i) j }
    ensures { Squared word.now ends.old ends.new i j result }
{
    let d = j - i;
    j + d <= known_end(word, ends, d, j, j + d)
}

// The end of the first half of the longest square that starts at i; i where there is none.
pub fn last_square(word: &[u8], ends: &mut [u8; POSITIONS], i: usize) -> usize
    requires { (i ≤ length word.now) × (length word.now ≤ 255) × RepeatEnds word.now ends.old (λ d. i + d) }
    ensures { RepeatEnds word.now ends.new (λ d. i + d) × LastSquare word.now i result }
{
    let most = i + (word.len() - i) / 2;
    for j in (i + 1..most + 1).rev() {
        if is_square(word, ends, i, j) {
            return j;
        }
    }
    i
}

// The states of s with which storing ends at j, where the letters from i up to j stand once more from j on.
pub fn turning(
    h: StateSet,
    word: &[u8],
    ends: &mut [u8; POSITIONS],
    i: usize,
    j: usize,
    s: StateSet,
) -> StateSet
    requires { (i < j) × (j + (j - i) ≤ length word.now) × (length word.now ≤ 255) × RepeatEndsAt word.now ends.old (j - i) j }
    ensures { Turning h word.now ends.old ends.new i j s result }
{
    let ready = stateset::intersection(s, h);
    if ready == 0 {
        return 0;
    }
    if is_square(word, ends, i, j) {
        ready
    } else {
        0
    }
}
