// Configurations, and the move that one entry of a run makes.
ghost use Rattle.std.specs.Prelude.{◌+◌, ◌<◌, ◌≤◌, ◌^◌, ◌≡◌, false, not, ◌&&◌};
ghost use Rattle.fsbm.specs.Machine.{buffering};
ghost use Rattle.fsbm.specs.declared.machine.Machine.{Machine};
ghost use Rattle.fsbm.specs.declared.config.Mode.TheVariants.{Normal, Buffering, Emptying};
ghost use Rattle.fsbm.specs.Answers.{step_answer, stepped_values, step_values};
ghost use Rattle.fsbm.specs.Moves.{mode_number, well_placed, buffer_fits, reads_letter, advanced, passes, reads_stored, may_take, after, goes, changes, move, start_at, accepts};

use crate::answer::Refusal;
use crate::limits::LONGEST_CHECKED;
use crate::machine::{Machine, Marks, Transition};
use crate::{answer, machine};

// The entry that begins storing.
pub const BEGIN_BUFFERING: u16 = 65533;

// The entry that begins matching.
pub const BEGIN_EMPTYING: u16 = 65534;

// The entry that goes back to normal mode.
pub const BACK_TO_NORMAL: u16 = 65535;

// The mode of a run: normal; buffering, which stores what it reads (document 01: storing); emptying, which matches what was
// stored (document 01: matching).
#[derive(Clone, Copy, Debug, PartialEq, Eq)]
pub enum Mode {
    Normal,
    Buffering,
    Emptying,
}

impl Mode {
    // Its number: 0 normal, 1 buffering, 2 emptying.
    pub fn number(self) -> u8
        ensures { result ≡ mode_number self }
    {
        match self {
            Mode::Normal => 0,
            Mode::Buffering => 1,
            Mode::Emptying => 2,
        }
    }
}

// A configuration of a run on a word. The buffer is the stretch of the word from start up to end.
#[derive(Clone, Copy, Debug, PartialEq, Eq)]
pub struct Config {
    // How many letters are read (document 01: the place).
    pub position: usize,
    pub state: usize,
    pub mode: Mode,
    pub start: usize,
    pub end: usize,
}

// What one entry of a run does to a configuration: the next one, or the same one where the move is not allowed. It is the moved
// configuration with a verdict beside it, as the definition of a move has it, and so no Option.
#[derive(Clone, Copy, Debug, PartialEq, Eq)]
pub struct Move {
    pub allowed: bool,
    pub config: Config,
}

// Whether x is epsilon, or the letter of the word at p, with p before e; test by test, as is_well_formed.
fn reads_letter(word: &[u8], p: usize, e: usize, x: u16) -> bool
    ensures { result ≡ reads_letter word.now p e x }
{
    if x == 0 {
        return true;
    }
    if e <= p {
        return false;
    }
    if word.len() <= p {
        return false;
    }
    word[p] as u16 == x
}

// The position after p once x is read.
fn advance(p: usize, x: u16) -> usize
    requires { (x ≡ 0 → ⊥) → p + 1 < 2 ^ 64 }
    ensures { result ≡ advanced p x }
{
    if x == 0 {
        return p;
    }
    p + 1
}

// Whether neither both ends of a transition are matching nor the state q is buffering.
fn is_open(both: bool, marks: &Marks, q: usize) -> bool
    ensures { result ≡ (not both && not (buffering marks.now q)) }
{
    !both && !machine::is_buffering(marks, q)
}

// Whether the marks at its ends let a transition be taken in a mode.
fn passes(mode: Mode, marks: &Marks, t: Transition) -> bool
    ensures { result ≡ passes marks.now t mode }
{
    let both = machine::both_matching(marks, t);
    match mode {
        Mode::Normal => is_open(both, marks, t.from as usize),
        Mode::Buffering => is_open(both, marks, t.to as usize),
        Mode::Emptying => both,
    }
}

impl Config {
    // A run's first configuration, in state q.
    pub fn start_at(q: usize) -> Config
        ensures { result ≡ start_at q }
    {
        Config {
            position: 0,
            state: q,
            mode: Mode::Normal,
            start: 0,
            end: 0,
        }
    }

    // Whether a run on a word of n letters accepts here: final, normal, the buffer empty, the word read to its end; test by test, as
    // is_well_formed.
    pub fn is_accepting(self, marks: &Marks, n: usize) -> bool
        ensures { result ≡ accepts marks.now n self }
    {
        if !machine::is_final(marks, self.state) {
            return false;
        }
        match self.mode {
            Mode::Normal => {}
            Mode::Buffering => return false,
            Mode::Emptying => return false,
        }
        if self.start != self.end {
            return false;
        }
        self.position == n
    }

    // Whether the buffer is what the mode asks: empty in normal mode, ending at the position in buffering mode.
    fn buffer_fits(self) -> bool
        ensures { result ≡ buffer_fits self self.mode }
    {
        match self.mode {
            Mode::Normal => self.start == self.end,
            Mode::Buffering => self.end == self.position,
            Mode::Emptying => true,
        }
    }

    // Whether any move is allowed from here, on a word of n letters; test by test, as is_well_formed.
    fn is_well_placed(self, states: usize, n: usize) -> bool
        ensures { result ≡ well_placed states n self }
    {
        if n < self.position {
            return false;
        }
        if states <= self.state {
            return false;
        }
        if self.end < self.start {
            return false;
        }
        if self.position < self.end {
            return false;
        }
        self.buffer_fits()
    }

    // The move is not allowed: the configuration as it was.
    fn stay(self) -> Move
        ensures { result ≡ goes false self self }
    {
        Move {
            allowed: false,
            config: self,
        }
    }

    // Whether a transition's letter is the next one of the buffer, in emptying mode; in the other modes the buffer is not read.
    fn reads_stored(self, word: &[u8], t: Transition) -> bool
        ensures { result ≡ reads_stored word.now self t self.mode }
    {
        match self.mode {
            Mode::Normal => true,
            Mode::Buffering => true,
            Mode::Emptying => reads_letter(word, self.start, self.end, t.letter),
        }
    }

    // Whether a transition leaves this state and may be taken here; test by test, as is_well_formed.
    pub fn may_take(self, marks: &Marks, word: &[u8], t: Transition) -> bool
        ensures { result ≡ may_take marks.now word.now self t }
    {
        if t.from as usize != self.state {
            return false;
        }
        if !passes(self.mode, marks, t) {
            return false;
        }
        if !reads_letter(word, self.position, word.len(), t.letter) {
            return false;
        }
        self.reads_stored(word, t)
    }

    // The configuration after a transition is taken here.
    pub fn after(self, t: Transition) -> Config
        requires { (self.position + 1 < 2 ^ 64) × (self.start ≤ self.end) × (self.end ≤ self.position) }
        ensures { result ≡ after self t self.mode }
    {
        let read = Config {
            position: advance(self.position, t.letter),
            state: t.to as usize,
            ..self
        };
        match self.mode {
            Mode::Normal => read,
            Mode::Buffering => Config {
                end: advance(self.end, t.letter),
                ..read
            },
            Mode::Emptying => Config {
                start: advance(self.start, t.letter),
                ..read
            },
        }
    }

    // An entry that changes the mode.
    pub fn change_mode(self, marks: &Marks, entry: u16) -> Move
        ensures { result ≡ changes marks.now self entry self.mode }
    {
        match self.mode {
            Mode::Normal => self.begin_buffering(marks, entry),
            Mode::Buffering => self.begin_emptying(marks, entry),
            Mode::Emptying => self.back_to_normal(marks, entry),
        }
    }

    // An entry in normal mode: it begins storing at a buffering state, where the buffer is empty.
    fn begin_buffering(self, marks: &Marks, entry: u16) -> Move
        ensures { result ≡ changes marks.now self entry Normal }
    {
        if entry != BEGIN_BUFFERING {
            return self.stay();
        }
        if !machine::is_buffering(marks, self.state) {
            return self.stay();
        }
        if self.start != self.end {
            return self.stay();
        }
        Move {
            allowed: true,
            config: Config {
                mode: Mode::Buffering,
                start: self.position,
                end: self.position,
                ..self
            },
        }
    }

    // An entry in buffering mode: it begins matching at a matching state.
    fn begin_emptying(self, marks: &Marks, entry: u16) -> Move
        ensures { result ≡ changes marks.now self entry Buffering }
    {
        if entry != BEGIN_EMPTYING {
            return self.stay();
        }
        if !machine::is_matching(marks, self.state) {
            return self.stay();
        }
        Move {
            allowed: true,
            config: Config {
                mode: Mode::Emptying,
                ..self
            },
        }
    }

    // An entry in emptying mode: it goes back to normal at a matching state, where the buffer is empty.
    fn back_to_normal(self, marks: &Marks, entry: u16) -> Move
        ensures { result ≡ changes marks.now self entry Emptying }
    {
        if entry != BACK_TO_NORMAL {
            return self.stay();
        }
        if !machine::is_matching(marks, self.state) {
            return self.stay();
        }
        if self.start != self.end {
            return self.stay();
        }
        Move {
            allowed: true,
            config: Config {
                mode: Mode::Normal,
                ..self
            },
        }
    }

    // One entry of a run, for every machine with these states, transitions and marks.
    pub fn moved(
        self,
        states: usize,
        transitions: usize,
        marks: &Marks,
        list: &[u16],
        word: &[u8],
        entry: u16,
    ) -> Move
        ensures { (m : Machine) → m.states ≡ states → m.transitions ≡ transitions → m.marks ≡ marks.now
            → result ≡ move m list.now word.now self entry }
    {
        if !self.is_well_placed(states, word.len()) {
            return self.stay();
        }
        let k = entry as usize;
        if transitions <= k {
            return self.change_mode(marks, entry);
        }
        let t = machine::transition_at(list, k);
        if !self.may_take(marks, word, t) {
            return self.stay();
        }
        Move {
            allowed: true,
            config: self.after(t),
        }
    }

    // The public call for one entry: the configuration after it, and whether the move is allowed. It refuses 16 (the record and its
    // list break the rules of a table), 9 (a word of more than 1,048,576 letters), 8 (a letter that is not there), in this order.
    // Time: the table and the word, each once. Memory: none beside its arguments.
    pub fn step(self, m: Machine, list: &[u16], word: &[u8], entry: u16) -> Result<Move, Refusal>
        ensures { (result ≡ step_answer m list.now word.now self entry) × (stepped_values self result ≡ step_values m list.now word.now self entry) }
    {
        answer::table_and_word(LONGEST_CHECKED, m, list, word)?;
        Ok(self.moved(m.states, m.transitions, &m.marks, list, word, entry))
    }
}
