// The listing, from the bytes of the sheet and of the input to the bytes that are printed, with the input in pieces. A program
// only reads a piece, calls, and writes.
//
// open        what is printed ahead of any input, and the sheet's table
// begin       what is held before any input
// is_full     whether the last word is listed
// take_piece  what a piece of the input prints, and what is held after it
// finish      what is printed at the end of the input

#![tactic(auto)]

ghost use Rattle.std.specs.Prelude.{◌+◌, ◌*◌, ◌≤◌, ◌<◌, ◌≡◌, true, leb, length, take};
ghost use Rattle.basics.specs.Lists.{put};
ghost use Rattle.accepts.specs.Ready.{Ready, Working};
ghost use Rattle.sheet.specs.Reading.{read_list};
ghost use Rattle.stream.specs.Listing.{word_line, header, refused_sheet, most_words};
ghost use Rattle.stream.specs.Pieces.{most_kept, opening, end_prints};
ghost use Rattle.stream.specs.Calls.{pending_of, ended, open_answer, Lent, ByteKept, ByteTaken, PieceTaken};

use fsbm::limits::POSITIONS;
use fsbm::machine::Machine;
use images::Kinds;
use stateset::StateSet;

// The most words that are listed.
pub const MOST_WORDS: usize = 99999;

// The answer of open: the table of a sheet without fault, and how many bytes of output there are.
#[derive(Clone, Copy)]
pub struct Opened {
    pub table: Option<Machine>,
    pub used: usize,
}

// What is held between two pieces: how many bytes of the present line are kept, and how many words are listed. Only this crate makes
// one: a program has it from begin and from take_piece.
#[derive(Clone, Copy)]
pub struct Held {
    kept: usize,
    words: usize,
}

// What is held after a piece, and how many bytes of output there are.
#[derive(Clone, Copy)]
pub struct Taken {
    pub held: Held,
    pub used: usize,
}

// Copies bytes to the front of out.
fn copy(bytes: &[u8], out: &mut [u8])
    requires { length bytes.now ≤ length out.old }
    ensures { out.new ≡ put 0 out.old bytes.now }
{
    for (i, b) in bytes.iter().enumerate() {
        out[i] = *b;
    }
}

// Writes the line of a refused sheet, 19 bytes, to the front of out.
fn write_refused(number: u8, out: &mut [u8])
    requires { 19 ≤ length out.old }
    ensures { out.new ≡ put 0 out.old (refused_sheet number) }
{
    copy(b"SHEET REFUSED", out);
    columns::write_number(out, 13, number as usize);
    out[18] = 10;
}

// Writes the header, 16 bytes, to the front of out.
fn write_header(out: &mut [u8])
    requires { 16 ≤ length out.old }
    ensures { out.new ≡ put 0 out.old header }
{
    copy(b"  NO.  ANS  REF\n", out);
}

// Reads the sheet into the list, and writes to the front of out what is printed ahead of any input: the header, or the line of a
// refused sheet with the number of its first fault in reading order, 1 to 7, after which no more is printed. The list has at least
// 12,000 elements, so that 15 cannot come; the list of a refused sheet stays as it was.
// Time: the sheet once. Memory: what is lent, and that of reading the sheet.
pub fn open(sheet: &[u8], list: &mut [u16], out: &mut [u8]) -> Opened
    requires { (12000 ≤ length list.old) × (19 ≤ length out.old) }
    ensures { (result ≡ open_answer sheet.now) × (list.new ≡ read_list sheet.now list.old) × (out.new ≡ put 0 out.old (opening sheet.now)) }
{
    match sheet_reader::read_sheet(sheet, list) {
        Ok(machine) => {
            write_header(out);
            Opened {
                table: Some(machine),
                used: 16,
            }
        }
        Err(refusal) => {
            write_refused(refusal.number(), out);
            Opened {
                table: None,
                used: 19,
            }
        }
    }
}

// What is held before any input.
pub fn begin() -> Held
    ensures { result ≡ record { kept = 0; words = 0 } }
{
    Held { kept: 0, words: 0 }
}

// Whether the last word is listed, so that no further piece prints anything.
pub fn is_full(held: Held) -> bool
    ensures { result ≡ leb most_words held.words }
{
    MOST_WORDS <= held.words
}

// Prints the word in the kept bytes of a line behind the output so far.
fn end_line(
    m: Machine,
    list: &[u16],
    targets: &[StateSet],
    kinds: Kinds,
    line: &[u8],
    out: &mut [u8],
    p: Taken,
    rows: &mut [StateSet],
    steps: &mut [u16],
    sets: &mut [StateSet; POSITIONS],
) -> Taken
    requires ready { Ready m list.now targets.now kinds × Working m targets.now kinds rows.old steps.old sets.old }
    requires kept_in_bounds { (p.held.kept ≤ length line.now) × (p.held.words < most_words) × (p.used + 16 ≤ length out.old) }
    ensures value { (result ≡ ended p) × (out.new ≡ put p.used out.old (word_line m list.now (p.held.words + 1) (take p.held.kept line.now))) }
    ensures working { Working m targets.now kinds rows.new steps.new sets.new }
{
    let kept = p.held.kept;
    let words = p.held.words + 1;
    let used = p.used;
    let answer = lines::answer_line(m, list, targets, kinds, &line[..kept], rows, steps, sets);
    lines::write_line(out, used, words, answer);
    Taken {
        held: Held { kept: 0, words },
        used: used + 16,
    }
}

// Keeps one byte more of a line, as long as there is room.
fn keep(line: &mut [u8], kept: usize, b: u8) -> usize
    requires { kept ≤ length line.old }
    ensures { ByteKept line.old kept b result line.new }
{
    if line.len() <= kept {
        return kept;
    }
    line[kept] = b;
    kept + 1
}

// One byte of input: the end of a line, or one byte more of it; nothing after the last word.
fn take_byte(
    m: Machine,
    list: &[u16],
    targets: &[StateSet],
    kinds: Kinds,
    b: u8,
    line: &mut [u8],
    out: &mut [u8],
    p: Taken,
    rows: &mut [StateSet],
    steps: &mut [u16],
    sets: &mut [StateSet; POSITIONS],
) -> Taken
    requires ready { Ready m list.now targets.now kinds × Working m targets.now kinds rows.old steps.old sets.old }
    requires lent { Lent line.old out.old p }
    ensures byte_taken { ByteTaken m list.now b p line.old out.old result line.new out.new }
    ensures working { Working m targets.now kinds rows.new steps.new sets.new }
{
    if MOST_WORDS <= p.held.words {
        return p;
    }
    if b == 10 {
        return end_line(m, list, targets, kinds, line, out, p, rows, steps, sets);
    }
    let kept = keep(line, p.held.kept, b);
    let words = p.held.words;
    Taken {
        held: Held { kept, words },
        used: p.used,
    }
}

// Takes a piece of the input: prints its words from the front of out on, 16 bytes each, and keeps in the line buffer what has come
// of the last line. A line's refusals are those of lines::answer_line. The line buffer has 1,276 bytes, the output 16 for each byte of
// the piece; what the line buffer holds past the bytes kept is left open. The other three are what is lent from word to word
// (accepts::prepared::accepts_next).
// Time: the piece once, and the time of the words' decisions. Memory: none but what is lent.
pub fn take_piece(
    m: Machine,
    list: &[u16],
    targets: &[StateSet],
    kinds: Kinds,
    piece: &[u8],
    line: &mut [u8],
    out: &mut [u8],
    held: Held,
    rows: &mut [StateSet],
    steps: &mut [u16],
    sets: &mut [StateSet; POSITIONS],
) -> Taken
    requires ready { Ready m list.now targets.now kinds × Working m targets.now kinds rows.old steps.old sets.old }
    requires line_len { (length line.old ≡ most_kept) × (held.kept ≤ most_kept) × (16 * length piece.now ≤ length out.old) }
    ensures piece_taken { PieceTaken m list.now piece.now held line.old out.old result line.new out.new }
    ensures working { Working m targets.now kinds rows.new steps.new sets.new }
{
    let mut p = Taken { held, used: 0 };
    for b in piece {
        p = take_byte(m, list, targets, kinds, *b, line, out, p, rows, steps, sets);
    }
    p
}

// Prints the last line, which no byte 10 ends, to the front of out, unless it is empty; answers how many bytes of output there are.
// Time: that of the word's decision. Memory: none but what is lent.
pub fn finish(
    m: Machine,
    list: &[u16],
    targets: &[StateSet],
    kinds: Kinds,
    line: &[u8],
    out: &mut [u8],
    held: Held,
    rows: &mut [StateSet],
    steps: &mut [u16],
    sets: &mut [StateSet; POSITIONS],
) -> usize
    requires ready { Ready m list.now targets.now kinds × Working m targets.now kinds rows.old steps.old sets.old }
    requires kept_in_bounds { (held.kept ≤ length line.now) × (16 ≤ length out.old) }
    ensures { (result ≡ length (end_prints m list.now (pending_of line.now held))) × (out.new ≡ put 0 out.old (end_prints m list.now (pending_of line.now held))) }
{
    if MOST_WORDS <= held.words {
        return 0;
    }
    if held.kept == 0 {
        return 0;
    }
    let p = Taken { held, used: 0 };
    let last = end_line(m, list, targets, kinds, line, out, p, rows, steps, sets);
    last.used
}
