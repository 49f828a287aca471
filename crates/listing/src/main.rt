// The listing program. It reads the sheet in the file table.txt and words from standard input, one a line, letters in columns of five,
// and prints for each word its number, 1 yes, 0 no or 2 turned down, and the refusal's number or 0. It stops after 99,999 words. A
// bad sheet prints SHEET REFUSED and the number; a file that cannot be opened is an empty sheet. It stops reading as soon as a write
// fails.
//
// What is printed is decided in crate stream; here a piece of the input is read, handed on, and its output written. Each write goes by
// a function that asks for the bytes of the definition, and takes what these are defined from beside them.
//
// Memory: two buffers of 64 KB, one of 4 KB, a line, the table (12 KB more while it is read), what it is prepared to (128 KB) and what is
// kept from word to word (74 KB), whatever comes in.

#![tactic(auto)]

ghost use Rattle.std.specs.Prelude.{ℕ, ◌≤◌, ◌≡◌, true, false, length, get_or};
ghost use Rattle.fsbm.specs.Machine.{well_formed};
ghost use Rattle.accepts.specs.Ready.{Ready, Working};
ghost use Rattle.stream.specs.Pieces.{most_kept, opening};
ghost use Rattle.listing.specs.Output.{ReadFrom, HeldAfter, NextBytes, LastBytes, Buffers, PieceListed, done};

use accepts::prepared;
use fsbm::limits::{LIST_LENGTH, POSITIONS};
use fsbm::machine::Machine;
use images::Kinds;
use stateset::StateSet;
use std::fs::File;
use std::io::{Read, Write};
use stream::Held;
use subsets::{ROWS, STEPS};
use targets::MOST_SETS;

// The bytes of the input that are read at a time.
const PIECE: usize = 4096;

// The bytes of a table that are read, more than any sheet has, and of output that a piece of the input may make.
const LARGE: usize = 65536;

// The bytes of a line that are kept: one more than a word's line may have, which shows that it is too long.
const LINE: usize = 1276;

// What a piece leaves: what is held, how many bytes of input came, and whether the output is closed, since a write has failed.
#[derive(Clone, Copy)]
pub struct Turn {
    pub held: Held,
    pub count: usize,
    pub closed: bool,
}

// Writes all of some bytes to standard output; answers whether that went well.
fn write_bytes(rt: &HostRuntime, bytes: &[u8]) -> bool {
    rt.stdout().write_all(bytes).is_ok()
}

// Reads some bytes; answers how many came, 0 at the end or where it cannot be read.
fn read_some<R: Read>(from: &mut R, bytes: &mut [u8]) -> usize
    ensures { result ≤ length bytes.new }
{
    match from.read(bytes) {
        Ok(n) => n,
        Err(_) => 0,
    }
}

// Writes what is printed ahead of any input; answers whether that went well.
fn write_opening(rt: &HostRuntime, sheet: &[u8], bytes: &[u8]) -> bool
    requires { bytes.now ≡ opening sheet.now }
{
    write_bytes(rt, bytes)
}

// Writes what is printed for a piece of the input; answers whether that went well.
fn write_piece(rt: &HostRuntime, sheet: &[u8], piece: &[u8], bytes: &[u8]) -> bool
    requires { NextBytes sheet.now piece.now bytes.now }
{
    write_bytes(rt, bytes)
}

// Writes what is printed at the end of the input.
fn write_end(rt: &HostRuntime, sheet: &[u8], line: &[u8], t: Turn, bytes: &[u8])
    requires { LastBytes sheet.now line.now t bytes.now }
{
    write_bytes(rt, bytes);
}

// Reads a piece of the input, and writes what is printed for it. It reads only while the output is open.
fn list_piece(
    rt: &HostRuntime,
    sheet: &[u8],
    m: Machine,
    list: &[u16],
    targets: &[StateSet],
    kinds: Kinds,
    input: &mut [u8],
    line: &mut [u8],
    out: &mut [u8],
    t: Turn,
    rows: &mut [StateSet],
    steps: &mut [u16],
    sets: &mut [StateSet; POSITIONS],
) -> Turn
    requires ready { Ready m list.now targets.now kinds × Working m targets.now kinds rows.old steps.old sets.old }
    requires read_from { ReadFrom sheet.now m list.now }
    requires buffers { Buffers input.old line.old out.old t.held }
    requires held_after { HeldAfter line.old t.held }
    requires closed_value { t.closed ≡ false }
    ensures piece_listed { PieceListed m list.now t.held line.old out.old result input.new line.new out.new }
    ensures working { Working m targets.now kinds rows.new steps.new sets.new }
{
    let held = t.held;
    let mut stdin = rt.stdin();
    let count = read_some(&mut stdin, input);
    let taken = stream::take_piece(
        m,
        list,
        targets,
        kinds,
        &input[..count],
        line,
        out,
        held,
        rows,
        steps,
        sets,
    );
    let written = write_piece(rt, sheet, &input[..count], &out[..taken.used]);
    Turn {
        held: taken.held,
        count,
        closed: !written,
    }
}

// Whether the input has ended, the last word is listed or the output is closed.
fn is_done(t: Turn) -> bool
    ensures { result ≡ done t }
{
    t.count == 0 || stream::is_full(t.held) || t.closed
}

// Reads standard input to its end and lists its words. A loop that is proved ends, so it counts its turns down from a number that no
// run uses up.
fn take_input(
    rt: &HostRuntime,
    sheet: &[u8],
    m: Machine,
    list: &[u16],
    targets: &[StateSet],
    kinds: Kinds,
    input: &mut [u8],
    line: &mut [u8],
    out: &mut [u8],
    rows: &mut [StateSet],
    steps: &mut [u16],
    sets: &mut [StateSet; POSITIONS],
) -> Turn
    requires ready { Ready m list.now targets.now kinds × Working m targets.now kinds rows.old steps.old sets.old }
    requires read_from { ReadFrom sheet.now m list.now }
    requires buffers { Buffers input.old line.old out.old (record { kept = 0; words = 0 }) }
    ensures held_after { HeldAfter line.new result.held × (result.held.kept ≤ most_kept) × (done result ≡ true) }
    ensures working { Working m targets.now kinds rows.new steps.new sets.new }
{
    let mut t = Turn {
        held: stream::begin(),
        count: 0,
        closed: false,
    };
    for _ in 0..u64::MAX {
        t = list_piece(
            rt, sheet, m, list, targets, kinds, input, line, out, t, rows, steps, sets,
        );
        if is_done(t) {
            return t;
        }
    }
    Turn { closed: true, ..t }
}

// Lists the last line, unless the output is closed.
fn end_input(
    rt: &HostRuntime,
    sheet: &[u8],
    m: Machine,
    list: &[u16],
    targets: &[StateSet],
    kinds: Kinds,
    line: &[u8],
    out: &mut [u8],
    t: Turn,
    rows: &mut [StateSet],
    steps: &mut [u16],
    sets: &mut [StateSet; POSITIONS],
)
    requires ready { Ready m list.now targets.now kinds × Working m targets.now kinds rows.old steps.old sets.old }
    requires read_from { ReadFrom sheet.now m list.now }
    requires held_after { HeldAfter line.now t.held × (t.held.kept ≤ length line.now) × (16 ≤ length out.old) × (done t ≡ true) }
{
    if t.closed {
        return;
    }
    let used = stream::finish(
        m, list, targets, kinds, line, out, t.held, rows, steps, sets,
    );
    write_end(rt, sheet, line, t, &out[..used]);
}

// Lists the words of standard input over a table.
fn list_words(
    rt: &HostRuntime,
    sheet: &[u8],
    m: Machine,
    list: &[u16],
    targets: &[StateSet],
    kinds: Kinds,
    out: &mut [u8],
)
    requires ready { Ready m list.now targets.now kinds }
    requires read_from { ReadFrom sheet.now m list.now }
    requires in_bounds { 65536 ≤ length out.old }
{
    let mut input = [0; PIECE];
    let mut line = [0; LINE];
    let mut rows: [StateSet; ROWS] = [0; ROWS];
    rows[0] = 1;
    let mut steps = [0; STEPS];
    let mut sets: [StateSet; POSITIONS] = [0; POSITIONS];
    let t = take_input(
        rt, sheet, m, list, targets, kinds, &mut input, &mut line, out, &mut rows, &mut steps,
        &mut sets,
    );
    end_input(
        rt, sheet, m, list, targets, kinds, &line, out, t, &mut rows, &mut steps, &mut sets,
    );
}

// Prepares the table once, and lists the words of standard input over it.
fn list_prepared(rt: &HostRuntime, sheet: &[u8], m: Machine, list: &[u16], out: &mut [u8])
    requires list_value { well_formed m list.now ≡ true }
    requires read_from { ReadFrom sheet.now m list.now }
    requires in_bounds { 65536 ≤ length out.old }
{
    let mut targets: [StateSet; MOST_SETS] = [0; MOST_SETS];
    let kinds = prepared::prepare(m, list, &mut targets);
    list_words(rt, sheet, m, list, &targets, kinds, out);
}

// Prints the listing of a sheet and standard input.
fn list_sheet(rt: &HostRuntime, sheet: &[u8]) {
    let mut list = [0; LIST_LENGTH];
    let mut out = [0; LARGE];
    let opened = stream::open(sheet, &mut list, &mut out);
    if !write_opening(rt, sheet, &out[..opened.used]) {
        return;
    }
    if let Some(machine) = opened.table {
        list_prepared(rt, sheet, machine, &list, &mut out);
    }
}

// Reads a file from where it stands until the buffer is full, the file ends or a read fails; answers how many bytes came.
fn read_full(file: &mut File, table: &mut [u8]) -> usize
    ensures { result ≤ length table.new }
{
    let mut n: usize = 0;
    // No range: a read says how many bytes came.
    while n < table.len() {
        let got = read_some(file, &mut table[n..]);
        if got == 0 {
            return n;
        }
        n += got;
    }
    n
}

// Reads the file table.txt, as much of it as is longer than any sheet, and answers how many bytes came; 0 where it cannot be opened.
fn read_table(rt: &HostRuntime, table: &mut [u8]) -> usize
    ensures { result ≤ length table.new }
{
    match File::open(rt, "table.txt") {
        Ok(mut file) => read_full(&mut file, table),
        Err(_) => 0,
    }
}

// Reads the table and lists the words of standard input.
fn main(rt: HostRuntime) {
    let mut table = [0; LARGE];
    let n = read_table(&rt, &mut table);
    list_sheet(&rt, &table[..n]);
}
