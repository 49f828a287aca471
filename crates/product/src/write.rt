// The transitions of the product, written in order.
//
// write_product   all of them
// write_rows      for each state of the first
// write_row       for each state of the second
// write_pair      for each transition of the first from its state that gives something
// next_move       the next such transition
// write_moves     what it gives: itself where it is epsilon, else one for each transition of the second by its letter
ghost use Rattle.std.specs.Prelude.{ℕ, ◌+◌, ◌*◌, ◌-◌, ◌≤◌, ◌<◌, ◌^◌, ◌≡◌, [], ◌∷◌, length};
ghost use Rattle.fsbm.specs.Machine.{transition_at};
ghost use Rattle.basics.specs.Lists.{put};
ghost use Rattle.product.specs.Each.{each};
ghost use Rattle.product.specs.Letters.{Searching, NextMove};
ghost use Rattle.product.specs.Order.{Lower, Block, Moving};
ghost use Rattle.product.specs.Product.{joint_moves, flat, joined_from, joined_transitions, join_fault};

use crate::factors::{Factors, Indexed};
use crate::letters;
use crate::letters::KEYS;
use fsbm::machine;
use fsbm::machine::Transition;
use fsbm::table::Table;
use std::ops::Range;

// The first transition from j on whose key is not below y; the number of transitions where there is none.
fn lower(t: &Table, j: usize, y: usize) -> usize
    requires { j ≤ t.now.machine.transitions }
    ensures { Lower t.now.list.now t.now.machine.transitions j y result }
{
    let n = t.machine.transitions;
    (j..n)
        .find(|u| y <= letters::key(t.transition(*u)))
        .unwrap_or(n)
}

// The number of the pair (q, s), s one of n states.
fn pair(n: u16, q: u16, s: u16) -> u16
    requires { q * n + s < 2 ^ 16 }
    ensures { result ≡ q * n + s }
{
    q * n + s
}

// Writes one transition at place k of the list.
fn put(list: &mut [u16], k: usize, from: u16, letter: u16, to: u16)
    requires { k + 3 ≤ length list.old }
    ensures { list.new ≡ put k list.old (from ∷ letter ∷ to ∷ []) }
{
    list[k] = from;
    list[k + 1] = letter;
    list[k + 2] = to;
}

// Writes for each transition of the second in the span one with its to-state added to base.
fn write_letter(
    second_list: &[u16],
    span: Range<usize>,
    from: u16,
    letter: u16,
    base: u16,
    list: &mut [u16],
    k: usize,
)
    requires lo_le_hi { span.start ≤ span.end }
    requires by_index { (u : ℕ) → u < span.end → base + (transition_at second_list.now u).to < 2 ^ 16 }
    requires lo_in_bounds { k + (span.end - span.start) * 3 ≤ length list.old }
    ensures { list.new
        ≡ put k list.old
        (each span.start (span.end - span.start) (λ u. from ∷ letter ∷ (base + (transition_at second_list.now u).to) ∷ [])) }
{
    let mut at = k;
    for u in span.start..span.end {
        let t = machine::transition_at(second_list, u);
        put(list, at, from, letter, base + t.to);
        at += 3;
    }
}

// Writes what transition t of the first gives at state r of the second. Returns the place behind it.
fn write_moves(t: Transition, second: &Indexed, r: u16, list: &mut [u16], at: usize) -> usize
    requires moving { Moving second.now.table.now.machine.states second.now.table.now.machine.transitions second.now.table.now.list.now second.now.starts.now r t }
    requires t_in_bounds { at
        + length (flat (joint_moves second.now.table.now.machine.states second.now.table.now.machine.transitions second.now.table.now.list.now r t))
        ≤ length list.old }
    ensures list_after { list.new
        ≡ put at list.old (flat (joint_moves second.now.table.now.machine.states second.now.table.now.machine.transitions second.now.table.now.list.now r t)) }
    ensures value { result
        ≡ at + length (flat (joint_moves second.now.table.now.machine.states second.now.table.now.machine.transitions second.now.table.now.list.now r t)) }
{
    let n = second.table.machine.states as u16;
    let from = pair(n, t.from, r);
    if t.letter == 0 {
        put(list, at, from, 0, pair(n, t.to, r));
        return at + 3;
    }
    let y = usize::from(r) * 256 + usize::from(t.letter);
    let lo = usize::from(second.starts[y]);
    let hi = lower(second.table, lo, y + 1);
    write_letter(
        second.table.list,
        lo..hi,
        from,
        t.letter,
        pair(n, t.to, 0),
        list,
        at,
    );
    at + (hi - lo) * 3
}

// The first transition from i up to hi, all from state p, whose letter is in the set, if there is one.
fn next_move(first: &Indexed, letters: &[u64; 4], p: usize, i: usize, hi: usize) -> Option<usize>
    requires { Searching first.now.table.now.list.now first.now.starts.now letters.now p i hi }
    ensures { NextMove first.now.table.now.list.now letters.now i hi result }
{
    if hi <= i {
        return None;
    }
    let t = machine::transition_at(first.table.list, i);
    let x = usize::from(t.letter);
    let b = letters::next_letter(letters, x)?;
    if b == x {
        return Some(i);
    }
    Some(usize::from(first.starts[p * 256 + b]))
}

// Writes the transitions of the product from the pair (p, r); those of the first from p are the span. Returns the place behind them.
fn write_pair(
    f: &Factors,
    p: usize,
    span: &Range<usize>,
    r: usize,
    list: &mut [u16],
    k: usize,
) -> usize
    requires block { Block f.now.first.table.now.list.now f.now.first.table.now.machine.transitions p span.now.start span.now.end }
    requires p_lt_states { (p < f.now.first.table.now.machine.states) × (r < f.now.second.table.now.machine.states) }
    requires r_in_bounds { k
        + length (flat (joined_from f.now.first.table.now.machine f.now.first.table.now.list.now f.now.second.table.now.machine f.now.second.table.now.list.now p r))
        ≤ length list.old }
    ensures list_after { list.new
        ≡ put k list.old
        (flat (joined_from f.now.first.table.now.machine f.now.first.table.now.list.now f.now.second.table.now.machine f.now.second.table.now.list.now p r)) }
    ensures value { result
        ≡ k
        + length (flat (joined_from f.now.first.table.now.machine f.now.first.table.now.list.now f.now.second.table.now.machine f.now.second.table.now.list.now p r)) }
{
    let hi = span.end;
    let state = r as u16;
    let letters = letters::common_letters(f.first.keys, p, f.second.keys, r);
    let mut at = k;
    let mut next = next_move(&f.first, &letters, p, span.start, hi);
    // No range: a move is found from the one before it.
    while let Some(i) = next {
        let t = f.first.table.transition(i);
        at = write_moves(t, &f.second, state, list, at);
        next = next_move(&f.first, &letters, p, i + 1, hi);
    }
    at
}

// Writes the transitions of the product from the pairs of state p of the first, whose transitions are the span. Returns the place
// behind them.
fn write_row(f: &Factors, p: usize, span: &Range<usize>, list: &mut [u16], k: usize) -> usize
    requires block { Block f.now.first.table.now.list.now f.now.first.table.now.machine.transitions p span.now.start span.now.end }
    requires p_lt_states { p < f.now.first.table.now.machine.states }
    requires r_in_bounds { k
        + length (flat (each 0 f.now.second.table.now.machine.states
        (λ r. joined_from f.now.first.table.now.machine f.now.first.table.now.list.now f.now.second.table.now.machine f.now.second.table.now.list.now p r)))
        ≤ length list.old }
    ensures list_after { list.new
        ≡ put k list.old
        (flat (each 0 f.now.second.table.now.machine.states
        (λ r. joined_from f.now.first.table.now.machine f.now.first.table.now.list.now f.now.second.table.now.machine f.now.second.table.now.list.now p r))) }
    ensures value { result
        ≡ k
        + length (flat (each 0 f.now.second.table.now.machine.states
        (λ r. joined_from f.now.first.table.now.machine f.now.first.table.now.list.now f.now.second.table.now.machine f.now.second.table.now.list.now p r))) }
{
    let mut at = k;
    for r in 0..f.second.table.machine.states {
        at = write_pair(f, p, span, r, list, at);
    }
    at
}

// Writes all transitions of the product at the front of the list.
fn write_rows(f: &Factors, list: &mut [u16])
    requires { length
        (joined_transitions f.now.first.table.now.machine f.now.first.table.now.list.now f.now.second.table.now.machine f.now.second.table.now.list.now)
        ≤ length list.old }
    ensures { list.new
        ≡ put 0 list.old
        (joined_transitions f.now.first.table.now.machine f.now.first.table.now.list.now f.now.second.table.now.machine f.now.second.table.now.list.now) }
{
    let first = f.first.table;
    let mut k = 0;
    let mut lo = 0;
    for p in 0..first.machine.states {
        let hi = lower(first, lo, p * 256 + 256);
        k = write_row(f, p, &(lo..hi), list, k);
        lo = hi;
    }
}

// Writes the transitions of the product at the front of the list. It has a frame of its own, 72 KB, so that the tests of the two tables, which
// come before it, do not stand on top of it.
#[inline(never)]
pub fn write_product<'t>(first: &'t Table<'t>, second: &'t Table<'t>, list: &mut [u16])
    requires second_list_value { join_fault first.now.machine first.now.list.now second.now.machine second.now.list.now ≡ 0 }
    requires second_list_in_bounds { length (joined_transitions first.now.machine first.now.list.now second.now.machine second.now.list.now)
        ≤ length list.old }
    ensures { list.new ≡ put 0 list.old (joined_transitions first.now.machine first.now.list.now second.now.machine second.now.list.now) }
{
    let mut first_starts = [0; KEYS];
    letters::note_starts(first, &mut first_starts);
    let first_keys = letters::key_set(first);
    let mut second_starts = [0; KEYS];
    letters::note_starts(second, &mut second_starts);
    let second_keys = letters::key_set(second);
    let one = Indexed {
        table: first,
        starts: &first_starts,
        keys: &first_keys,
    };
    let two = Indexed {
        table: second,
        starts: &second_starts,
        keys: &second_keys,
    };
    let f = Factors {
        first: one,
        second: two,
    };
    write_rows(&f, list);
}
