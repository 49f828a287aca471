// The product of a machine with a plain machine (document 01: the joined table).
//
// join      the public call: the product's record, its transitions in the caller's list
// fault     the refusals of two tables that are joined, and the number of joined transitions
// letters   the transitions of a table by state and letter
// factors   the two tables that are joined, with what is noted of them
// write     the joined transitions, written in order
// marks     the marks of the product

#![tactic(auto)]

ghost use Rattle.fsbm.specs.Answers.{machine_values};
ghost use Rattle.std.specs.Prelude.{◌≡◌, length};
ghost use Rattle.product.specs.Product.{join_answer, join_values, join_after};

use fsbm::answer::Refusal;
use fsbm::machine::Machine;
use fsbm::table::Table;

mod factors;
pub mod fault;
mod letters;
mod marks;
mod write;

// The public call: the product of a machine with a plain machine. Its record is the answer, and its transitions stand at the front
// of the caller's list, strictly rising. It refuses 16 (a record and its list break the rules of a table, the first or the second),
// 10 (the second is not plain), 11 (the letter counts differ), 12 (more than 64 states), 13 (more than 4,000 transitions), 15 (the
// list is too short; three numbers a transition are needed), in this order. A refusal leaves the list as it was; on success what
// stands past the transitions is as it was.
// Time: in proportion to the tables and the transitions written. Each table is passed a fixed number of times, and for each of the at
// most 64 pairs of states only the letters by which both are left, and letter 0. Memory: 72 KB.
pub fn join(
    first: Machine,
    first_list: &[u16],
    second: Machine,
    second_list: &[u16],
    list: &mut [u16],
) -> Result<Machine, Refusal>
    ensures answer { result ≡ join_answer first first_list.now second second_list.now (length list.old) }
    ensures values { machine_values result ≡ join_values first first_list.now second second_list.now (length list.old) }
    ensures written { list.new ≡ join_after first first_list.now second second_list.now list.old }
{
    let transitions = fault::first_fault(first, first_list, second, second_list)?;
    let needed = transitions * 3;
    if list.len() < needed {
        return Err(Refusal::ShortList(needed));
    }
    let one = Table {
        machine: first,
        list: first_list,
    };
    let two = Table {
        machine: second,
        list: second_list,
    };
    write::write_product(&one, &two, list);
    let marks = marks::joined_marks(first, second);
    Ok(Machine {
        states: first.states * second.states,
        letters: first.letters,
        transitions,
        marks,
    })
}
