// Writes a shortest common word with a run of each machine, from the least weights of their product.
ghost use Rattle.found.specs.Runs.{Writable, Runs};

use blocks::numbers::Pairs;
use blocks::searched::Searched;
use blocks::sizes::MOST_PAIRS;
use fsbm::machine::Machine;
use fsbm::table::Table;
use least::turns::Weights;
use shortest::traced::Traced;

// Writes the word, and the runs of the first and of the second machine; each fills its slice. searched is the product, weights its least
// weights, f the final state that is aimed at; pairs is room to work in.
// Time: that of the product's run, and of its entries looked up in the two lists. Memory: 16 KB.
pub fn write_runs(
    first: Machine,
    first_list: &[u16],
    second: Machine,
    second_list: &[u16],
    searched: &Searched,
    weights: &Weights,
    pairs: &mut Pairs,
    f: usize,
    word: &mut [u8],
    run: &mut [u16],
    other: &mut [u16],
)
    requires { Writable first first_list.now second second_list.now searched.now.table.machine searched.now.table.list.now weights.now.least pairs.old.numbers f word.old run.old other.old }
    ensures { Runs first first_list.now second second_list.now word.new run.new other.new }
{
    let traced = Traced::new(searched, weights);
    // Room for the entries of the storing half of a copy.
    let mut later = [0; MOST_PAIRS];
    traced.write(pairs, f, word, run, &mut later);
    let one = Table {
        machine: first,
        list: first_list,
    };
    let two = Table {
        machine: second,
        list: second_list,
    };
    split::split::split(&one, &two, searched.table.list, run, other);
}
