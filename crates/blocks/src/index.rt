// The index of a machine's transitions by state and letter. A state and a letter are one number, the key: state × stride + letter, where
// the stride is one more than the number of letters. The list rises, so the transitions of a key stand together.
//
// index     for each key the number of transitions with a lower key, so that the transitions of a key y have the numbers from index[y] up
//           to, not including, index[y + 1]
ghost use Rattle.std.specs.Prelude.{◌+◌, ◌*◌, ◌≤◌, ◌<◌, ◌≡◌, leb, length};
ghost use Rattle.blocks.specs.Stretches.{key_of, Found, Stretches};

use crate::sizes::MOST_KEYS;
use fsbm::table::Table;

// The key of transition k.
fn key(list: &[u16], stride: usize, k: usize) -> usize
    requires { (stride ≤ 251) × (k * 3 + 3 ≤ length list.now) }
    ensures { result ≡ key_of list.now stride k }
{
    usize::from(list[k * 3]) * stride + usize::from(list[k * 3 + 1])
}

// The first transition from k on, below n, whose key is at least y; n where there is none.
fn seek(list: &[u16], stride: usize, k: usize, n: usize, y: usize) -> usize
    requires { (stride ≤ 251) × (k ≤ n) × (n * 3 ≤ length list.now) }
    ensures { Found list.now stride k n y result }
{
    (k..n)
        .find(
            |&r|
                requires { (stride ≤ 251) × (r * 3 + 3 ≤ length list.now) }
                ensures { result ≡ leb y (key_of list.entry.now stride r) }
            { y <= key(list, stride, r) },
        )
        .unwrap_or(n)
}

// Writes the index of a table's list into starts. Where no key is, starts stays as it was.
// Time: the keys and the transitions, each once.
pub fn index(table: &Table, starts: &mut [u16; MOST_KEYS])
    ensures { Stretches table.now.machine table.now.list.now starts.new }
{
    let stride = table.machine.letters + 1;
    let keys = table.machine.states * stride;
    let mut k: usize = 0;
    for y in 0..keys + 1 {
        k = seek(table.list, stride, k, table.machine.transitions, y);
        starts[y] = k as u16;
    }
}
