// The product of two machines and the copy list of a run.
ghost use Rattle.std.specs.Prelude.{◌≡◌, length};
ghost use Rattle.copies.specs.Copies.{copied_values, copies_after, copies_values};
ghost use Rattle.product.specs.Product.{join_values, join_after};
ghost use Rattle.exports.specs.Products.{copy_list_record};
ghost use Rattle.exports.specs.Records.{machine_record};

use crate::records::MachineRecord;
use copies::Copied;
use fsbm::answer::Refusal;
use fsbm::machine::Machine;

// The answer of zagvirk_list_copies: refusal is 0 on success; on a refusal copies and total are 0.
#[repr(C)]
#[derive(Clone, Copy, Debug, PartialEq, Eq)]
pub struct CopyList {
    pub refusal: u8,
    pub needed: usize,
    pub copies: usize,
    pub total: usize,
}

impl From<Result<Copied, Refusal>> for CopyList {
    ghost from_gives = { λ answer r. r ≡ copy_list_record (copied_values answer) };

    fn from(answer: Result<Copied, Refusal>) -> CopyList {
        match answer {
            Ok(copied) => CopyList {
                refusal: 0,
                needed: 0,
                copies: copied.copies,
                total: copied.total,
            },
            Err(refusal) => CopyList {
                refusal: refusal.number(),
                needed: refusal.needed(),
                copies: 0,
                total: 0,
            },
        }
    }
}

// product::join.
#[unsafe(no_mangle)]
pub extern "C" fn zagvirk_join(
    first: Machine,
    first_list: &[u16],
    second: Machine,
    second_list: &[u16],
    list: &mut [u16],
) -> MachineRecord
    ensures answer { result ≡ machine_record (join_values first first_list.now second second_list.now (length list.old)) }
    ensures written { list.new ≡ join_after first first_list.now second second_list.now list.old }
{
    MachineRecord::from(product::join(first, first_list, second, second_list, list))
}

// copies::list_copies.
#[unsafe(no_mangle)]
pub extern "C" fn zagvirk_list_copies(
    machine: Machine,
    list: &[u16],
    word: &[u8],
    run: &[u16],
    copies: &mut [u16],
) -> CopyList
    ensures answer { result ≡ copy_list_record (copies_values machine list.now word.now run.now (length copies.old)) }
    ensures written { copies.new ≡ copies_after machine list.now word.now run.now copies.old }
{
    CopyList::from(copies::list_copies(machine, list, word, run, copies))
}
