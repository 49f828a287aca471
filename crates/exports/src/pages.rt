// The page of a reading, for other languages.
ghost use Rattle.std.specs.Prelude.{◌≡◌, length};
ghost use Rattle.page.specs.Page.{page_after, page_values};
ghost use Rattle.exports.specs.Records.{counted};

use crate::records::Counted;
use fsbm::machine::Machine;

// page::write_page: how many bytes are written.
#[unsafe(no_mangle)]
pub extern "C" fn zagvirk_write_page(
    machine: Machine,
    list: &[u16],
    word: &[u8],
    run: &[u16],
    page: &mut [u8],
) -> Counted
    ensures answer { result ≡ counted (page_values machine list.now word.now run.now (length page.old)) }
    ensures written { page.new ≡ page_after machine list.now word.now run.now page.old }
{
    Counted::from(page::write_page(machine, list, word, run, page))
}
