// Sheets and written words, for other languages.
ghost use Rattle.std.specs.Prelude.{◌≡◌, length};
ghost use Rattle.sheet.specs.Reading.{read_list, read_values};
ghost use Rattle.sheet.specs.Writing.{write_sheet, write_values};
ghost use Rattle.spelling.specs.Spelling.{translate_word, translate_values};
ghost use Rattle.exports.specs.Records.{counted, machine_record};

use crate::records::{Counted, MachineRecord};
use fsbm::machine::Machine;

// sheet_reader::read_sheet.
#[unsafe(no_mangle)]
pub extern "C" fn zagvirk_read_sheet(sheet: &[u8], list: &mut [u16]) -> MachineRecord
    ensures { (result ≡ machine_record (read_values sheet.now (length list.old))) × (list.new ≡ read_list sheet.now list.old) }
{
    MachineRecord::from(sheet_reader::read_sheet(sheet, list))
}

// sheet_writer::write_sheet: how many bytes are written.
#[unsafe(no_mangle)]
pub extern "C" fn zagvirk_write_sheet(machine: Machine, list: &[u16], sheet: &mut [u8]) -> Counted
    ensures { (result ≡ counted (write_values machine list.now (length sheet.old))) × (sheet.new ≡ write_sheet machine list.now sheet.old) }
{
    Counted::from(sheet_writer::write_sheet(machine, list, sheet))
}

// spelling::translate: how many letters are written.
#[unsafe(no_mangle)]
pub extern "C" fn zagvirk_translate(bytes: &[u8], word: &mut [u8]) -> Counted
    ensures { (result ≡ counted (translate_values bytes.now (length word.old))) × (word.new ≡ translate_word bytes.now word.old) }
{
    Counted::from(spelling::translate(bytes, word))
}
