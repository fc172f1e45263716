// The calls that write or read text about files.
ghost use Rattle.std.specs.Prelude.{◌≡◌};
ghost use Rattle.lent_bytes.specs.Writing.{written};
ghost use Rattle.comparing.specs.Comparing.{comparison_of};
ghost use Rattle.md5sum_text.specs.Export.{export_into};
ghost use Rattle.md5sum_text.specs.Import.{import_into};
ghost use Rattle.par1_c.specs.Answers.{answered_length};

use crate::{answer, length_told};

// Writes a line for each difference of two index files or volumes; the value of the answer is their length.
#[unsafe(no_mangle)]
pub extern "C" fn par1_compare<'a, 'b>(one: &'a [u8], two: &'a [u8], out: &'b mut [u8]) -> u64
    ensures { (result, out.new) ≡ answered_length (written (comparison_of one.now two.now) out.old) }
{
    answer(length_told(comparing::compare(one, two, out)))
}

// Writes a line of md5sum text for each entry of a file over the first bytes of `out`; the value of the answer is the length of the text.
#[unsafe(no_mangle)]
pub extern "C" fn par1_export(file: &[u8], out: &mut [u8]) -> u64
    ensures { (result, out.new) ≡ answered_length (export_into file.now out.old) }
{
    answer(length_told(md5sum_text::export(file, out)))
}

// Holds md5sum text against the entries of a file: a byte for each entry over the first bytes of `out`; the value of the answer is the number of
// entries, or the number of the line that is refused.
#[unsafe(no_mangle)]
pub extern "C" fn par1_import(file: &[u8], text: &[u8], out: &mut [u8]) -> u64
    ensures { (result, out.new) ≡ answered_length (import_into file.now text.now out.old) }
{
    answer(length_told(md5sum_text::import(file, text, out)))
}
