// The sums of a file's list as md5sum text, and such text held against the list (document 02, 2026-07).
#![tactic(auto)]

ghost use Rattle.std.specs.Prelude.{◌≡◌};
ghost use Rattle.md5sum_text.specs.Export.{export_into};
ghost use Rattle.md5sum_text.specs.Import.{import_into};

mod exports;
mod lines;
mod names;
mod sums;

use par1_read::refusal_of;
use par1_rules::layout;
use refusals::{Refusal, bare};
use text::Writer;

// A line for each entry of `file`, over the first bytes of `out`, and the length of them all.
pub fn export(file: &[u8], out: &mut [u8]) -> Result<usize, Refusal>
    ensures { (result, out.new) ≡ export_into file.now out.old }
{
    let reading = par1_read::read(file);
    let Ok(parts) = reading else {
        return Err(refusal_of(reading));
    };
    let list = layout::part(file, layout::HEADER_LENGTH, parts.list_size as usize);
    if !exports::all_fitting(list) {
        return Err(bare(refusals::UNFIT));
    }
    exports::export_list(list, out)
}

// For each entry of `file` a byte over the first bytes of `out`, and their number: 0 where no line of `text` names it, 1 where one does with
// its sum, 2 where one does with another. The lines are held against the entries twice, for the faults first: a refused import changes no byte.
pub fn import(file: &[u8], text: &[u8], out: &mut [u8]) -> Result<usize, Refusal>
    ensures { (result, out.new) ≡ import_into file.now text.now out.old }
{
    let reading = par1_read::read(file);
    let Ok(parts) = reading else {
        return Err(refusal_of(reading));
    };
    let list = layout::part(file, layout::HEADER_LENGTH, parts.list_size as usize);
    let shapes = lines::shaped_lines(text);
    let refusal = sums::refusal(list, text, shapes);
    if refusal.number != 0 {
        return Err(refusal);
    }
    if (out.len() as u64) < parts.entries {
        return Err(bare(refusals::NO_ROOM));
    }
    let mut writer = Writer::new(out);
    sums::put_answers(&mut writer, list, text, shapes.count);
    Ok(writer.position())
}
