// The calls on inventories in lent bytes. Bytes of another length than an inventory's, or of no code, are loaded as the inventory of zeros,
// which every call refuses with 10.
ghost use Rattle.std.specs.Prelude.{◌≡◌};
ghost use Rattle.inventory.specs.Model.{add_file, remove_file, remove_volume, quarantine, release};
ghost use Rattle.inventory.specs.Steps.{change_step};
ghost use Rattle.par1_c.specs.Inventories.{open_into, changed_by, added_by, count_into, QueryInto};

use codes::Code;
use inventory_bytes::{answer_number, loaded, opened, store, store_count};
use refusals::OUT_OF_RANGE;

// Opens an inventory for volumes of a code, of n files, whose sizes are n numbers, over the first 144 bytes of `out`.
#[unsafe(no_mangle)]
pub extern "C" fn par1_open(code: u32, n: u64, sizes: &[u8], out: &mut [u8]) -> u32
    ensures { (result, out.new) ≡ open_into code n sizes.now out.old }
{
    let Ok(code) = Code::try_from(u64::from(code)) else {
        return OUT_OF_RANGE;
    };
    store(opened(code, n, sizes), out)
}

// Adds a file to what is present.
#[unsafe(no_mangle)]
pub extern "C" fn par1_add_file(inventory: &mut [u8], file: u64) -> u32
    ensures { (result, inventory.new) ≡ changed_by (change_step add_file) file inventory.old }
{
    store(loaded(inventory).add_file(file), inventory)
}

// Removes a file from what is present.
#[unsafe(no_mangle)]
pub extern "C" fn par1_remove_file(inventory: &mut [u8], file: u64) -> u32
    ensures { (result, inventory.new) ≡ changed_by (change_step remove_file) file inventory.old }
{
    store(loaded(inventory).remove_file(file), inventory)
}

// Adds a volume of a code to what is present.
#[unsafe(no_mangle)]
pub extern "C" fn par1_add_volume(inventory: &mut [u8], code: u32, volume: u64) -> u32
    ensures { (result, inventory.new) ≡ added_by code volume inventory.old }
{
    let Ok(code) = Code::try_from(u64::from(code)) else {
        return OUT_OF_RANGE;
    };
    store(loaded(inventory).add_volume(code, volume), inventory)
}

// Removes a volume from what is present or in quarantine.
#[unsafe(no_mangle)]
pub extern "C" fn par1_remove_volume(inventory: &mut [u8], volume: u64) -> u32
    ensures { (result, inventory.new) ≡ changed_by (change_step remove_volume) volume inventory.old }
{
    store(loaded(inventory).remove_volume(volume), inventory)
}

// Sets a volume that is present aside.
#[unsafe(no_mangle)]
pub extern "C" fn par1_quarantine(inventory: &mut [u8], volume: u64) -> u32
    ensures { (result, inventory.new) ≡ changed_by (change_step quarantine) volume inventory.old }
{
    store(loaded(inventory).quarantine(volume), inventory)
}

// Takes a volume back that is in quarantine.
#[unsafe(no_mangle)]
pub extern "C" fn par1_release(inventory: &mut [u8], volume: u64) -> u32
    ensures { (result, inventory.new) ≡ changed_by (change_step release) volume inventory.old }
{
    store(loaded(inventory).release(volume), inventory)
}

// How many files and how many volumes are present, and how many volumes are in quarantine, three numbers over the first 24 bytes of `out`.
#[unsafe(no_mangle)]
pub extern "C" fn par1_count(inventory: &[u8], out: &mut [u8]) -> u32
    ensures { (result, out.new) ≡ count_into inventory.now out.old }
{
    store_count(loaded(inventory).count(), out)
}

// Whether a file comes back: 0, and its 255 weights over the first bytes of `out`; 12 undetermined; 13 present; or a refusal.
#[unsafe(no_mangle)]
pub extern "C" fn par1_query(inventory: &[u8], file: u64, out: &mut [u8]) -> u32
    ensures { QueryInto inventory.now file out.old result out.new }
{
    answer_number(loaded(inventory).query(file, out))
}
