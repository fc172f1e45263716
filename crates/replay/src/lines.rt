// The lines that a replay prints, each put by a writer.
ghost use Rattle.std.specs.Prelude.{◌≡◌, cond, List, Some, ℕ};
ghost use Rattle.number_sets.specs.Sets.{member};
ghost use Rattle.parity.specs.Coefficient.{rule_of};
ghost use Rattle.text.specs.Ascii.{ascii};
ghost use Rattle.text.specs.Decimal.{decimal, field};
ghost use Rattle.text.specs.Writer.{Puts};
ghost use Rattle.replay.specs.Lines.{refused_line, files_of, numbers_line};
ghost use Rattle.replay.specs.declared.events.Event.{Event};
ghost use Rattle.replay.specs.Events.{told, EventLine};

use inventory::Inventory;
use number_sets::has;
use text::Writer;

// The line after an event, of which a replay, or `told`, tells this: the missing files that are recoverable, or the refusal. An inventory that
// no calls give is `refused 10`.
pub fn put_line(writer: &mut Writer, event: Result<Inventory, u32>)
    ensures { ((e : Event) → told e ≡ Some event → (line : List ℕ) × EventLine rule_of e line × Puts writer.old writer.new line)
        × ((k : ℕ) → event ≡ Err k → Puts writer.old writer.new (refused_line k)) }
{
    match event {
        Ok(inventory) => match inventory.recoverable_files() {
            Ok(files) => put_files(writer, inventory.n, files),
            Err(number) => put_refused(writer, number),
        },
        Err(number) => put_refused(writer, number),
    }
}

// The line of a refusal.
fn put_refused(writer: &mut Writer, number: u32)
    ensures { Puts writer.old writer.new (refused_line number) }
{
    writer.put_field(b"refused ", u64::from(number));
    writer.put(b'\n');
}

// The line of the files of a set, of n.
fn put_files(writer: &mut Writer, n: u64, set: [u64; 4])
    ensures { Puts writer.old writer.new (numbers_line (files_of n (member set))) }
{
    let mut any = false;
    for k in 0..n {
        if has(set, k + 1) {
            put_number(writer, any, k + 1);
            any = true;
        }
    }
    if any {
        writer.put(b'\n');
    } else {
        writer.put_bytes(b"none\n");
    }
}

// A number, after a space where one stands before it.
fn put_number(writer: &mut Writer, any: bool, number: u64)
    ensures { Puts writer.old writer.new (cond any (field (ascii " ") number) (decimal number)) }
{
    if any {
        writer.put_field(b" ", number);
    } else {
        writer.put_decimal(number);
    }
}
