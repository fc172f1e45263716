// The writes of an amendment, in place (document 02, 2026-05).
ghost use Rattle.std.specs.Prelude.{◌≡◌, ◌≤◌, length};
ghost use Rattle.amending.specs.Plan.{summed, hashed_set, controlled, patched};

use crate::planning::{Change, Plan};
use par1_rules::{hashes, layout};

impl Plan {
    // Writes what the plan changes of a volume in the first `present` bytes of `volume`, and leaves all else. The control hash is last.
    pub(crate) fn patch(self, volume: &mut [u8], present: usize, change: &Change, entry: &[u8])
        requires { (present ≤ self.total) × (self.stretch_at ≤ self.total) × (self.total ≤ length volume.old) × (32 ≤ self.total) }
        ensures { volume.new ≡ patched self present change.now.old.now change.now.new.now entry.now volume.old }
    {
        volume[present..self.total].fill(0);
        self.add_stretch(volume, change);
        lent_bytes::put(volume, self.entry_at, entry);
        little_endian::write64(volume, layout::DATA_SIZE_AT, self.data_size);
        self.put_set_hash(volume);
        self.put_control_hash(volume);
    }

    // Adds the coefficient times the old and the new bytes of the stretch to the data.
    fn add_stretch(self, volume: &mut [u8], change: &Change)
        requires { (self.stretch_at ≤ self.total) × (self.total ≤ length volume.old) }
        ensures { volume.new ≡ summed self.weight self.stretch_at self.total change.now.old.now change.now.new.now volume.old }
    {
        let data = &mut volume[self.stretch_at..self.total];
        mul_add::mul_add(self.weight, change.old, data);
        mul_add::mul_add(self.weight, change.new, data);
    }

    // Writes the set hash of the list.
    fn put_set_hash(self, volume: &mut [u8])
        ensures { volume.new ≡ hashed_set self.list_size volume.old }
    {
        let set_hash = hashes::of_set(layout::part(volume, layout::HEADER_LENGTH, self.list_size));
        lent_bytes::put(volume, layout::SET_HASH_AT, &set_hash);
    }

    // Writes the control hash.
    fn put_control_hash(self, volume: &mut [u8])
        requires { (32 ≤ self.total) × (self.total ≤ length volume.old) }
        ensures { volume.new ≡ controlled self.total volume.old }
    {
        let control_hash = md5_digest::digest(&volume[layout::SET_HASH_AT..self.total]);
        lent_bytes::put(volume, layout::CONTROL_HASH_AT, &control_hash);
    }
}
