// The names of entries in md5sum text.
ghost use Rattle.std.specs.Prelude.{◌≡◌};
ghost use Rattle.entries.specs.Entry.{units_of};
ghost use Rattle.lent_bytes.specs.Equal.{equal};
ghost use Rattle.md5sum_text.specs.Names.{unit_fits, units_fit};

// Whether each unit of a name fits a line.
pub(crate) fn units_fit(name: &[u8]) -> bool
    ensures { result ≡ units_fit (units_of name.now) }
{
    entries::units_of(name).all(unit_fits)
}

// Whether a unit fits a line.
fn unit_fits(unit: u16) -> bool
    ensures { result ≡ unit_fits unit }
{
    32 <= unit && unit <= 126
}

// Whether the units of a name are the bytes `text`. How many they are is compared first: a name is held against each line.
pub(crate) fn units_are(name: &[u8], text: &[u8]) -> bool
    ensures { result ≡ equal (units_of name.now) text.now }
{
    let bytes = text.iter().map(|byte| u16::from(*byte));
    name.len() / 2 == text.len() && entries::units_of(name).eq(bytes)
}
