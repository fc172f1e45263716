// Where the entry of a file lies in its list.
ghost use Rattle.std.specs.Prelude.{◌≡◌, ◌-◌};
ghost use Rattle.entries.specs.Walk.{entries_of};
ghost use Rattle.amending.specs.Plan.{span_in};

// A part of a list: where it starts, and its length.
#[derive(Clone, Copy)]
pub struct Span {
    pub from: usize,
    pub length: usize,
}

// Where the entry of file `file` lies in `list`; no bytes at the end of the entries where there is none.
pub(crate) fn entry_of(list: &[u8], file: u64) -> Span
    ensures { result ≡ span_in (entries_of list.now).pieces (file - 1) }
{
    let mut saved_before = file.saturating_sub(1);
    let mut from: usize = 0;
    for entry in entries::of(list) {
        let saved = entries::saved_count(entries::status_of(entry));
        if saved_before < saved {
            return Span {
                from,
                length: entry.len(),
            };
        }
        saved_before -= saved;
        from += entry.len();
    }
    Span { from, length: 0 }
}
