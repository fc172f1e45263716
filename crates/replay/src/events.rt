// A log event by event: the first line opens an inventory, each further line changes it.
ghost use Rattle.std.specs.Prelude.{◌≡◌, ◌-◌, true, false, get_or, length, MatchResult};
ghost use Rattle.std.specs.Iterator.{at_most};
ghost use Rattle.inventory.specs.Outcome.{Outcome};
ghost use Rattle.inventory.specs.Steps.{change_step, handed_back};
ghost use Rattle.replay.specs.Log.{change_of, is_letter, is_event_line, number_in};
ghost use Rattle.replay.specs.Events.{ended, opening, last, taken, next_event, told, GoesOn, Gives};

use crate::first_line::open_line;
use codes::Code;
use inventory::{Inventory, Refused};
use refusals::{EVENT, MAX_LISTED_LENGTH, SIZE};
use text::{is_decimal, line_length, value_of};

// What an event gave: 0 or the number of its refusal, whether the replay is over, where the next line starts, and what is present.
// Over with 0 is the end of the log.
#[derive(Clone, Copy)]
pub struct Event {
    pub number: u32,
    pub over: bool,
    pub from: usize,
    pub inventory: Inventory,
}

// A replay of a log after its first line: where the next line starts, and what is present before it. As an iterator it tells of each event
// what is present after it, or its refusal; a line of another shape is the last. `next` gives the same from any place and inventory.
#[derive(Drop)]
pub struct Replay<'a> {
    log: &'a [u8],
    from: usize,
    inventory: Inventory,
}

// The replay of a log: 1 for a log that is too long, 28 for a first line of another shape, 10 or 1 as opening refuses.
pub fn open(log: &[u8]) -> Result<Replay<'_>, u32>
    ensures { MatchResult result (λ r. ((opening log.now).over ≡ false) × GoesOn log.now (opening log.now) r) (λ k. opening log.now ≡ ended k) }
{
    if MAX_LISTED_LENGTH < log.len() {
        return Err(SIZE);
    }
    let from = line_length(log, 0);
    if from == 0 {
        return Err(EVENT);
    }
    let end = from - 1;
    let inventory = open_line(&log[..end])?;
    Ok(Replay {
        log,
        from,
        inventory,
    })
}

impl Replay<'_> {
    // Where the next line starts: at the end of the log where nothing is left.
    pub fn place(&self) -> usize
        ensures { result ≡ self.now.from }
    {
        self.from
    }

    // What is present before the next line.
    pub fn inventory(&self) -> Inventory
        ensures { result ≡ self.now.inventory }
    {
        self.inventory
    }
}

impl Iterator for Replay<'_> {
    type Item = Result<Inventory, u32>;

    ghost next_gives = { Gives };

    ghost remaining = { λ r. at_most (length r.log.now - r.from) };

    // What is present after the event of the next line, or its refusal: 28, the last, for a line of another shape.
    fn next(&mut self) -> Option<Result<Inventory, u32>> {
        let log = self.log;
        let event = next(log, self.place(), self.inventory());
        // nothing is left after the last event
        let from = if event.over { log.len() } else { event.from };
        *self = Replay {
            log,
            from,
            inventory: event.inventory,
        };
        told(event)
    }
}

// The event of the line at `from`, where this inventory is present before it: over with 28 for another shape, and with 0 at the end of the log.
// `told` makes of it what `put_line` takes.
// Not inlined: the copies of the inventory that it makes would lie on the stack below the elimination of each event.
#[inline(never)]
pub fn next(log: &[u8], from: usize, inventory: Inventory) -> Event
    ensures { result ≡ next_event log.now from inventory }
{
    if log.len() <= from {
        return last(0, from, inventory);
    }
    let length = line_length(log, from);
    if length == 0 {
        return last(EVENT, from, inventory);
    }
    let end = from + length - 1;
    let line = &log[from..end];
    if !is_event_line(line) {
        return last(EVENT, from, inventory);
    }
    taken(end + 1, changed(inventory, line))
}

// No event more: the refusal of a line, or 0 at the end of the log.
fn last(number: u32, from: usize, inventory: Inventory) -> Event
    ensures { result ≡ last number from inventory }
{
    Event {
        number,
        over: true,
        from,
        inventory,
    }
}

// What an event gives, the next line of which starts at `from`: what is present after its change, or its refusal, which hands back what was.
fn taken(from: usize, changed: Result<Inventory, Refused>) -> Event
    ensures { (o : Outcome) → changed ≡ handed_back o → result ≡ taken from o }
{
    let (number, inventory) = match changed {
        Ok(inventory) => (0, inventory),
        Err(refused) => (refused.number, refused.inventory),
    };
    Event {
        number,
        over: false,
        from,
        inventory,
    }
}

// What a program is told of an event, for `put_line`: nothing at the end of the log, else what is present after it, or its refusal.
pub fn told(event: Event) -> Option<Result<Inventory, u32>>
    ensures { result ≡ told event }
{
    if event.number != 0 {
        Some(Err(event.number))
    } else if event.over {
        None
    } else {
        Some(Ok(event.inventory))
    }
}

// Whether a line has the shape of an event: a letter, a space, a number.
#[tactic(auto, using(crate::proofs::EventLaws::event_short), unfolding(crate::specs::Log::is_event_line))]
fn is_event_line(line: &[u8]) -> bool
    ensures { result ≡ is_event_line line.now }
{
    line.len() >= 3 && is_letter(line[0]) && line[1] == b' ' && is_decimal(&line[2..])
}

// Whether a letter is one of an event.
#[tactic(auto, unfolding(crate::specs::Log::is_letter))]
fn is_letter(letter: u8) -> bool
    ensures { result ≡ is_letter letter }
{
    matches!(letter, b'F' | b'V' | b'f' | b'v')
}

// What the event of a line makes of an inventory.
fn changed(inventory: Inventory, line: &[u8]) -> Result<Inventory, Refused>
    requires { is_event_line line.now ≡ true }
    ensures { result ≡ handed_back (change_step (change_of (get_or line.now 0 0)) inventory (number_in line.now)) }
{
    changed_by(inventory, line[0], value_of(&line[2..]))
}

// What the change of a letter makes of an inventory.
fn changed_by(inventory: Inventory, letter: u8, number: u64) -> Result<Inventory, Refused>
    ensures { result ≡ handed_back (change_step (change_of letter) inventory number) }
{
    match letter {
        b'F' => inventory.add_file(number),
        b'V' => inventory.add_volume(Code::Powers, number),
        b'f' => inventory.remove_file(number),
        _ => inventory.remove_volume(number),
    }
}
