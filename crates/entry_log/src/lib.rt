// The entries of a log as words. Nothing here is hidden: every entry follows from sizes alone. Public for the crates of the
// calls and the programs, which know the log's length: so a function may `require` room.
#![tactic(auto)]

ghost use Rattle.std.specs.Prelude.{◌≡◌, [], ◌∷◌, ◌+◌, ◌*◌, ◌≤◌, ◌<◌, length};
ghost use Rattle.answers.specs.Buffers.{overlay};
ghost use Rattle.network.specs.Log.{entry, entry_words, words, entry_at};
ghost use Rattle.entry_log.specs.Kinds.{number_of};
ghost use Rattle.entry_log.specs.Packed.{packed, unpacked};

// How many words an entry has.
pub const ENTRY_WORDS: usize = 4;

// The words of the longest logs: of set, and of mix or return.
pub const MOST_SET_WORDS: usize = ENTRY_WORDS * counts::MOST_ENTRIES;

pub const MOST_MOVE_WORDS: usize = ENTRY_WORDS * counts::MOST_SWITCHES;

// What was done: a step of the setter (01: steps of the setter), or a switch of mix and return. The number is 01's. An
// entry is written by number, so any that fits a word can be.
#[derive(Clone, Copy, PartialEq, Eq, Debug)]
pub enum Kind {
    Value = 1, // g is the value at f
    Associate = 2, // s is the place that holds g's associate
    Settle = 3, // the bit of s's pair; the pair is marked
    InputSwitches = 4, // they act, and the marks are cleared
    Split = 5, // each value keeps its pair, its trail gains the side
    OutputSwitches = 6, // their bits; they act, and each value is again what it was
    Exchange = 7, // of two blocks
}

impl Kind {
    pub fn number(self) -> u16
        ensures { result ≡ number_of self }
    {
        self as u16
    }
}

// Writes the log's entry number e.
pub fn write_entry(log: &mut [u16], e: usize, kind: u16, first: usize, second: usize, bit: usize)
    requires { (entry_words * (e + 1) ≤ length log.old) × (first < 65536) × (second < 65536) × (bit < 65536) }
    ensures { log.new ≡ overlay log.old (entry_words * e) (words (entry kind first second bit ∷ [])) }
{
    write_packed(log, e, packed(usize::from(kind), first, second, bit));
}

// An entry as one number. That each part is below 65,536 stays a clause: places and positions are `usize` where they come from, and a kind
// may be any number. Entries that are evenly apart are packed once and counted on, so that each is one store.
pub fn packed(kind: usize, first: usize, second: usize, bit: usize) -> usize
    requires { (kind < 65536) × (first < 65536) × (second < 65536) × (bit < 65536) }
    ensures { result ≡ packed kind first second bit }
{
    kind + packed_apart(first, second, bit)
}

// How far apart two packed entries of one kind are, whose numbers are so far apart.
pub fn packed_apart(first: usize, second: usize, bit: usize) -> usize
    requires { (first < 65536) × (second < 65536) × (bit < 65536) }
    ensures { result ≡ packed 0 first second bit }
{
    first * 65536 + second * 4294967296 + bit * 281474976710656
}

// Writes the log's entry number e, which is packed.
pub fn write_packed(log: &mut [u16], e: usize, x: usize)
    requires { entry_words * (e + 1) ≤ length log.old }
    ensures { log.new ≡ overlay log.old (entry_words * e) (words (unpacked x ∷ [])) }
{
    let at = ENTRY_WORDS * e;
    log[at] = (x % 65536) as u16;
    log[at + 1] = (x / 65536 % 65536) as u16;
    log[at + 2] = (x / 4294967296 % 65536) as u16;
    log[at + 3] = (x / 281474976710656) as u16;
}

// The two numbers of the log's entry number e: two functions and not one of a word's number, since the definitions name them so.
pub fn first_of(log: &[u16], e: usize) -> usize
    requires { entry_words * (e + 1) ≤ length log.now }
    ensures { result ≡ (entry_at log.now e).first }
{
    usize::from(log[ENTRY_WORDS * e + 1])
}

pub fn second_of(log: &[u16], e: usize) -> usize
    requires { entry_words * (e + 1) ≤ length log.now }
    ensures { result ≡ (entry_at log.now e).second }
{
    usize::from(log[ENTRY_WORDS * e + 2])
}
