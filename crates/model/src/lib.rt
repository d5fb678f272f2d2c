// The plain types of the index, in the words of document 01.
//
// What they mean stands in specs/: a reader with document 01 in hand finds each of its rules there, one file to an idea.
#![tactic(auto)]

ghost use Rattle.std.specs.Prelude.{◌≡◌};
ghost use Rattle.model.specs.Answer.{number};

// The limits of a tree: how many entries a node may hold, and below how many it is joined.
#[derive(Clone, Copy, PartialEq, Eq)]
pub struct Limits {
    pub order: usize,
    pub minimum: usize,
}

// The settings that a pool is opened with: how many nodes it has, and the limits of each of its two trees.
#[derive(Clone, Copy)]
pub struct PoolSettings {
    pub nodes: usize,
    pub first: Limits,
    pub second: Limits,
}

// What every layer is handed of a tree: the nodes of its pool, its limits, how many rows a slot has room for, and the slot of its root.
#[derive(Clone, Copy)]
pub struct Settings {
    pub nodes: usize,
    pub order: usize,
    pub minimum: usize,
    pub rows: usize,
    pub root: usize,
}

// Where a value lies (place 0 marks a deletion) and how many bytes it has.
#[derive(Clone, Copy)]
pub struct Reference {
    pub place: u64,
    pub size: u32,
}

// A key and its reference.
#[derive(Clone, Copy)]
pub struct Entry {
    pub key: u64,
    pub place: u64,
    pub size: u32,
}

// What a Compare expects to find under a key. (No Option: `Compare(None, None)` would not say which of the two is which.)
#[derive(Clone, Copy)]
pub enum Expectation {
    Absent,
    Holds(Reference),
}

// What a Compare does where its expectation is met. (No Option, for the same reason: to remove is no lack of a value.)
#[derive(Clone, Copy)]
pub enum Action {
    Set(Reference),
    Remove,
}

// What a batch does to each of its keys. The references of a SetEach are lent with the batch, one a key.
#[derive(Clone, Copy)]
pub enum Operation {
    Set(Reference),
    SetEach,
    Remove,
    Compare(Expectation, Action),
}

// A batch as it is called: what it does to each of its keys, the keys, and the references that are lent with it, a place and a size a key. Only a SetEach
// reads these.
#[derive(Clone, Copy)]
pub struct Batch<'a> {
    pub operation: Operation,
    pub keys: &'a [u64],
    pub places: &'a [u64],
    pub sizes: &'a [u32],
}

// What is asked of one key: an action, always or only where an expectation is met.
#[derive(Clone, Copy)]
pub enum Wish {
    Always(Action),
    IfMet(Expectation, Action),
}

// What is done under a key.
#[derive(Clone, Copy)]
pub enum Effect {
    Leave,
    Add(Reference),
    Replace(Reference),
    Remove,
}

// What became of a node that took keys (the Rust's `ChangeResult`).
#[derive(Clone, Copy)]
pub enum ChangeResult {
    Unchanged,
    Remove,
    Absorb,
    Changed,
    Split,
}

// How many keys of a batch added, replaced, removed, or did nothing.
#[derive(Clone, Copy)]
pub struct Counts {
    pub added: usize,
    pub replaced: usize,
    pub removed: usize,
    pub nothing: usize,
}

// The number of live entries, of dead ones, and the sum of the sizes of the live ones.
#[derive(Clone, Copy, PartialEq, Eq)]
pub struct Totals {
    pub live: u32,
    pub dead: u32,
    pub size: u64,
}

// One end of a scan's range.
#[derive(Clone, Copy)]
pub enum Bound {
    Unbounded,
    Included(u64),
    Excluded(u64),
}

#[derive(Clone, Copy)]
pub enum Direction {
    Up,
    Down,
}

// Which sizes a scan lists. (No Option: beside two bounds a `None` would not say what it lets pass.)
#[derive(Clone, Copy)]
pub enum Sift {
    All,
    SizeAtLeast(u32),
}

// What a scan asks: a range with its direction, and a sift.
#[derive(Clone, Copy)]
pub struct Request {
    pub start: Bound,
    pub end: Bound,
    pub direction: Direction,
    pub sift: Sift,
}

// Why a call is refused: the table of document 01. What is lent to a refused call stays as it was.
#[derive(Clone, Copy, PartialEq, Eq)]
pub enum Refusal {
    WrongSettings,
    Unsound,
    TooManyKeys,
    ReferencesMiscounted,
    KeysDescend,
    TooHigh,
    TooFewUnused,
    EmptyLine,
    NotHex,
    PartOfAnEntry,
    TooManyEntries,
    KeysNotAscending,
    UnknownHeader,
    NoSuchNode,
    MalformedLine,
    LineTooShort,
    SettingsDiffer,
    TargetNotNew,
    NoSuchTree,
}

// The number that the table gives it.
impl From<Refusal> for u32 {
    ghost from_gives = { λ r n. n ≡ number r };

    fn from(r: Refusal) -> u32 {
        match r {
            Refusal::WrongSettings => 1,
            Refusal::Unsound => 2,
            Refusal::TooManyKeys => 3,
            Refusal::ReferencesMiscounted => 4,
            Refusal::KeysDescend => 5,
            Refusal::TooHigh => 6,
            Refusal::TooFewUnused => 7,
            Refusal::EmptyLine => 8,
            Refusal::NotHex => 9,
            Refusal::PartOfAnEntry => 10,
            Refusal::TooManyEntries => 11,
            Refusal::KeysNotAscending => 12,
            Refusal::UnknownHeader => 13,
            Refusal::NoSuchNode => 14,
            Refusal::MalformedLine => 15,
            Refusal::LineTooShort => 16,
            Refusal::SettingsDiffer => 17,
            Refusal::TargetNotNew => 18,
            Refusal::NoSuchTree => 19,
        }
    }
}
