// The kinds of lines, by the numbers that the table in form.rt gives them.

#[derive(Clone, Copy, PartialEq, Eq)]
pub enum Kind {
    Open = 1,
    Totals = 2,
    Set = 3,
    SetEach = 4,
    Remove = 5,
    Compare = 6,
    Get = 7,
    Scan = 8,
    Frame = 9,
    ReadFrame = 10,
    Put = 11,
    Case = 12,
    Reading = 13,
    Pack = 14,
    Turn = 15,
    Portion = 16,
}

// The kind that has this number, if one has.
pub fn of(number: u64) -> Option<Kind> {
    let kind = match number {
        1 => Kind::Open,
        2 => Kind::Totals,
        3 => Kind::Set,
        4 => Kind::SetEach,
        5 => Kind::Remove,
        6 => Kind::Compare,
        7 => Kind::Get,
        8 => Kind::Scan,
        9 => Kind::Frame,
        10 => Kind::ReadFrame,
        11 => Kind::Put,
        12 => Kind::Case,
        13 => Kind::Reading,
        14 => Kind::Pack,
        15 => Kind::Turn,
        16 => Kind::Portion,
        _ => return None,
    };
    Some(kind)
}
