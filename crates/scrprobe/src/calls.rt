// The calls that lend a list or hand a part back.
use crate::text;
use std::alloc::Global;
use std::io;
use std::io::Write;

// The longest lists that are lent.
const MAX_STATES_LENT: usize = 8000;

const MAX_VALUES_LENT: usize = 300;

// The entries of scr.
#[derive(Clone, Copy)]
pub enum Entry {
    Start,
    Step,
    Run,
    Values,
    Rows,
    Check,
}

// A number that no entry has.
#[derive(Clone, Copy)]
pub struct UnknownEntry(pub u32);

// One arm for each name: an impl that a macro of this repository wrote would be refused.
impl TryFrom<u32> for Entry {
    type Error = UnknownEntry;

    fn try_from(number: u32) -> Result<Self, UnknownEntry> {
        match number {
            1 => Ok(Entry::Start),
            2 => Ok(Entry::Step),
            3 => Ok(Entry::Run),
            4 => Ok(Entry::Values),
            5 => Ok(Entry::Rows),
            6 => Ok(Entry::Check),
            _ => Err(UnknownEntry(number)),
        }
    }
}

// The lent list has `room` elements.
pub fn run<W: Write>(
    alloc: Global,
    set: &[u32],
    state: u32,
    events: &[u32],
    place: usize,
    room: usize,
    out: &mut W,
) -> io::Result<()> {
    let mut lent = vec![in alloc; u32::MAX; room.min(MAX_STATES_LENT)]?;
    text::answer(out, "STATE", scr::run(set, state, events, &mut lent, place))?;
    text::list(out, &lent)
}

// The lent list has `room` elements.
pub fn values<W: Write>(
    alloc: Global,
    set: &[u32],
    state: u32,
    room: usize,
    out: &mut W,
) -> io::Result<()> {
    let mut lent = vec![in alloc; 238; room.min(MAX_VALUES_LENT)]?;
    text::answer(out, "VALUES", scr::values(set, state, &mut lent))?;
    text::list(out, &lent)
}

// The part that was handed back is looked for in the set: a table word stands in a set once.
pub fn rows<W: Write>(set: &[u32], variable: u32, out: &mut W) -> io::Result<()> {
    let part = scr::rows(set, variable);
    if part.is_empty() {
        return writeln!(out, "ROWS 0 0");
    }
    let place = set
        .windows(part.len())
        .position(|window| window == part)
        .unwrap_or(set.len());
    writeln!(out, "ROWS {place} {}", part.len())
}
