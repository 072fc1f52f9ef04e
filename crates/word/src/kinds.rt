// The numbers of document 01 by name: what a word is, and what its fields say. A number that is read from a word becomes a name by `try_from` where it has to be one of them. A
// field of a word that is known to be in range is compared as a number, as in `kind(w) == Kind::Row as u32`: the definitions and the table of operand counts go by number, and in
// the innermost loops a name would be made only to be compared.
// The five `try_from` are alike, one arm for each name: an impl that a macro of this repository wrote would be refused.
ghost use Rattle.word.specs.Kinds.{IsClass, IsTableType, IsRelation, IsChange, IsAssertionType};

// A number that no name stands for.
#[derive(Clone, Copy, PartialEq, Eq)]
pub struct Unnamed(pub u32);

// What a word is, by its top four bits. 0 and the numbers from 12 on are no kind.
#[derive(Clone, Copy, PartialEq, Eq)]
pub enum Kind {
    Variable = 1,
    Table = 2,
    Row = 3,
    Test = 4,
    Not = 5,
    And = 6,
    Or = 7,
    Change = 8,
    Constant = 9,
    Assertion = 10,
    InputEvent = 11,
}

// The class of a variable.
#[derive(Clone, Copy, PartialEq, Eq)]
pub enum Class {
    Monitored = 1,
    ModeClass = 2,
    Term = 3,
    Controlled = 4,
}

impl TryFrom<u32> for Class {
    type Error = Unnamed;

    ghost try_from_gives = { IsClass };

    fn try_from(number: u32) -> Result<Self, Unnamed> {
        match number {
            1 => Ok(Class::Monitored),
            2 => Ok(Class::ModeClass),
            3 => Ok(Class::Term),
            4 => Ok(Class::Controlled),
            _ => Err(Unnamed(number)),
        }
    }
}

// The type of a table.
#[derive(Clone, Copy, PartialEq, Eq)]
pub enum TableType {
    Mode = 1,
    Event = 2,
    Condition = 3,
}

impl TryFrom<u32> for TableType {
    type Error = Unnamed;

    ghost try_from_gives = { IsTableType };

    fn try_from(number: u32) -> Result<Self, Unnamed> {
        match number {
            1 => Ok(TableType::Mode),
            2 => Ok(TableType::Event),
            3 => Ok(TableType::Condition),
            _ => Err(Unnamed(number)),
        }
    }
}

// A test: a variable equals a value, or is at most that value.
#[derive(Clone, Copy, PartialEq, Eq)]
pub enum Relation {
    Equals = 0,
    AtMost = 1,
}

impl TryFrom<u32> for Relation {
    type Error = Unnamed;

    ghost try_from_gives = { IsRelation };

    fn try_from(number: u32) -> Result<Self, Unnamed> {
        match number {
            0 => Ok(Relation::Equals),
            1 => Ok(Relation::AtMost),
            _ => Err(Unnamed(number)),
        }
    }
}

// A change, @T or @F: a condition becomes true, or false.
#[derive(Clone, Copy, PartialEq, Eq)]
pub enum Change {
    BecomesTrue = 1,
    BecomesFalse = 2,
}

impl TryFrom<u32> for Change {
    type Error = Unnamed;

    ghost try_from_gives = { IsChange };

    fn try_from(number: u32) -> Result<Self, Unnamed> {
        match number {
            1 => Ok(Change::BecomesTrue),
            2 => Ok(Change::BecomesFalse),
            _ => Err(Unnamed(number)),
        }
    }
}

// The one type of assertion.
#[derive(Clone, Copy, PartialEq, Eq)]
pub enum AssertionType {
    OfStates = 1,
}

impl TryFrom<u32> for AssertionType {
    type Error = Unnamed;

    ghost try_from_gives = { IsAssertionType };

    fn try_from(number: u32) -> Result<Self, Unnamed> {
        match number {
            1 => Ok(AssertionType::OfStates),
            _ => Err(Unnamed(number)),
        }
    }
}
