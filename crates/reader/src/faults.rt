// What is wrong with the words of a set: refusals 1 to 8, among which 21 counts.

// Each with the number that it carries: the length of the words, the index of a word, or a variable.
#[derive(Clone, Copy, PartialEq, Eq)]
pub enum Fault {
    Length(usize),
    Kind(usize),
    Range(usize),
    Limit(usize),
    Fit(usize),
    NoTable(usize),
    InitialValue(usize),
    States(usize),
    Order(usize),
}
