// The runs of a book.

/// What a settle tells: the number of its run, from 1, and how many lines it has added.
#[derive(Clone, Copy, PartialEq, Eq, Debug)]
pub struct Run {
    pub number: u16,
    pub lines: usize,
}
