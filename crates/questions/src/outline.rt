// Where the questions of signs end.
use crate::layout::MAX_SIGNS;

// Of a question with so many signs: for each of them the sign behind the question that begins there. It stands in fixed
// memory, since the library allocates nothing, and all of it is written, so that one equation can say what it is.
#[derive(Clone, Copy, PartialEq, Eq, Debug)]
pub struct Outline {
    pub count: usize,
    pub ends: [usize; MAX_SIGNS],
}
