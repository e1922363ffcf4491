// What a look-up of an extension comes to.
use sheet::declaration::Declaration;

// An extension that was found, and the index of its file.
#[derive(Clone, Copy)]
pub struct Found {
    pub file: usize,
    pub declaration: Declaration,
}

// The candidate that answers: its position among the candidates, counted from 0, and what is found there.
#[derive(Clone, Copy)]
pub struct Candidate {
    pub position: usize,
    pub found: Found,
}

// What the search for an extension of a message comes to: the candidate that answers; or the one that answers where it extends another
// message, with which the search ends.
#[derive(Clone, Copy)]
pub enum Compared {
    Extends(Candidate),
    ExtendsOther(Candidate),
}
