// What a share keeps of promises. No value of these structs is made: they are entries of a view.
// A gift has room for 128 bits, so that a wider sum leaves the entries as they are.

use spd_words::FinishKind;

/// What is still owed: a gift, a least code of a fault and a number of moves.
#[derive(Clone, Copy)]
pub struct Owed {
    pub gift: i128,
    pub fault: u64,
    pub moves: u64,
}

/// What a finish is to give.
#[derive(Clone, Copy)]
pub struct Expected {
    pub kind: FinishKind,
    pub gift: i128,
    pub fault: u64,
}

/// What was given to a make: the kind of finish 0, whether its body is wild, and what it promises.
#[derive(Clone, Copy)]
pub struct Whole {
    pub kind: FinishKind,
    pub wild: u64,
    pub owes: Owed,
}
