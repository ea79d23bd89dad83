// What a finish gives, joined by hand.

use spd_words::{FinishKind, NO_FAULT};

/// A gift, and the least code of a fault.
#[derive(Clone, Copy, Debug, PartialEq, Eq)]
pub struct Given {
    pub gift: i64,
    pub code: u64,
}

/// What a finish of this kind gives to which nothing was given.
pub fn nothing(kind: FinishKind) -> Given {
    let gift = match kind {
        FinishKind::Plain | FinishKind::Sum => 0,
        FinishKind::Least => i64::MAX,
        FinishKind::Greatest => i64::MIN,
    };
    Given {
        gift,
        code: NO_FAULT,
    }
}

/// A value that is offered to a finish.
pub fn value(gift: i64) -> Given {
    Given {
        gift,
        code: NO_FAULT,
    }
}

/// The code of a fault in a finish of this kind.
pub fn fault(kind: FinishKind, code: u64) -> Given {
    Given {
        gift: nothing(kind).gift,
        code,
    }
}

impl Given {
    /// Both together, in a finish of this kind.
    pub fn with(self, kind: FinishKind, other: Given) -> Given {
        let gift = match kind {
            FinishKind::Plain => 0,
            FinishKind::Sum => self.gift.wrapping_add(other.gift),
            FinishKind::Least => self.gift.min(other.gift),
            FinishKind::Greatest => self.gift.max(other.gift),
        };
        Given {
            gift,
            code: self.code.min(other.code),
        }
    }
}

/// What the two words of a finish of this kind say: the greater the word of a least or a greatest, the
/// better its value, and 0 stands for none.
pub fn read(kind: FinishKind, word: u64, code: u64) -> Given {
    let gift = match kind {
        FinishKind::Plain => 0,
        FinishKind::Sum => word.cast_signed(),
        FinishKind::Least => i64::MAX.wrapping_sub(word.cast_signed()),
        FinishKind::Greatest => i64::MIN.wrapping_add(word.cast_signed()),
    };
    Given { gift, code }
}
