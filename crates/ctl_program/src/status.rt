//! How the program ends.

/// How the program ends.
#[derive(Clone, Copy, Debug, PartialEq, Eq)]
pub enum Status {
    /// What was looked at is as it should be.
    Right,
    /// Something in it is wrong, and was told.
    Wrong,
    /// It could not be looked at.
    Unread,
}

impl Status {
    /// The exit status.
    pub fn code(self) -> u8 {
        match self {
            Status::Right => 0,
            Status::Wrong => 1,
            Status::Unread => 2,
        }
    }

    /// The status where this was wrong, or not.
    pub fn of(is_right: bool) -> Status {
        if is_right {
            Status::Right
        } else {
            Status::Wrong
        }
    }
}
