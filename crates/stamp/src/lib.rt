// RFC 3339 stamps: a civil moment with its offset, read from text and written as text.
#![tactic(auto)]

use calendar::moments::Moment;

pub mod read;
pub mod write;

// Minutes east of UTC, or west of it where `west` is 1. West by 0 is the offset that is not known, "-00:00".
#[derive(Clone, Copy)]
pub struct Offset {
    pub west: u32,
    pub minutes: u32,
}

// A civil moment as written, and its offset.
#[derive(Clone, Copy)]
pub struct Stamp {
    pub moment: Moment,
    pub offset: Offset,
}
