// What is open where a text is read from its end: a `]`, an `end`, or an `end` with an else branch before it.
#[derive(Clone, Copy, Debug, PartialEq, Eq)]
pub enum Opened {
    Bracket,
    Ending,
    Otherwise,
}

// What is open, with what stands behind it: whether a `;`, whether a `||`, and how many nodes. Where there are too many it is 0 and no
// Option, which would be asked once more what the reader's count tells: that no node is put any more.
#[derive(Clone, Copy)]
pub struct Frame {
    pub opened: Opened,
    pub after: bool,
    pub beside: bool,
    pub behind: u16,
}

pub const NO_FRAME: Frame = Frame {
    opened: Opened::Bracket,
    after: false,
    beside: false,
    behind: 0,
};
