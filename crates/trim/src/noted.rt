// A node's note. Marking leaves one at every node, and trimming goes by it.
ghost use Rattle.std.specs.Prelude.{◌≡◌, ◌||◌, ◌≤◌};
ghost use Rattle.trim.specs.inner.Notes.{ending_of, note_with, holds, ends_of};

// Whether a first child can end, or, of a try, an exit in its body ends there: never; only where the statement may be started; also
// where it is only resumed.
#[derive(Clone, Copy, Debug, PartialEq, Eq)]
pub enum Ending {
    Never,
    Started,
    Always,
}

impl Ending {
    fn of(resumed: bool, started: bool) -> Ending
        ensures { result ≡ ending_of resumed started }
    {
        if resumed {
            Ending::Always
        } else if started {
            Ending::Started
        } else {
            Ending::Never
        }
    }

    fn holds(self, started: bool) -> bool
        ensures { result ≡ holds self started }
    {
        match self {
            Ending::Never => false,
            Ending::Started => started,
            Ending::Always => true,
        }
    }
}

// The place of a second child, which stands after the first, 0 where there is none and none is asked for, since an Option would make the
// note six bytes of four; whether the statement is live, so that something of it is left where
// it is only resumed; and what is known of its first or only child.
#[derive(Clone, Copy, Debug, PartialEq, Eq)]
pub struct Note {
    second: u16,
    live: bool,
    ending: Ending,
}

impl Note {
    // The note of a node without children that is not live.
    pub const NONE: Note = Note {
        second: 0,
        live: false,
        ending: Ending::Never,
    };

    pub fn new(second: usize, live: bool, resumed: bool, started: bool) -> Note
        requires { second ≤ 1024 }
        ensures { result ≡ note_with second live resumed started }
    {
        Note {
            second: second as u16,
            live,
            ending: Ending::of(resumed, started),
        }
    }

    pub fn second(self) -> usize
        ensures { result ≡ self.second }
    {
        self.second as usize
    }

    // Whether anything may be left of the statement: it may be started, or is live.
    pub fn may_stay(self, started: bool) -> bool
        ensures { result ≡ (started || self.live) }
    {
        started | self.live
    }

    // Whether the child can end, or the try is kept, where the statement may be started or is only resumed.
    pub fn ends(self, started: bool) -> bool
        ensures { result ≡ ends_of self started }
    {
        self.ending.holds(started)
    }
}
