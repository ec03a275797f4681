// The three counters of Esterel*: labels, exit levels and completion codes. No number is taken from one to another but here.
// And the share of a program that was kept.
#![tactic(auto)]

ghost use Rattle.std.specs.Prelude.{◌≡◌, ◌≤◌};
ghost use Rattle.esterel.specs.Codes.{code_of, through};
ghost use Rattle.esterel.specs.Shares.{thousandths, remainder};

// The label of a pause, 1 to 63.
#[derive(Clone, Copy, PartialEq, Eq, PartialOrd, Ord)]
pub struct Label(pub u8);

// The level of an exit: how many try statements it leaves.
#[derive(Clone, Copy, PartialEq, Eq, PartialOrd, Ord)]
pub struct Level(pub u8);

// A completion code: 0 ended, 1 paused, and above that an exit.
#[derive(Clone, Copy, PartialEq, Eq, PartialOrd, Ord)]
pub struct Code(pub u16);

// The completion code of an exit.
impl From<Level> for Code {
    ghost from_gives = { λ level code. code.0 ≡ code_of level.0 };

    fn from(level: Level) -> Code {
        Code(level.0 as u16 + 1)
    }
}

impl Code {
    // The codes that are not of an exit.
    pub const ENDED: Code = Code(0);

    pub const PAUSED: Code = Code(1);

    // The code of a try whose body completes with this one: less one if it is at least 2, less one more if it is 2. The tests are
    // numbers to take away, so that no jump depends on the code.
    pub fn through_try(self) -> Code
        ensures { result.0 ≡ through self.0 }
    {
        let k = self.0;
        Code(k - (k >= 2) as u16 - (k == 2) as u16)
    }
}

// The share of a program that was kept: whole thousandths of its nodes, and the remainder of that division.
#[derive(Clone, Copy, PartialEq, Eq)]
pub struct Share {
    pub thousandths: u32,
    pub remainder: u32,
}

impl Share {
    // From the nodes of the program and those of the trimmed one.
    pub fn of(before: u16, after: u16) -> Share
        requires { 1 ≤ before }
        ensures { (result.thousandths ≡ thousandths before after) × (result.remainder ≡ remainder before after) }
    {
        let dividend = 1000 * after as u32;
        let divisor = before as u32;
        Share {
            thousandths: dividend / divisor,
            remainder: dividend % divisor,
        }
    }
}
