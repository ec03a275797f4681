// The reader: it takes the parts of a text from the last to the first. Every `]` and `end` is met before what it closes, so 60 frames
// suffice; a statement is met after the `;` or `||` behind it, so chains are loops.
ghost use Rattle.std.specs.Prelude.{◌≡◌, ◌≢◌, ◌≤◌, ◌&&◌, true, length};
ghost use Rattle.text.specs.Parts.{Word};
ghost use Rattle.text.specs.Spelling.{letters_of, last_of};
ghost use Rattle.text.specs.Reading.{label_ranged, signal_ranged};
ghost use Rattle.text.specs.inner.Lexer.{is_digit};
ghost use Rattle.reader.specs.inner.Nodes.{made, verdict_for, verdict_of};
ghost use Rattle.reader.specs.inner.Held.{numbered_state, named_state, due_state, state, Ready, Chained, Took, Headings, Found};

use crate::frames::Opened;
use crate::lexing::Rest;
use crate::moves::{Reader, Room, Stage};
use table::{DEEPEST, Refusal};

// "a number is out of its kind's range": labels and levels.
#[tactic(auto, unfolding(text::specs::Reading::label_ranged))]
fn label_ranged(value: u8) -> bool
    ensures { result ≡ label_ranged value }
{
    (1..=63).contains(&value)
}

// The same of a signal: one comparison, since no number is below 0; a range would say no more.
#[tactic(auto, unfolding(text::specs::Reading::signal_ranged))]
fn signal_ranged(value: u8) -> bool
    ensures { result ≡ signal_ranged value }
{
    value <= 31
}

// The signal behind `signal` or `present`, with that word before it.
fn heading<'a>(text: Rest<'a>, letters: &[u8]) -> Option<(u8, Rest<'a>)>
    ensures { (w : Word) → letters.now ≡ letters_of w → Headings text.entry.bytes.now w result }
{
    let (value, behind) = text.signal()?;
    let before = behind.skip().word(letters)?;
    Some((value, before))
}

// What is taken from the end of a text: what stands before it, and where the reader stands there.
impl Reader {
    // A number was met, which is in its range or not.
    fn within(self, ranged: bool) -> Self
        ensures { result ≡ record self { ranged = self.ranged && ranged } }
    {
        Reader {
            ranged: self.ranged & ranged,
            ..self
        }
    }

    // The word before a number.
    fn take_number<'a>(self, text: Rest<'a>, room: &mut Room, value: u8) -> Option<(Rest<'a>, Self)>
        requires { Ready self room.old }
        ensures { Took text.entry.bytes.now (numbered_state self value room.old) self.ranged result room.new }
    {
        if let Some(before) = text.word(b"exit") {
            let exit = table::node_of(table::EXIT, value);
            return Some((before, self.leaf(room, exit)));
        }
        let before = text.word(b"gotopause")?;
        let gotopause = table::node_of(table::GOTOPAUSE, value);
        Some((before, self.leaf(room, gotopause)))
    }

    // The word before a signal where a statement must end: `emit`, or `present` without a branch right behind it.
    fn take_signal<'a>(
        self,
        text: Rest<'a>,
        room: &mut Room,
        signal: u8,
    ) -> Option<(Rest<'a>, Self)>
        requires { Ready self room.old }
        ensures { Took text.entry.bytes.now (named_state self signal room.old) self.ranged result room.new }
    {
        if let Some(before) = text.word(b"emit") {
            let emit = table::node_of(table::EMIT, signal);
            return Some((before, self.leaf(room, emit)));
        }
        let before = text.word(b"present")?;
        Some((before, self.bare(room, signal)?))
    }

    // A digit is the last byte of a statement: that of a number, or of a signal where S stands before it.
    fn take_digits<'a>(self, text: Rest<'a>, room: &mut Room) -> Option<(Rest<'a>, Self)>
        requires { (is_digit (last_of text.bytes.now) ≡ true) × Ready self room.old }
        ensures { Took text.entry.bytes.now (due_state self room.old) self.ranged result room.new }
    {
        let (value, behind) = text.number()?;
        if let Some(before) = behind.word(b"S") {
            let named = self.within(signal_ranged(value));
            return named.take_signal(before.skip(), room, value);
        }
        if behind.touches() {
            return None;
        }
        let numbered = self.within(label_ranged(value));
        numbered.take_number(behind.skip(), room, value)
    }

    // A pause with its label.
    fn take_pause<'a>(self, text: Rest<'a>, room: &mut Room) -> Option<(Rest<'a>, Self)>
        requires { (last_of text.bytes.now ≡ 101) × Ready self room.old }
        ensures { Took text.entry.bytes.now (due_state self room.old) self.ranged result room.new }
    {
        let behind = text.before(b":pause")?;
        let (label, before) = behind.number()?;
        if before.touches() {
            return None;
        }
        let labelled = self.within(label_ranged(label));
        let pause = table::node_of(table::PAUSE, label);
        Some((before, labelled.leaf(room, pause)))
    }

    // The last part of a statement is due.
    fn take_due<'a>(self, text: Rest<'a>, room: &mut Room) -> Option<(Rest<'a>, Self)>
        requires { Ready self room.old }
        ensures { Took text.entry.bytes.now (due_state self room.old) self.ranged result room.new }
    {
        match text.bytes {
            [.., b'0'..=b'9'] => self.take_digits(text, room),
            [.., b'g'] => {
                let before = text.nothing()?;
                let nothing = table::node_of(table::NOTHING, 0);
                Some((before, self.leaf(room, nothing)))
            }
            [.., b'e'] => self.take_pause(text, room),
            [.., b'd'] => {
                let before = text.word(b"end")?;
                Some((before, self.open(room, Opened::Ending)?))
            }
            [before @ .., b']'] => Some((
                Rest { bytes: before },
                self.open(room, Opened::Bracket)?,
            )),
            _ => None,
        }
    }

    // `in` or `then` before a whole chain, with what stands before it up to its statement's first word.
    fn take_heading<'a>(self, text: Rest<'a>, room: &mut Room) -> Option<(Rest<'a>, Self)>
        requires { (last_of text.bytes.now ≡ 110) × Ready self room.old }
        ensures { Chained self room.old (λ x. Took text.entry.bytes.now x self.ranged result room.new) }
    {
        if let Some(behind) = text.word(b"then") {
            let (signal, before) = heading(behind.skip(), b"present")?;
            let tested = self.within(signal_ranged(signal));
            return Some((before, tested.branch(room, signal)?));
        }
        let behind = text.word(b"in")?;
        let (signal, before) = heading(behind.skip(), b"signal")?;
        let declared = self.within(signal_ranged(signal));
        let node = table::node_of(table::SIGNAL, signal);
        Some((before, declared.body(room, node)?))
    }

    // What stands before a whole chain.
    fn take_chain<'a>(self, text: Rest<'a>, room: &mut Room) -> Option<(Rest<'a>, Self)>
        requires { (1 ≤ length text.bytes.now) × (last_of text.bytes.now ≢ 59) × Ready self room.old }
        ensures { Chained self room.old (λ x. Took text.entry.bytes.now x self.ranged result room.new) }
    {
        match text.bytes {
            [.., b'|'] => {
                let before = text.before(b"||")?;
                Some((before, self.bars()))
            }
            [before @ .., b'['] => Some((Rest { bytes: before }, self.bracket(room)?)),
            [.., b'p'] => {
                let before = text.word(b"loop")?;
                let node = table::node_of(table::LOOP, 0);
                Some((before, self.body(room, node)?))
            }
            [.., b'y'] => {
                let before = text.word(b"try")?;
                let node = table::node_of(table::TRY, 0);
                Some((before, self.body(room, node)?))
            }
            [.., b'n'] => self.take_heading(text, room),
            [.., b'e'] => {
                let before = text.word(b"else")?;
                Some((before, self.otherwise(room)?))
            }
            _ => None,
        }
    }

    // The parts up to the next where a statement is due or a chain was met.
    fn take<'a>(self, text: Rest<'a>, room: &mut Room) -> Option<(Rest<'a>, Self)>
        requires { (1 ≤ length text.bytes.now) × Ready self room.old }
        ensures { Took text.entry.bytes.now (state self room.old) self.ranged result room.new }
    {
        let Stage::Met = self.stage else {
            return self.take_due(text, room);
        };
        if let [before @ .., b';'] = text.bytes {
            return Some((Rest { bytes: before }, self.semicolon()));
        }
        let whole = self.chain(room);
        whole.take_chain(text, room)
    }

    // What the text is, where all of it was read.
    fn finish(self, room: &mut Room) -> Result<usize, Refusal>
        requires { Ready self room.old }
        ensures { Found (verdict_for self.ranged (made (state self room.old))) result room.new.nodes }
    {
        let Stage::Met = self.stage else {
            return Err(Refusal::Grammar);
        };
        if self.left != DEEPEST {
            return Err(Refusal::Grammar);
        }
        if !self.ranged {
            return Err(Refusal::Number);
        }
        let whole = self.chain(room);
        whole.count.ok_or(Refusal::Count)
    }
}

// Reads a text to the end of the room for nodes: how many there are. "18 the text breaks the grammar or that depth; then 19 a number
// is out of its kind's range; then 3".
pub fn parse(text: &[u8], room: &mut Room) -> Result<usize, Refusal>
    ensures { Found (verdict_of text.now) result room.new.nodes }
{
    let mut rest = Rest::of(text).ok_or(Refusal::Grammar)?;
    let mut reader = Reader {
        stage: Stage::Due,
        ranged: true,
        beside: false,
        left: DEEPEST,
        count: Some(0),
    };
    // Where the next part ends is known when this one is taken, so there is nothing to run over.
    while !rest.bytes.is_empty() {
        let (before, next) = reader.take(rest, room).ok_or(Refusal::Grammar)?;
        reader = next;
        rest = before.skip();
    }
    reader.finish(room)
}
