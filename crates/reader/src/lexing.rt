// What stands at the end of a text, which is taken apart from its end.
ghost use Rattle.std.specs.Prelude.{◌≡◌, ◌↔◌, true, false, drop, get_or};
ghost use Rattle.text.specs.Parts.{Nothing};
ghost use Rattle.text.specs.Spelling.{letters_of};
ghost use Rattle.text.specs.inner.Lexer.{is_letter};
ghost use Rattle.reader.specs.inner.Blanks.{blank_byte};

// Where a number of three digits or more saturates: in no kind's range. Kept a number: 19 is given only when all of the text was read,
// and until then a node is made of what is out of range too, for which an `Option` would need a number in its place.
const HUGE: u8 = 100;

// The letters of `nothing` as one number, the first in the lowest bits.
const NOTHING: u64 = 0x67_6e69_6874_6f6e;

#[tactic(auto, unfolding(crate::specs::inner::Blanks::blank_byte))]
fn is_blank(byte: u8) -> bool
    ensures { result ≡ blank_byte byte }
{
    matches!(byte, b' ' | b'\n')
}

// A byte of a word, a number, a signal or a pause. Joined by `|` these are three branches, where one `matches!` makes four.
#[tactic(auto, unfolding(text::specs::inner::Lexer::is_letter))]
fn is_letter(byte: u8) -> bool
    ensures { result ≡ is_letter byte }
{
    matches!(byte, b'0'..=b':') | (byte == b'S') | matches!(byte, b'a'..=b'z')
}

// Whether `nothing` stands behind the first of eight bytes: one comparison of a number, where `word` makes several.
fn ends_in_nothing(bytes: &[u8; 8]) -> bool
    ensures { (result ≡ true) ↔ (drop 1 bytes.now ≡ letters_of Nothing) }
{
    u64::from_le_bytes(*bytes) >> 8 == NOTHING
}

// What is left of a text: it does not begin with a blank.
#[derive(Clone, Copy)]
pub struct Rest<'a> {
    pub bytes: &'a [u8],
    pub ghost solid: { blank_byte (get_or bytes.now 0 0) ≡ false },
}

impl<'a> Rest<'a> {
    ghost use Rattle.std.specs.Prelude.{◌≡◌};
    ghost use Rattle.text.specs.Parts.{Nothing};
    ghost use Rattle.text.specs.Spelling.{letters_of, last_of};
    ghost use Rattle.text.specs.inner.Lexer.{is_letter};
    ghost use Rattle.reader.specs.inner.Ending.{Begun, Stripped, Words, Numbers, Signals, Skipped, Three};

    // A text of which nothing was taken; none where it begins with a blank.
    #[tactic(auto, using(crate::proofs::Bytes::no_blank), unfolding(crate::specs::inner::Blanks::blank_byte))]
    pub fn of(text: &'a [u8]) -> Option<Rest<'a>>
        ensures { Begun text.now result }
    {
        match text {
            [b' ' | b'\n', ..] => None,
            _ => Some(Rest { bytes: text }),
        }
    }

    // Whether what begins behind it would be one part with its end: a word, a number, a signal or a pause.
    #[tactic(auto, using(crate::proofs::Bytes::last_at, crate::proofs::Bytes::last_none), unfolding(text::specs::inner::Lexer::is_letter))]
    pub fn touches(self) -> bool
        ensures { result ≡ is_letter (last_of self.entry.bytes.now) }
    {
        matches!(self.bytes, [.., last] if is_letter(*last))
    }

    // What stands before the bytes that it ends in.
    pub fn before(self, bytes: &[u8]) -> Option<Rest<'a>>
        ensures { Stripped self.entry.bytes.now bytes.now result }
    {
        let before = self.bytes.strip_suffix(bytes)?;
        Some(Rest { bytes: before })
    }

    // What stands before the word that it ends in. The word is compared in two parts: four letters are one comparison of a number, where
    // five to seven are several.
    #[inline(always)]
    pub fn word(self, letters: &[u8]) -> Option<Rest<'a>>
        ensures { Words self.entry.bytes.now letters.now result }
    {
        let (first, second) = letters.split_at(letters.len().min(4));
        let behind = self.before(second)?;
        let before = behind.before(first)?;
        if before.touches() {
            return None;
        }
        Some(before)
    }

    // What stands before the word `nothing`, of which long chains are made. With the byte before it, it is eight bytes; a shorter text
    // has none before it.
    pub fn nothing(self) -> Option<Rest<'a>>
        ensures { Words self.entry.bytes.now (letters_of Nothing) result }
    {
        let Some(last) = self.bytes.last_chunk::<8>() else {
            return self.word(b"nothing");
        };
        if !ends_in_nothing(last) {
            return None;
        }
        if is_letter(last[0]) {
            return None;
        }
        Some(Rest {
            bytes: &self.bytes[..self.bytes.len() - 7],
        })
    }

    // The number of three digits or more that it ends in.
    fn long_number(self) -> Option<(u8, Rest<'a>)>
        requires { Three self.bytes.now }
        ensures { Numbers self.entry.bytes.now result }
    {
        let mut before = &self.bytes[..self.bytes.len() - 3];
        while let [rest @ .., b'0'..=b'9'] = before {
            before = rest;
        }
        let leading_zero = self.bytes[before.len()] == b'0';
        if leading_zero {
            return None;
        }
        Some((HUGE, Rest { bytes: before }))
    }

    // The number that it ends in, and what stands before it; none where there is no digit, or a leading zero.
    pub fn number(self) -> Option<(u8, Rest<'a>)>
        ensures { Numbers self.entry.bytes.now result }
    {
        let [behind @ .., ones @ b'0'..=b'9'] = self.bytes else {
            return None;
        };
        let [before @ .., tens @ b'0'..=b'9'] = behind else {
            return Some((*ones - b'0', Rest { bytes: behind }));
        };
        if let [.., b'0'..=b'9'] = before {
            return self.long_number();
        }
        let leading_zero = *tens == b'0';
        if leading_zero {
            return None;
        }
        Some(((*tens - b'0') * 10 + (*ones - b'0'), Rest { bytes: before }))
    }

    // The signal that it ends in, and what stands before it.
    pub fn signal(self) -> Option<(u8, Rest<'a>)>
        ensures { Signals self.entry.bytes.now result }
    {
        let (value, behind) = self.number()?;
        let before = behind.word(b"S")?;
        Some((value, before))
    }

    // What stands before the blanks that it ends in. The loop runs over an index: since the text does not begin with a blank, nothing
    // asks for the beginning, as a slice pattern would.
    pub fn skip(self) -> Rest<'a>
        ensures { Skipped self.entry.bytes.now result.bytes.now }
    {
        let text = self.bytes;
        if text.is_empty() {
            return self;
        }
        let mut at = text.len() - 1;
        while is_blank(text[at]) {
            at -= 1;
        }
        Rest {
            bytes: &text[..=at],
        }
    }
}
