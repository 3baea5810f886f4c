// A line of the script: words apart by blanks, each a number. `-5` and `12` are numbers, `=12` one of eight bytes, `#3ff0000000000000` the
// bits of one, `_` an empty cell, `_9` nine of them, `TRUE` and `FALSE` truth values; any other word is a name of up to 16 letters, whose
// first eight are its number.
ghost use Rattle.std.specs.Prelude.{◌<◌, ◌≤◌, length};

// The words of a line at most.
const WORDS: usize = 40;

// Kinds of words.
#[derive(Clone, Copy, PartialEq, Eq)]
pub enum Kind {
    Number,
    Wide,
    Empty,
    Bits,
    Truth,
    Name,
}

// A word: its number, and of a name the last eight letters.
#[derive(Clone, Copy)]
pub struct Word {
    pub kind: Kind,
    pub value: u64,
    pub last: u64,
}

// A word as far as it was read.
#[derive(Clone, Copy)]
struct Draft {
    kind: Kind,
    minus: bool,
    value: u64,
    last: u64,
    letters: usize,
}

// The words of a line, so many of these; behind them those of earlier lines that had more.
#[derive(Clone, Copy)]
pub struct Words {
    words: [Word; WORDS],
    count: usize,
}

// A line: its words, and where the next line begins.
#[derive(Clone, Copy)]
pub struct Line {
    pub words: Words,
    pub next: usize,
}

// What the first byte says.
fn kind_of(b: u8) -> Kind {
    match b {
        b'-' | b'0'..=b'9' => Kind::Number,
        b'=' => Kind::Wide,
        b'#' => Kind::Bits,
        b'_' => Kind::Empty,
        b'T' | b'F' => Kind::Truth,
        _ => Kind::Name,
    }
}

// The digit that a byte is, or 0.
fn digit_of(b: u8) -> u64
    ensures { result < 16 }
{
    match b {
        b'0'..=b'9' => u64::from(b - b'0'),
        b'a'..=b'f' => u64::from(b - b'a') + 10,
        _ => 0,
    }
}

// One digit more, of ten or of sixteen. What is too large stays.
fn ten_times(value: u64, b: u8) -> u64 {
    if value < 0x1000_0000_0000_0000 {
        value * 10 + digit_of(b)
    } else {
        value
    }
}

fn sixteen_times(value: u64, b: u8) -> u64 {
    if value < 0x1000_0000_0000_0000 {
        value * 16 + digit_of(b)
    } else {
        value
    }
}

impl Draft {
    // The first byte.
    fn started(b: u8) -> Draft {
        let draft = Draft {
            kind: kind_of(b),
            minus: false,
            value: u64::from(b == b'T'),
            last: 0,
            letters: 0,
        };
        draft.with_byte(b)
    }

    // One byte more.
    fn with_byte(self, b: u8) -> Draft {
        match self.kind {
            Kind::Number | Kind::Wide | Kind::Empty => self.numbered(b),
            Kind::Bits => Draft {
                value: sixteen_times(self.value, b),
                ..self
            },
            Kind::Truth => self,
            Kind::Name => self.with_letter(b),
        }
    }

    // A digit more of a number, or its sign.
    fn numbered(self, b: u8) -> Draft {
        if b == b'-' {
            return Draft {
                minus: true,
                ..self
            };
        }
        Draft {
            value: ten_times(self.value, b),
            ..self
        }
    }

    // A letter more of a name; the first eight are its number.
    fn with_letter(self, b: u8) -> Draft {
        let letters = self.letters;
        match letters {
            0..=7 => Draft {
                value: self.value | u64::from(b) << (8 * letters),
                letters: letters + 1,
                ..self
            },
            8..=15 => Draft {
                last: self.last | u64::from(b) << (8 * (letters - 8)),
                letters: letters + 1,
                ..self
            },
            _ => self,
        }
    }

    fn word(self) -> Word {
        let value = if self.minus {
            self.value.wrapping_neg()
        } else {
            self.value
        };
        Word {
            kind: self.kind,
            value,
            last: self.last,
        }
    }
}

impl Words {
    fn none() -> Words {
        let none = Word {
            kind: Kind::Number,
            value: 0,
            last: 0,
        };
        Words {
            words: [none; WORDS],
            count: 0,
        }
    }

    // A word more; what has no room is left out.
    fn push(&mut self, word: Word) {
        if self.count < WORDS {
            self.words[self.count] = word;
            self.count += 1;
        }
    }

    // Those from the j-th on.
    pub fn rest(&self, j: usize) -> &[Word] {
        if j <= self.count && self.count <= WORDS {
            &self.words[j..self.count]
        } else {
            &[]
        }
    }

    pub fn len(&self) -> usize {
        self.count
    }

    // The j-th word's number, which an earlier line may have said, or 0; its low 32 bits, and its low byte.
    pub fn value(&self, j: usize) -> u64 {
        self.words.get(j).map_or(0, |word| word.value)
    }

    pub fn value32(&self, j: usize) -> u32 {
        (self.value(j) % 0x1_0000_0000) as u32
    }

    pub fn value8(&self, j: usize) -> u8 {
        (self.value(j) % 256) as u8
    }

    // The j-th word as a length.
    pub fn length(&self, j: usize, most: usize) -> usize
        ensures { result ≤ most }
    {
        at_most(self.value32(j) as usize, most)
    }
}

// A number, at most so many.
pub fn at_most(n: usize, most: usize) -> usize
    ensures { result ≤ most }
{
    n.min(most)
}

// The words of the line that begins at byte `at`, read over those of the line before: a word that it leaves out stays as it was.
pub fn read_line(text: &[u8], at: usize, before: Option<Words>) -> Line
    requires { at < length text.now }
    ensures { at < result.next }
{
    let mut words = match before {
        Some(words) => Words { count: 0, ..words },
        None => Words::none(),
    };
    let mut draft: Option<Draft> = None;
    for i in at..text.len() {
        let b = text[i];
        if b' ' < b {
            draft = match draft {
                Some(word) => Some(word.with_byte(b)),
                None => Some(Draft::started(b)),
            };
        } else {
            if let Some(word) = draft {
                words.push(word.word());
            }
            draft = None;
            if b == b'\n' {
                return Line { words, next: i + 1 };
            }
        }
    }
    Line {
        words,
        next: text.len(),
    }
}
