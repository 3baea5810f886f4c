// The brackets that are open in a JSON text, up to sixteen levels as bits, and what a byte begins there. Of the text only one byte is seen.
#![tactic(auto)]

ghost use Rattle.std.specs.Prelude.{◌≡◌, false, true, ℕ, ◌-◌, ◌/◌};
ghost use Rattle.paper.specs.Grammar.{among, blank};
ghost use Rattle.json_levels.specs.Parts.{Standing, StandingAt, Turned, TurnedAt, Open, parts_at, outermost, so, array?, Other};
ghost use Rattle.json_levels.specs.declared.Next.TheVariants.{Object, First, More, Value, Member};
ghost use Rattle.json_levels.specs.declared.Begun.TheVariants.{Nothing, Bracket};

use json_text::bytes::is_digit;

// The levels of nesting, the object being the first.
const LEVELS: u32 = 16;

// What may come next: the object; what follows an opening bracket; what follows a value, or the object where no level is open; a value;
// a member.
#[derive(Clone, Copy)]
pub enum Next {
    Object,
    First,
    More,
    Value,
    Member,
}

// That, how many levels are open, and a bit for each, the innermost lowest: 1 for an array, 0 for an object.
#[derive(Clone, Copy)]
pub struct Levels {
    pub next: Next,
    pub depth: u32,
    pub bits: u32,
}

// What a byte begins: nothing that may come; after a comma; a bracket; a name; a string; a number by its first byte; a word.
#[derive(Clone, Copy)]
pub enum Begun {
    Nothing,
    Comma,
    Bracket,
    Name,
    Text,
    Minus,
    Zero,
    Digit,
    True,
    False,
    Null,
}

// What the byte begins, and the levels after it.
#[derive(Clone, Copy)]
pub struct Turn {
    pub begun: Begun,
    pub levels: Levels,
}

// A bracket, and so many levels open behind it.
fn bracket(next: Next, depth: u32, bits: u32) -> Turn
    ensures { result ≡ so Bracket next depth bits }
{
    Turn {
        begun: Begun::Bracket,
        levels: Levels { next, depth, bits },
    }
}

impl Levels {
    // What the byte begins, and what may come behind it.
    fn begun(self, begun: Begun, next: Next) -> Turn
        ensures { result ≡ so begun next self.depth self.bits }
    {
        Turn {
            begun,
            levels: Levels { next, ..self },
        }
    }

    // A value that has no level of its own.
    fn plain(self, begun: Begun) -> Turn
        ensures { result ≡ so begun More self.depth self.bits }
    {
        self.begun(begun, Next::More)
    }

    // Nothing that may come.
    fn nothing(self) -> Turn
        ensures { result ≡ so Nothing Object self.depth self.bits }
    {
        self.begun(Begun::Nothing, Next::Object)
    }

    // The closing bracket of the innermost level.
    fn closed(self) -> Turn
        requires { Open self.depth self.bits }
        ensures { result ≡ so Bracket More (self.depth - 1) (self.bits / 2) }
    {
        bracket(Next::More, self.depth - 1, self.bits / 2)
    }

    // ---- one byte, by what may come

    // An array or an object, where a level is left for it.
    fn level_turn(self, b: u8) -> Turn
        requires { Open self.depth self.bits × Other b }
        ensures { TurnedAt (parts_at Value self.depth self.bits) (outermost Value self.depth self.bits) self.depth b result }
    {
        if self.depth == LEVELS {
            return self.nothing();
        }
        match b {
            b'[' => bracket(Next::First, self.depth + 1, self.bits * 2 + 1),
            b'{' => bracket(Next::First, self.depth + 1, self.bits * 2),
            _ => self.nothing(),
        }
    }

    // A value: a string, a number, a word, an array or an object.
    fn value_turn(self, b: u8) -> Turn
        requires { Open self.depth self.bits × (among blank b ≡ false) }
        ensures { TurnedAt (parts_at Value self.depth self.bits) (outermost Value self.depth self.bits) self.depth b result }
    {
        match b {
            b'"' => self.plain(Begun::Text),
            b'-' => self.plain(Begun::Minus),
            b'0' => self.plain(Begun::Zero),
            b't' => self.plain(Begun::True),
            b'f' => self.plain(Begun::False),
            b'n' => self.plain(Begun::Null),
            _ if is_digit(b) => self.plain(Begun::Digit),
            _ => self.level_turn(b),
        }
    }

    // A name.
    fn name_turn(self, b: u8) -> Turn
        requires { StandingAt Member self.depth self.bits × (among blank b ≡ false) }
        ensures { TurnedAt (parts_at Member self.depth self.bits) (outermost Member self.depth self.bits) self.depth b result }
    {
        if b == b'"' {
            return self.begun(Begun::Name, Next::Value);
        }
        self.nothing()
    }

    // After an opening bracket: the closing one, or what the level holds.
    fn first_turn(self, b: u8) -> Turn
        requires { Open self.depth self.bits × (among blank b ≡ false) }
        ensures { TurnedAt (parts_at First self.depth self.bits) (outermost First self.depth self.bits) self.depth b result }
    {
        if self.bits % 2 == 1 {
            if b == b']' {
                return self.closed();
            }
            return self.value_turn(b);
        }
        if b == b'}' {
            return self.closed();
        }
        self.name_turn(b)
    }

    // After a value of an array, and of an object: a comma, or the closing bracket.
    fn more_items(self, b: u8) -> Turn
        requires { Open self.depth self.bits × (array? self.bits ≡ true) × (among blank b ≡ false) }
        ensures { TurnedAt (parts_at More self.depth self.bits) false self.depth b result }
    {
        match b {
            b',' => self.begun(Begun::Comma, Next::Value),
            b']' => self.closed(),
            _ => self.nothing(),
        }
    }

    fn more_members(self, b: u8) -> Turn
        requires { Open self.depth self.bits × (array? self.bits ≡ false) × (among blank b ≡ false) }
        ensures { TurnedAt (parts_at More self.depth self.bits) false self.depth b result }
    {
        match b {
            b',' => self.begun(Begun::Comma, Next::Member),
            b'}' => self.closed(),
            _ => self.nothing(),
        }
    }

    // After the object nothing may come.
    fn more_turn(self, b: u8) -> Turn
        requires { StandingAt More self.depth self.bits × (among blank b ≡ false) }
        ensures { TurnedAt (parts_at More self.depth self.bits) false self.depth b result }
    {
        if self.depth == 0 {
            return self.nothing();
        }
        if self.bits % 2 == 1 {
            return self.more_items(b);
        }
        self.more_members(b)
    }

    // Before the object.
    fn object_turn(self, b: u8) -> Turn
        requires { among blank b ≡ false }
        ensures { TurnedAt (parts_at Object self.depth self.bits) false self.depth b result }
    {
        if b == b'{' {
            return bracket(Next::First, 1, 0);
        }
        self.nothing()
    }
}

// What a byte that is no blank begins.
pub fn byte_turn(v: Levels, b: u8) -> Turn
    requires { Standing v × (among blank b ≡ false) }
    ensures { Turned v b result }
{
    match v.next {
        Next::Object => v.object_turn(b),
        Next::First => v.first_turn(b),
        Next::More => v.more_turn(b),
        Next::Value => v.value_turn(b),
        Next::Member => v.name_turn(b),
    }
}
