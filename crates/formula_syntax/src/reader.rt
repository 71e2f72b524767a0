//! Reads a formula text byte by byte, with a stack of the groups that are open.
ghost use Rattle.formula_syntax.specs.Lexis.{is_special, bytes_where};
ghost use Rattle.formula_syntax.specs.Machine.{at, text, no_slash, slash, Stack, Machine, MachineMode, MachinePending, start, step, finish, read as machine_read, in_name, add, add_set, postfix, bar, open_group, close, special_step, set_step, mode_step, escaped, step_in};
ghost use Rattle.formula_syntax.specs.Numbering.{number_in, seen};
ghost use Rattle.formula_syntax.specs.View.{capped, sign_of, Shows, ShowsStack, ShowsMode, ShowsSlash, ShowsOpener, ShowsSet, Answers, with_names, GivesSet, Finds};
ghost use Rattle.formula_syntax.specs.declared.reader.Stop.TheVariants.{OutOfMemory};
ghost use Rattle.span_types.specs.FormulaTree.{FormulaTree, tree_of};
ghost use Rattle.std.specs.Prelude.{◌≡◌, ℕ, Bool, true, Option, Some, IfOk, IfErr, min, List};

use crate::build::{Level, Sign, cat_of, signed};
use crate::lexis::{HexDigit, can_escape, hex_digit, is_plain_member, is_special};
use crate::set::{SetReader, only};
use span_types::{ByteSet, Formula, Name, NameRefusal, Vars, VarsRefusal};
use std::alloc::{AllocError, AllocFailed, Global};
use std::mem;

/// Why the reader stopped within a text.
#[derive(Clone, Copy)]
pub enum Stop {
    /// The text isn't in the grammar.
    Bad,

    /// Allocation failed.
    OutOfMemory,
}

impl<T: Drop> From<AllocFailed<T>> for Stop {
    ghost from_gives = { λ _ e. e ≡ OutOfMemory };

    fn from(_e: AllocFailed<T>) -> Stop {
        Stop::OutOfMemory
    }
}

impl From<AllocError> for Stop {
    ghost from_gives = { λ _ e. e ≡ OutOfMemory };

    fn from(_e: AllocError) -> Stop {
        Stop::OutOfMemory
    }
}

/// How far an escape is read.
#[derive(Clone, Copy)]
enum Slash {
    /// No escape is open.
    Nothing,

    /// The backslash.
    Begun,

    /// The backslash and `x`.
    Hex,

    /// These and the first digit.
    HexLow(HexDigit),
}

/// What the next byte belongs to.
#[derive(Clone, Copy)]
enum Mode {
    /// The open alternation.
    Text,

    /// A set, directly after its bracket.
    SetStart,

    /// A set, after its bracket and its sign.
    InSet(SetReader),

    /// The name of a capture.
    InName,
}

/// What opened a group.
#[derive(Clone, Copy)]
enum Opener {
    Group,

    /// A capture of this variable.
    Capture(u8),
}

/// A group or a capture that is open, and the alternation around it.
#[derive(Drop)]
struct Group {
    opener: Opener,
    around: Level,
}

/// A text as far as it is read.
#[derive(Drop)]
struct Reader {
    slash: Slash,
    mode: Mode,

    /// The bytes of the name that is being read.
    name: Vec<u8>,

    /// The alternation that is being read.
    level: Level,

    /// The open groups, the innermost last.
    groups: Vec<Group>,

    /// The first eight names.
    vars: Vars,

    /// Whether there were more names. Each of these has the number 8.
    crowded: bool,

    /// The greatest number of groups that were open at once.
    deepest: usize,
}

/// What a text has, before the limits are tested.
#[derive(Drop)]
pub struct Found {
    pub formula: Formula,

    /// The first eight names.
    pub vars: Vars,

    /// Whether there were more names. Each of these has the number 8.
    pub crowded: bool,

    /// The greatest number of groups and captures that were open at once.
    pub deepest: usize,
}

impl Reader {
    /// Nothing read yet.
    fn new(alloc: Global) -> Reader
        ensures { Shows result start }
    {
        Reader {
            slash: Slash::Nothing,
            mode: Mode::Text,
            name: Vec::new(alloc),
            level: Level::new(alloc),
            groups: Vec::new(alloc),
            vars: Vars::new(alloc),
            crowded: false,
            deepest: 0,
        }
    }

    /// Takes a part of the open concatenation.
    fn add(&mut self, part: Formula) -> Result<(), Stop>
        ensures { (k : Stack) (f : FormulaTree) → tree_of part ≡ capped f → Shows self.old (at text k) → Answers result self.new (Some (at text (add k f))) }
    {
        self.level.parts.push(part)?;
        Ok(())
    }

    /// Takes a set of bytes.
    fn add_set(&mut self, set: ByteSet) -> Result<(), Stop>
        ensures { (k : Stack) (p : ℕ → Bool) → set ≡ bytes_where p → ShowsSlash self.old.slash no_slash → ShowsStack self.old k → Answers result self.new (add_set k p) }
    {
        self.mode = Mode::Text;
        self.add(Formula::Set(set))
    }

    /// Takes a postfix sign, which belongs to the last part.
    fn postfix(&mut self, alloc: Global, sign: Sign) -> Result<(), Stop>
        ensures { (k : Stack) → Shows self.old (at text k) → Answers result self.new (postfix (sign_of sign) k) }
    {
        let Some(last) = self.level.parts.pop() else {
            return Err(Stop::Bad);
        };
        let part = signed(alloc, sign, last)?;
        self.add(part)
    }

    /// Takes the bar between two branches.
    fn bar(&mut self, alloc: Global) -> Result<(), Stop>
        ensures { (k : Stack) → Shows self.old (at text k) → Answers result self.new (Some (at text (bar k))) }
    {
        let parts = mem::replace(&mut self.level.parts, Vec::new(alloc));
        let branch = cat_of(alloc, parts)?;
        self.level.branches.push(branch)?;
        Ok(())
    }

    /// Opens a group or a capture.
    fn open(&mut self, alloc: Global, opener: Opener) -> Result<(), Stop>
        ensures { (k : Stack) (v : Option ℕ) → ShowsOpener opener v → Shows self.old (at text k) → Answers result self.new (Some (at text (open_group k v k.names))) }
    {
        let around = mem::replace(&mut self.level, Level::new(alloc));
        self.groups.push(Group { opener, around })?;
        self.deepest = self.deepest.max(self.groups.len());
        Ok(())
    }

    /// Closes a group, or a capture if `captures`.
    fn close(&mut self, alloc: Global, captures: bool) -> Result<(), Stop>
        ensures { (k : Stack) → Shows self.old (at text k) → Answers result self.new (close captures k) }
    {
        let Some(group) = self.groups.pop() else {
            return Err(Stop::Bad);
        };
        let Group { opener, around } = group;
        let inner = mem::replace(&mut self.level, around);
        let formula = inner.formula(alloc)?;
        match opener {
            Opener::Group if !captures => self.add(formula),
            Opener::Capture(v) if captures => {
                let part = Formula::Capture(v, Box::new(alloc, formula)?);
                self.add(part)
            }
            _ => Err(Stop::Bad),
        }
    }

    /// The number of a name, which is 8 for each name after the eighth.
    fn number(&mut self, name: Name) -> Result<u8, Stop>
        ensures number { (k : Stack) → ShowsStack self.old k → IfOk result (λ v. (v ≡ min (number_in k.names name) 8) × ShowsStack self.new (with_names k (seen k.names name)) × (self.new.slash ≡ self.old.slash)) }
        ensures memory { IfErr result (λ e. e ≡ OutOfMemory) }
    {
        match self.vars.number_of(name) {
            Ok(v) => Ok(v),
            Err(VarsRefusal::Full) => {
                self.crowded = true;
                Ok(8)
            }
            Err(VarsRefusal::NoMemory) => Err(Stop::OutOfMemory),
        }
    }

    /// Opens the capture whose name was read.
    fn open_capture(&mut self, alloc: Global) -> Result<(), Stop>
        ensures { (k : Stack) (x : List ℕ) → x ≡ self.old.name.items → ShowsSlash self.old.slash no_slash → ShowsStack self.old k → Answers result self.new (mode_step (in_name x) k 123) }
    {
        let name = match Name::new(alloc, &self.name) {
            Ok(name) => name,
            Err(NameRefusal::NotAName) => return Err(Stop::Bad),
            Err(NameRefusal::NoMemory) => return Err(Stop::OutOfMemory),
        };
        let v = self.number(name)?;
        self.mode = Mode::Text;
        self.open(alloc, Opener::Capture(v))
    }

    /// Takes a special byte outside sets and names.
    fn special(&mut self, alloc: Global, byte: u8) -> Result<(), Stop>
        ensures { (k : Stack) → is_special byte ≡ true → Shows self.old (at text k) → Answers result self.new (special_step k byte) }
    {
        match byte {
            b'.' => self.add_set(ByteSet::empty().complement()),
            b'[' => {
                self.mode = Mode::SetStart;
                Ok(())
            }
            b'(' => self.open(alloc, Opener::Group),
            b')' => self.close(alloc, false),
            b'}' => self.close(alloc, true),
            b'|' => self.bar(alloc),
            b'*' => self.postfix(alloc, Sign::Star),
            b'+' => self.postfix(alloc, Sign::Plus),
            b'?' => self.postfix(alloc, Sign::Opt),
            b'$' => {
                self.name.clear();
                self.mode = Mode::InName;
                Ok(())
            }
            b'\\' => {
                self.slash = Slash::Begun;
                Ok(())
            }
            _ => Err(Stop::Bad),
        }
    }

    /// Continues in a set, or stops if there is none.
    fn to_set(&mut self, set: Option<SetReader>) -> Result<(), Stop>
        ensures { (k : Stack) (o : Option Machine) → GivesSet set k o → ShowsSlash self.old.slash no_slash → ShowsStack self.old k → Answers result self.new o }
    {
        let Some(set) = set else {
            return Err(Stop::Bad);
        };
        self.mode = Mode::InSet(set);
        Ok(())
    }

    /// Takes a byte of a set that isn't escaped.
    fn set_byte(&mut self, set: SetReader, byte: u8) -> Result<(), Stop>
        ensures { (k : Stack) (neg : Bool) (rs : List (ℕ × ℕ)) (p : MachinePending) → ShowsSet set neg rs p → ShowsSlash self.old.slash no_slash → ShowsStack self.old k → Answers result self.new (set_step k neg rs p byte) }
    {
        if is_plain_member(byte) {
            return self.to_set(set.member(byte));
        }
        match byte {
            b']' => match set.end() {
                Some(whole) => self.add_set(whole),
                None => Err(Stop::Bad),
            },
            b'-' => self.to_set(set.dash()),
            b'\\' => {
                self.mode = Mode::InSet(set);
                self.slash = Slash::Begun;
                Ok(())
            }
            _ => Err(Stop::Bad),
        }
    }

    /// Takes a byte that isn't escaped.
    fn plain(&mut self, alloc: Global, byte: u8) -> Result<(), Stop>
        ensures { (m : MachineMode) (k : Stack) → Shows self.old (at m k) → Answers result self.new (mode_step m k byte) }
    {
        match self.mode {
            Mode::Text => {
                if is_special(byte) {
                    self.special(alloc, byte)
                } else {
                    self.add_set(only(byte))
                }
            }
            Mode::SetStart => {
                if byte == b'^' {
                    self.mode = Mode::InSet(SetReader::new(true));
                    Ok(())
                } else {
                    self.set_byte(SetReader::new(false), byte)
                }
            }
            Mode::InSet(set) => self.set_byte(set, byte),
            Mode::InName => {
                if byte == b'{' {
                    self.open_capture(alloc)
                } else {
                    self.name.push(byte)?;
                    Ok(())
                }
            }
        }
    }

    /// Takes the byte that an escape stands for.
    fn escaped(&mut self, byte: u8) -> Result<(), Stop>
        ensures { (m : MachineMode) (k : Stack) → ShowsMode self.old.mode self.old.name.items m → ShowsStack self.old k → Answers result self.new (escaped m k byte) }
    {
        self.slash = Slash::Nothing;
        match self.mode {
            Mode::Text => self.add_set(only(byte)),
            Mode::InSet(set) => self.to_set(set.member(byte)),
            _ => Err(Stop::Bad),
        }
    }

    /// Takes the byte after a backslash.
    fn begun(&mut self, byte: u8) -> Result<(), Stop>
        ensures { (m : MachineMode) (k : Stack) → ShowsMode self.old.mode self.old.name.items m → ShowsStack self.old k → Answers result self.new (step_in slash m k byte) }
    {
        if can_escape(byte) {
            return self.escaped(byte);
        }
        match byte {
            b'n' => self.escaped(b'\n'),
            b't' => self.escaped(b'\t'),
            b'r' => self.escaped(b'\r'),
            b'x' => {
                self.slash = Slash::Hex;
                Ok(())
            }
            _ => Err(Stop::Bad),
        }
    }

    /// Takes one byte.
    fn step(&mut self, alloc: Global, byte: u8) -> Result<(), Stop>
        ensures { (m : Machine) → Shows self.old m → Answers result self.new (step m byte) }
    {
        match self.slash {
            Slash::Nothing => self.plain(alloc, byte),
            Slash::Begun => self.begun(byte),
            Slash::Hex => {
                let Some(high) = hex_digit(byte) else {
                    return Err(Stop::Bad);
                };
                self.slash = Slash::HexLow(high);
                Ok(())
            }
            Slash::HexLow(high) => {
                let Some(low) = hex_digit(byte) else {
                    return Err(Stop::Bad);
                };
                self.escaped(16 * high.value + low.value)
            }
        }
    }

    /// The formula of the whole text.
    fn finish(self, alloc: Global) -> Result<Found, Stop>
        ensures { (m : Machine) → Shows self m → Finds result (finish m) }
    {
        let Reader {
            slash,
            mode,
            name: _,
            level,
            groups,
            vars,
            crowded,
            deepest,
        } = self;
        let (Slash::Nothing, Mode::Text) = (slash, mode) else {
            return Err(Stop::Bad);
        };
        if !groups.is_empty() {
            return Err(Stop::Bad);
        }
        let formula = level.formula(alloc)?;
        Ok(Found {
            formula,
            vars,
            crowded,
            deepest,
        })
    }
}

/// Reads a whole text.
pub fn read_all(alloc: Global, text: &[u8]) -> Result<Found, Stop>
    ensures { Finds result (machine_read text.now) }
{
    let mut reader = Reader::new(alloc);
    for byte in text {
        reader.step(alloc, *byte)?;
    }
    reader.finish(alloc)
}
