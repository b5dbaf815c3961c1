// The names of the programs: how each is called, and what failed in one. Nothing here reads or writes.
#![tactic(auto)]

ghost use Rattle.std.specs.Prelude.{◌≡◌, ◌+◌, ◌≤◌, length};
ghost use Rattle.answers.specs.Buffers.{Put};
ghost use Rattle.cmd_usage.specs.Programs.{name_of, usage_of, subject_of};

#[derive(Clone, Copy, Debug, PartialEq, Eq)]
pub enum Program {
    Draw,
    Sheet,
    Mix,
    Unmix,
    Show,
    Settings,
    Chart,
    List,
}

impl Program {
    /// The name by which it is called.
    pub fn name(self) -> &'static [u8]
        ensures { (result.now ≡ name_of self) × (length result.now ≤ 8) }
    {
        match self {
            Program::Draw => b"draw",
            Program::Sheet => b"sheet",
            Program::Mix => b"mix",
            Program::Unmix => b"unmix",
            Program::Show => b"show",
            Program::Settings => b"settings",
            Program::Chart => b"chart",
            Program::List => b"list",
        }
    }

    /// How to call it: a line.
    pub fn usage(self) -> &'static [u8]
        ensures { result.now ≡ usage_of self }
    {
        match self {
            Program::Draw => b"usage: draw N < RANDOM > ORDER\n",
            Program::Sheet => b"usage: sheet < ORDER > SHEET\n",
            Program::Mix => b"usage: mix SHEET WIDTH < BLOCKS > MIXED\n",
            Program::Unmix => b"usage: unmix SHEET WIDTH < MIXED > BLOCKS\n",
            Program::Show => b"usage: show SHEET\n",
            Program::Settings => b"usage: settings < ORDER\n",
            Program::Chart => b"usage: chart < BLOCKS\n",
            Program::List => b"usage: list < LENGTH\n",
        }
    }
}

// ---- what failed

// The program and what failed in it, over the front of out: 4,106 bytes are enough for each name that a file may have.
pub fn put_subject(program: Program, what: &[u8], out: &mut [u8]) -> usize
    requires { 10 + length what.now ≤ length out.old }
    ensures { Put out.old 0 (subject_of program what.now) result out.new }
{
    let a = cmd_text::put_text(out, 0, program.name());
    let b = cmd_text::put_text(out, a, b": ");
    cmd_text::put_text(out, b, what)
}
