// The bench program's answers: what a line prints.
#![tactic(auto)]

ghost use Rattle.std.specs.Prelude.{◌≡◌};
ghost use Rattle.page.specs.Written.{written};
ghost use Rattle.answers.specs.Answers.{name_of, said};

use page::Page;

// The name of a command.
#[derive(Clone, Copy)]
pub enum Name {
    Add,
    Store,
    Load,
    Remove,
    Check,
    Spoil,
}

// What a line prints: a command with its number, which is no Result here, since it is what is printed; the byte of a load that was done; a check's verdict, with the address where it rejects for a stamp; or that
// the line is bad.
#[derive(Clone, Copy)]
pub enum Answer {
    Numbered(Name, u8),
    Loaded(u8),
    Accepted,
    Stamp(u16),
    Tag,
    Bad,
}

impl Name {
    fn text(self) -> &'static [u8]
        ensures { result.now ≡ name_of self }
    {
        match self {
            Name::Add => b"add",
            Name::Store => b"store",
            Name::Load => b"load",
            Name::Remove => b"remove",
            Name::Check => b"check",
            Name::Spoil => b"spoil",
        }
    }
}

// Writes the line that an answer is: at once, where it is always the same.
pub fn say(page: &mut Page, answer: Answer)
    ensures { page.new ≡ written page.old (said answer) }
{
    match answer {
        Answer::Numbered(name, n) => {
            page.put(name.text());
            page.put(b" ");
            page.put_decimal(n as u16);
        },
        Answer::Loaded(b) => {
            page.put(b"load 0 ");
            page.put_hex(b);
        },
        Answer::Accepted => return page.put(b"check accept\n"),
        Answer::Stamp(a) => {
            page.put(b"check reject stamp ");
            page.put_decimal(a);
        },
        Answer::Tag => return page.put(b"check reject tag\n"),
        Answer::Bad => return page.put(b"bad\n"),
    }
    page.put(b"\n");
}
