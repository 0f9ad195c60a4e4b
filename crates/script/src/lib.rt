// Where a run over a script stands: the Rust's TokenizeState, by value. specs/ has the reading of a script by the unlimited rules.
#![tactic(auto)]

ghost use Rattle.std.specs.Prelude.{◌≡◌, ◌<◌};
ghost use Rattle.script.specs.States.{begun_at, moved_to, interpolating, opened, closed, Fine, Fits, behind_of};
ghost use Rattle.script.specs.Counts.{passed_of, counts};

use chars::cursor::Cursor;
use fault::Fault;
use token::tokens;

#[derive(Clone, Copy)]
pub struct State {
    // Behind the last character taken.
    pub cursor: Cursor,
    // How many interpolations are open.
    pub level: usize,
    // The open braces of each of them.
    pub braces: [usize; 16],
    // Whether a text goes on here: its interpolation has just been closed.
    pub due: bool,
}

// What is to be said of a literal that its scan accepts: nothing, or that it is wrong in a run.
pub type Verdict = Result<(), Fault>;

// What a run has passed: something that opens and closes nothing, a piece of text that `${` ended, or the Rust's token.
#[derive(Clone, Copy)]
pub enum Crossed {
    Plain,
    Piece,
    Token(u8),
}

impl Crossed {
    // A piece of text that `${` ended, or the Rust's token. A turn answers by these two numbers, which the machine carries
    // faster than this enum.
    pub fn given(piece: bool, token: u8) -> Crossed
        ensures { result ≡ passed_of piece token }
    {
        if piece {
            Crossed::Piece
        } else {
            Crossed::Token(token)
        }
    }

    // Whether braces are to be counted behind it, with so many interpolations open. Behind anything else a run only stands
    // further on.
    #[tactic(auto, unfolding(crate::specs::Counts::counts))]
    pub fn counts(self, level: usize) -> bool
        ensures { result ≡ counts level self }
    {
        match self {
            Crossed::Plain => false,
            Crossed::Piece => true,
            Crossed::Token(token) => {
                level != 0
                    && matches!(
                        token,
                        tokens::LEFT_BRACE | tokens::MAP_START | tokens::RIGHT_BRACE
                    )
            }
        }
    }
}

impl State {
    // Where a run begins, behind a cursor.
    #[tactic(auto, unfolding(crate::specs::States::begun_at))]
    pub fn begun(cursor: Cursor) -> State
        ensures { result ≡ begun_at cursor }
    {
        State {
            cursor,
            level: 0,
            braces: [0; 16],
            due: false,
        }
    }

    // Where a run stands behind what it has passed.
    #[tactic(auto, unfolding(crate::specs::States::behind_of, crate::specs::States::behind))]
    pub fn behind(mut self, what: Crossed, to: Cursor) -> State
        requires { Fine self × Fits what self }
        ensures { result ≡ behind_of what to self }
    {
        match what {
            Crossed::Piece => self.interpolate(to),
            Crossed::Token(tokens::LEFT_BRACE | tokens::MAP_START) => self.open(to),
            Crossed::Token(tokens::RIGHT_BRACE) => self.close(to),
            Crossed::Plain | Crossed::Token(_) => self.move_to(to),
        }
        self
    }

    #[tactic(auto, unfolding(crate::specs::States::moved_to))]
    fn move_to(&mut self, to: Cursor)
        ensures { self.new ≡ moved_to to self.old }
    {
        self.cursor = to;
        self.due = false;
    }

    // One interpolation more, with no brace open yet.
    #[tactic(auto, unfolding(crate::specs::States::moved_to, crate::specs::States::interpolating))]
    fn interpolate(&mut self, to: Cursor)
        requires { self.old.level < 16 }
        ensures { self.new ≡ interpolating to self.old }
    {
        self.move_to(to);
        self.braces[self.level] = 0;
        self.level += 1;
    }

    // Behind an opening brace.
    #[tactic(auto, unfolding(crate::specs::States::moved_to, crate::specs::States::opened, crate::specs::States::with_braces, crate::specs::States::count))]
    fn open(&mut self, to: Cursor)
        requires { Fine self.old }
        ensures { self.new ≡ opened to self.old }
    {
        self.move_to(to);
        if self.level != 0 {
            self.braces[self.level - 1] += 1;
        }
    }

    // Behind a closing brace: the last one of an interpolation closes it, and its text goes on.
    #[tactic(auto, unfolding(crate::specs::States::moved_to, crate::specs::States::closed, crate::specs::States::resumed, crate::specs::States::with_braces, crate::specs::States::count))]
    fn close(&mut self, to: Cursor)
        requires { Fine self.old }
        ensures { self.new ≡ closed to self.old }
    {
        self.move_to(to);
        if self.level != 0 {
            let top = self.level - 1;
            if self.braces[top] <= 1 {
                self.braces[top] = 0;
                self.level = top;
                self.due = true;
            } else {
                self.braces[top] -= 1;
            }
        }
    }
}
