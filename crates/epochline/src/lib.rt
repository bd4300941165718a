// The epoch program's library: it takes the input a byte at a time and says what is printed. It keeps a line at the most, so an input of any length is read.
#![tactic(auto)]

mod commands;
mod printing;
mod reading;

ghost use Rattle.std.specs.Prelude.{◌≡◌, List, ℕ};
ghost use Rattle.node.specs.Calls.{out};
ghost use Rattle.epochline.specs.Machine.{new_program, line_of, longer, on_line, machine, first_turn, later_turn, line_turn, byte_turn, end_turn, Leaves};

use config::Refusal;
use node::Node;

const NEWLINE: u8 = b'\n';

const SPACE: u8 = b' ';

const NOUGHT: u8 = b'0';

// What a line says.
#[derive(Clone, Copy)]
pub enum Command {
    Start,
    // a member, and the epoch of its NEWEPOCH
    Heard(u8, u32),
    Progress,
}

// A run of the program.
#[derive(Clone, Copy)]
pub struct Program {
    pub node: Node,
    // 0 before the first line, 1 while it goes on, 2 once it has ended
    pub phase: u8,
    // the line so far: its first `len` bytes, at most all of these
    pub line: [u8; Program::LINE],
    pub len: usize,
}

// A program, and how many bytes it prints.
#[derive(Clone, Copy)]
pub struct Fed {
    pub program: Program,
    pub written: usize,
}

impl Program {
    pub const LINE: usize = 17;

    // Room for what is printed at once.
    pub const PRINTED: usize = 48;

    const FIRST: u8 = 0;

    const GOING: u8 = 1;

    const ENDED: u8 = 2;

    // A program that has read nothing.
    pub fn new() -> Self
        ensures { result ≡ new_program }
    {
        Program {
            node: Node::fresh(reading::config_of(0, 0, 0)).node,
            phase: Program::FIRST,
            line: [0; Program::LINE],
            len: 0,
        }
    }

    // The next byte of the input.
    #[tactic(auto, using(crate::proofs::Turns::leaves_same, crate::proofs::Turns::byte_line))]
    pub fn feed(
        self,
        byte: u8,
        outbox: &mut [u8],
        kept: &mut [u8],
        signatures: &mut [u8],
        out: &mut [u8; Program::PRINTED],
    ) -> Fed
        ensures { Leaves result outbox.new kept.new signatures.new out.old out.new (byte_turn (machine self outbox.old kept.old signatures.old) byte) }
    {
        if byte == NEWLINE {
            return self.line_turn(outbox, kept, signatures, out);
        }
        Fed {
            program: self.longer(byte),
            written: 0,
        }
    }

    // The input has ended.
    #[tactic(auto, using(crate::proofs::Turns::leaves_same, crate::proofs::Turns::end_line))]
    pub fn end(
        self,
        outbox: &mut [u8],
        kept: &mut [u8],
        signatures: &mut [u8],
        out: &mut [u8; Program::PRINTED],
    ) -> Fed
        ensures { Leaves result outbox.new kept.new signatures.new out.old out.new (end_turn (machine self outbox.old kept.old signatures.old)) }
    {
        if (self.len == 0) & (self.phase != Program::FIRST) {
            return Fed {
                program: self,
                written: 0,
            };
        }
        self.line_turn(outbox, kept, signatures, out)
    }

    // A byte more of the line, while there is room for it.
    #[tactic(auto, unfolding(crate::specs::Machine::longer))]
    fn longer(self, byte: u8) -> Program
        ensures { result ≡ longer self byte }
    {
        let len = self.len;
        if len < Program::LINE {
            let mut line = self.line;
            line[len] = byte;
            return Program {
                line,
                len: len + 1,
                ..self
            };
        }
        self
    }

    // A line is whole.
    #[tactic(auto, using(crate::proofs::Turns::leaves_same, crate::proofs::Turns::line_first, crate::proofs::Turns::line_later))]
    fn line_turn(
        self,
        outbox: &mut [u8],
        kept: &mut [u8],
        signatures: &mut [u8],
        out: &mut [u8; Program::PRINTED],
    ) -> Fed
        ensures { Leaves result outbox.new kept.new signatures.new out.old out.new (line_turn (machine self outbox.old kept.old signatures.old)) }
    {
        match self.phase {
            Program::FIRST => self.first_turn(out),
            Program::GOING => self.later_turn(outbox, kept, signatures, out),
            _ => Fed {
                program: self,
                written: 0,
            },
        }
    }

    // The first line: a configuration, or the run ends.
    #[tactic(auto, using(crate::proofs::Turns::leaves, crate::proofs::Turns::first_ends), unfolding(crate::specs::Output::no_configuration, config::specs::Codes::number_of))]
    fn first_turn(self, out: &mut [u8; Program::PRINTED]) -> Fed
        ensures { (outbox kept signatures : List ℕ) → Leaves result outbox kept signatures out.old out.new (first_turn (machine self outbox kept signatures)) }
    {
        let made = Node::fresh(reading::config_in(self.line_so_far()));
        if made.answer.is_ok() {
            return Fed {
                program: self.on_line(made.node, Program::GOING),
                written: 0,
            };
        }
        let written = printing::print(out, Refusal::Config.number(), 0, 0, 0);
        Fed {
            program: self.on_line(made.node, Program::ENDED),
            written,
        }
    }

    // A later line: a command, or the run ends.
    fn later_turn(
        self,
        outbox: &mut [u8],
        kept: &mut [u8],
        signatures: &mut [u8],
        out: &mut [u8; Program::PRINTED],
    ) -> Fed
        ensures { Leaves result outbox.new kept.new signatures.new out.old out.new (later_turn (machine self outbox.old kept.old signatures.old)) }
    {
        let Some(command) = reading::command_of(self.line_so_far()) else {
            return Fed {
                program: self.on_line(self.node, Program::ENDED),
                written: 0,
            };
        };
        let outcome = commands::calling(self.node, command, outbox, kept, signatures);
        Fed {
            program: self.on_line(outcome.node, Program::GOING),
            written: printing::print_node(out, outcome.answer, outcome.node),
        }
    }

    // This node in a phase, at the beginning of a line.
    fn on_line(self, node: Node, phase: u8) -> Program
        ensures { result ≡ on_line self node phase }
    {
        Program {
            node,
            phase,
            len: 0,
            ..self
        }
    }

    // What there is of the line.
    fn line_so_far(&self) -> &[u8]
        ensures { result.now ≡ line_of self.now }
    {
        &self.line[..self.len.min(Program::LINE)]
    }
}
