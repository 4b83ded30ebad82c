// Heads and statements, told apart by the first byte.
ghost use Rattle.std.specs.Prelude.{◌≡◌};
ghost use Rattle.files.specs.Sheets.{class_of as class_in};

/// What a line is by its first byte alone, however unfit it is otherwise.
#[derive(Clone, Copy)]
pub enum Class {
    HeadLine,
    StatementLine,
}

/// Whether a head has come. By a rule of the project it is matched together with the class of a line, so that both are enums.
#[derive(Clone, Copy)]
pub enum State {
    NoSheet,
    InSheet,
}

/// A line is a head if its first byte is A to Z, and else a statement.
pub fn class_of(line: &[u8]) -> Class
    ensures { result ≡ class_in line.now }
{
    match line {
        [b'A'..=b'Z', ..] => Class::HeadLine,
        _ => Class::StatementLine,
    }
}
