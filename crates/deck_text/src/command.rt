//! The words that begin lines.
ghost use Rattle.std.specs.Prelude.{◌≡◌};
ghost use Rattle.std.specs.Str.{bytes_eq};
ghost use Rattle.deck_text.specs.Forms.{area_commands, command_among, command_of};

/// The word that begins a line.
#[derive(Clone, Copy, Debug, PartialEq, Eq)]
pub(crate) enum Command {
    Unit,
    Top,
    Band,
    Limits,
    Frame,
    Layer,
    Or,
    And,
    Sub,
    Xor,
    Grow,
    Shrink,
    Invert,
    Mirror,
    Write,
}

// Whether the token is the word.
fn is_word(token: &[u8], word: &[u8]) -> bool
    ensures { result ≡ bytes_eq token.now word.now }
{
    token == word
}

// The command after the settings of which the token is the word.
fn area_command_of(token: &[u8]) -> Option<Command>
    ensures { result ≡ command_among area_commands token.now }
{
    if is_word(token, b"layer") {
        return Some(Command::Layer);
    }
    if is_word(token, b"or") {
        return Some(Command::Or);
    }
    if is_word(token, b"and") {
        return Some(Command::And);
    }
    if is_word(token, b"sub") {
        return Some(Command::Sub);
    }
    if is_word(token, b"xor") {
        return Some(Command::Xor);
    }
    if is_word(token, b"grow") {
        return Some(Command::Grow);
    }
    if is_word(token, b"shrink") {
        return Some(Command::Shrink);
    }
    if is_word(token, b"invert") {
        return Some(Command::Invert);
    }
    if is_word(token, b"mirror") {
        return Some(Command::Mirror);
    }
    if is_word(token, b"write") {
        return Some(Command::Write);
    }
    None
}

/// The command of which the token is the word.
#[tactic(auto, unfolding(crate::specs::Forms::command_of))]
pub(crate) fn command_of(token: &[u8]) -> Option<Command>
    ensures { result ≡ command_of token.now }
{
    if is_word(token, b"unit") {
        return Some(Command::Unit);
    }
    if is_word(token, b"top") {
        return Some(Command::Top);
    }
    if is_word(token, b"band") {
        return Some(Command::Band);
    }
    if is_word(token, b"limits") {
        return Some(Command::Limits);
    }
    if is_word(token, b"frame") {
        return Some(Command::Frame);
    }
    area_command_of(token)
}
