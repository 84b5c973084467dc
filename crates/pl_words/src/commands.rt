//! The commands and their options, as data.

ghost use Rattle.std.specs.Prelude.{◌≡◌};
ghost use Rattle.pl_words.specs.Parts.{text_of, has_value};
ghost use Rattle.pl_words.specs.Commands.{command_named, places_of, options_of};

/// What the first word asks for.
#[derive(Clone, Copy, Debug, PartialEq, Eq)]
pub enum CommandName {
    Run,
    Check,
    Fmt,
    Plan,
    Bench,
    Payouts,
    Explain,
    Verify,
    Daily,
    Cut,
    Windows,
}

/// The options, of which a command knows some.
#[derive(Clone, Copy, Debug, PartialEq, Eq)]
pub enum OptionName {
    Labels,
    Numbers,
    Results,
    Adjustments,
    Revisions,
    Chunk,
    Format,
    Stats,
    AsOf,
    Part,
}

pub(crate) fn command_named(word: &str) -> Option<CommandName>
    ensures { result ≡ command_named word.now }
{
    match word {
        "run" => Some(CommandName::Run),
        "check" => Some(CommandName::Check),
        "fmt" => Some(CommandName::Fmt),
        "plan" => Some(CommandName::Plan),
        "bench" => Some(CommandName::Bench),
        "payouts" => Some(CommandName::Payouts),
        "explain" => Some(CommandName::Explain),
        "verify" => Some(CommandName::Verify),
        "daily" => Some(CommandName::Daily),
        "cut" => Some(CommandName::Cut),
        "windows" => Some(CommandName::Windows),
        _ => None,
    }
}

impl CommandName {
    /// How many names it takes.
    pub(crate) fn places(self) -> usize
        ensures { result ≡ places_of self }
    {
        match self {
            CommandName::Explain | CommandName::Windows => 7,
            CommandName::Run | CommandName::Daily | CommandName::Cut => 6,
            CommandName::Verify => 5,
            CommandName::Plan | CommandName::Payouts => 4,
            CommandName::Check | CommandName::Fmt | CommandName::Bench => 1,
        }
    }

    /// The options that it knows.
    pub(crate) fn options(self) -> &'static [OptionName]
        ensures { result.now ≡ options_of self }
    {
        match self {
            CommandName::Run => &[
                OptionName::Labels,
                OptionName::Numbers,
                OptionName::Results,
                OptionName::Adjustments,
                OptionName::Revisions,
                OptionName::Chunk,
                OptionName::Format,
                OptionName::Stats,
                OptionName::AsOf,
            ],
            CommandName::Explain | CommandName::Verify => &[
                OptionName::Labels,
                OptionName::Numbers,
                OptionName::Results,
                OptionName::Adjustments,
                OptionName::Revisions,
            ],
            CommandName::Daily => &[
                OptionName::Labels,
                OptionName::Numbers,
                OptionName::Results,
                OptionName::Adjustments,
                OptionName::Revisions,
                OptionName::Format,
            ],
            CommandName::Cut => &[
                OptionName::Labels,
                OptionName::Numbers,
                OptionName::Results,
                OptionName::Adjustments,
                OptionName::Revisions,
                OptionName::Part,
            ],
            CommandName::Windows => &[OptionName::Adjustments, OptionName::Revisions],
            CommandName::Bench => &[OptionName::Chunk],
            CommandName::Check | CommandName::Fmt | CommandName::Plan | CommandName::Payouts => &[],
        }
    }
}

impl OptionName {
    /// What is written after `--`.
    pub(crate) fn text(self) -> &'static str
        ensures { result.now ≡ text_of self }
    {
        match self {
            OptionName::Labels => "labels",
            OptionName::Numbers => "numbers",
            OptionName::Results => "results",
            OptionName::Adjustments => "adjustments",
            OptionName::Revisions => "revisions",
            OptionName::Chunk => "chunk",
            OptionName::Format => "format",
            OptionName::Stats => "stats",
            OptionName::AsOf => "asof",
            OptionName::Part => "part",
        }
    }

    /// Whether it has a value.
    pub(crate) fn has_value(self) -> bool
        ensures { result ≡ has_value self }
    {
        !matches!(self, OptionName::Stats)
    }
}
