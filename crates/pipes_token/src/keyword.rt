// The words that can't name a source.
ghost use Rattle.std.specs.Prelude.{◌≡◌, find};
ghost use Rattle.std.specs.Str.{bytes_eq};
ghost use Rattle.pipes_token.specs.Keywords.{keyword_text};

/// A word that can't name a source.
#[derive(Clone, Copy, Debug, PartialEq, Eq)]
pub enum Keyword {
    /// `source`
    Source,
    /// `from`
    From,
    /// `slack`
    Slack,
    /// `window`
    Window,
    /// `slide`
    Slide,
    /// `time`
    Time,
    /// `count`
    Count,
    /// `int`
    Int,
    /// `text`
    Text,
    /// `flag`
    Flag,
    /// `plan`
    Plan,
    /// `filter`
    Filter,
    /// `map`
    Map,
    /// `union`
    Union,
    /// `join`
    Join,
    /// `distinct`
    Distinct,
    /// `group`
    Group,
    /// `minus`
    Minus,
    /// `sum`
    Sum,
    /// `min`
    Min,
    /// `max`
    Max,
    /// `avg`
    Avg,
    /// `true`
    True,
    /// `false`
    False,
    /// `and`
    And,
    /// `or`
    Or,
    /// `not`
    Not,
    /// `step`
    Step,
    /// `back`
    Back,
    /// `at`
    At,
    /// `top`
    Top,
    /// `with`
    With,
    /// `feed`
    Feed,
    /// `rest`
    Rest,
    /// `await`
    Await,
    /// `migrate`
    Migrate,
    /// `drain`
    Drain,
}

impl Keyword {
    /// How the keyword is spelled: a column may have it as its name.
    pub fn text(&self) -> &'static str
        ensures { result.now ≡ keyword_text self.now }
    {
        match self {
            Keyword::Source => "source",
            Keyword::From => "from",
            Keyword::Slack => "slack",
            Keyword::Window => "window",
            Keyword::Slide => "slide",
            Keyword::Time => "time",
            Keyword::Count => "count",
            Keyword::Int => "int",
            Keyword::Text => "text",
            Keyword::Flag => "flag",
            Keyword::Plan => "plan",
            Keyword::Filter => "filter",
            Keyword::Map => "map",
            Keyword::Union => "union",
            Keyword::Join => "join",
            Keyword::Distinct => "distinct",
            Keyword::Group => "group",
            Keyword::Minus => "minus",
            Keyword::Sum => "sum",
            Keyword::Min => "min",
            Keyword::Max => "max",
            Keyword::Avg => "avg",
            Keyword::True => "true",
            Keyword::False => "false",
            Keyword::And => "and",
            Keyword::Or => "or",
            Keyword::Not => "not",
            Keyword::Step => "step",
            Keyword::Back => "back",
            Keyword::At => "at",
            Keyword::Top => "top",
            Keyword::With => "with",
            Keyword::Feed => "feed",
            Keyword::Rest => "rest",
            Keyword::Await => "await",
            Keyword::Migrate => "migrate",
            Keyword::Drain => "drain",
        }
    }
}

/// All keywords.
pub const KEYWORDS: [Keyword; 37] = [
    Keyword::Source,
    Keyword::From,
    Keyword::Slack,
    Keyword::Window,
    Keyword::Slide,
    Keyword::Time,
    Keyword::Count,
    Keyword::Int,
    Keyword::Text,
    Keyword::Flag,
    Keyword::Plan,
    Keyword::Filter,
    Keyword::Map,
    Keyword::Union,
    Keyword::Join,
    Keyword::Distinct,
    Keyword::Group,
    Keyword::Minus,
    Keyword::Sum,
    Keyword::Min,
    Keyword::Max,
    Keyword::Avg,
    Keyword::True,
    Keyword::False,
    Keyword::And,
    Keyword::Or,
    Keyword::Not,
    Keyword::Step,
    Keyword::Back,
    Keyword::At,
    Keyword::Top,
    Keyword::With,
    Keyword::Feed,
    Keyword::Rest,
    Keyword::Await,
    Keyword::Migrate,
    Keyword::Drain,
];

// The keyword among these that the word spells.
pub(crate) fn find_word(keywords: &[Keyword], word: &[u8]) -> Option<Keyword>
    ensures { result ≡ find (λ keyword. bytes_eq (keyword_text keyword) word.now) keywords.now }
{
    keywords
        .iter()
        .copied()
        .find(|keyword| keyword.text().as_bytes() == word)
}
