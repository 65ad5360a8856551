//! Why settings are wrong.
ghost use Rattle.std.specs.Prelude.{◌≡◌};
ghost use Rattle.office_settings.specs.Reasons.{reason};

/// Why a line, or a whole file, is wrong.
#[derive(Clone, Copy, PartialEq, Eq, Debug)]
pub enum Wrong {
    /// No statement begins with the first word.
    Beginning,
    /// A line `role` is neither of its two forms.
    RoleLine,
    /// The name of a role is not of its form.
    Role,
    /// Something other than `sent` follows `if`.
    Condition,
    /// Nothing follows `in` or `if`.
    NothingFollows,
    /// `if sent` stands behind acts.
    SentActs,
    /// A word is no kind of act, or there is none.
    Act,
    /// A word is no thing to read, or there is none.
    Thing,
    /// A word is no code of a class, with a star at its end or without.
    Class,
    /// A line `name` is neither of its two forms.
    NameLine,
    /// A name is not of its form.
    Name,
    /// A line `rule` is none of the rules.
    Rule,
    /// There is no number, or it is too small or too great.
    Number,
    /// A line `limit` is none of its forms.
    Limit,
    /// A line `keep` is none of its forms.
    Keep,
    /// A line `journal` is neither of its two forms.
    Journal,
    /// The site is no address of its form.
    Site,
    /// The time zone has not the form of one.
    Zone,
    /// A line `begin` or `end` has more words.
    Mark,
    /// The line is no UTF-8.
    NotUtf8,
    /// A statement stands above `begin`.
    BeginBelow,
    /// A statement stands below `end`.
    AfterEnd,
    /// No `begin` stands above `end`.
    EndAlone,
    /// A line above sets this already.
    SetTwice,
    /// A text that is signed is longer than 200 bytes, or has a character that no page shows.
    SignedText,
    /// The name, or its text, looks like another name of a line above, or like the text of one.
    Alike,
    /// The file has `begin`, but no `end`.
    CutOff,
    /// A name has a role that no line describes.
    UnknownRole,
    /// A name signs that has no role.
    NoRole,
    /// No line names the site.
    NoSite,
    /// No line names the time zone.
    NoZone,
}

/// Why a file is refused: the line that is wrong, from 1 on, or none if something is missing.
#[derive(Clone, Copy, PartialEq, Eq, Debug)]
pub struct Fault {
    pub line: Option<usize>,
    pub wrong: Wrong,
}

impl Wrong {
    /// Returns the reason in words.
    pub fn text(self) -> &'static str
        ensures { result.now ≡ reason self }
    {
        match self {
            Wrong::Beginning => "no line begins with this word",
            Wrong::RoleLine =>
                "write: role ROLE may ACT.. [in CLASS..], or role ROLE reads THING.. [in CLASS..] [if sent]",
            Wrong::Role => "a role has 1 to 32 small letters, digits and hyphens",
            Wrong::Condition => "after 'if' only 'sent' is known",
            Wrong::NothingFollows => "nothing follows 'in' or 'if'",
            Wrong::SentActs => "'if sent' is for what is read",
            Wrong::Act => "there is no such kind of act",
            Wrong::Thing => "there is no such thing to read",
            Wrong::Class =>
                "a class has letters, digits and hyphens, and a star at its end for all that begin so",
            Wrong::NameLine => "write: name NAME is ROLE.. [in CLASS..], or name NAME signs TEXT",
            Wrong::Name => "a name has letters, digits and . _ @ -, or it is * for all other names",
            Wrong::Rule => "there is no such rule",
            Wrong::Number => "there is no number, or it is too small or too great",
            Wrong::Limit => "write: limit requests N, limit lists N, or limit journal-bytes N",
            Wrong::Keep => "write: keep contents DAYS, or keep free MEGABYTES",
            Wrong::Journal => "write: journal readings, or journal acts",
            Wrong::Site =>
                "a site is an address such as https://records.city.example, without a path",
            Wrong::Zone => "a time zone is a word such as Europe/Berlin",
            Wrong::Mark => "'begin' and 'end' have a line of their own",
            Wrong::NotUtf8 => "this is no UTF-8",
            Wrong::BeginBelow => "'begin' stands above all other statements",
            Wrong::AfterEnd => "no statement stands below 'end'",
            Wrong::EndAlone => "no 'begin' stands above this 'end'",
            Wrong::SetTwice => "this is set already above",
            Wrong::SignedText =>
                "a text that is signed has at most 200 bytes, all of them printable",
            Wrong::Alike => "this looks like another name of a line above, or like its text",
            Wrong::CutOff => "the file is cut off: it has 'begin', but no 'end'",
            Wrong::UnknownRole => "no line says what one of these roles may do",
            Wrong::NoRole => "this name signs, but no line says which role it is",
            Wrong::NoSite => "there is no line 'site'",
            Wrong::NoZone => "there is no line 'zone'",
        }
    }
}
