// The keywords with which lines begin, how they are written, and the form of each line.
use std::fmt;
use std::str::FromStr;

/// The first word of a line: it says which kind of line this is.
#[derive(Clone, Copy, PartialEq, Eq, Debug)]
pub enum Keyword {
    Schema,
    Type,
    Field,
    Name,
    Ask,
    Document,
    Definition,
    Row,
    Other,
}

/// The word is no keyword.
#[derive(Clone, Copy, PartialEq, Eq, Debug)]
pub struct NoKeyword;

impl FromStr for Keyword {
    ghost use Rattle.line_order.specs.Keywords.{ReadsKeyword};

    type Err = NoKeyword;

    ghost from_str_gives = { ReadsKeyword };

    fn from_str(word: &str) -> Result<Keyword, NoKeyword> {
        match word {
            "schema" => Ok(Keyword::Schema),
            "type" => Ok(Keyword::Type),
            "field" => Ok(Keyword::Field),
            "name" => Ok(Keyword::Name),
            "ask" => Ok(Keyword::Ask),
            "doc" => Ok(Keyword::Document),
            "def" => Ok(Keyword::Definition),
            "row" => Ok(Keyword::Row),
            "other" => Ok(Keyword::Other),
            _ => Err(NoKeyword),
        }
    }
}

impl fmt::Display for Keyword {
    ghost use Rattle.std.specs.Prelude.{Some};
    ghost use Rattle.line_order.specs.Keywords.{word_of};

    ghost output = { λ k. Some (word_of k) };

    fn fmt<W: fmt::Write>(&self, f: &mut fmt::Formatter<W>) -> fmt::Result {
        f.write_str(match self {
            Keyword::Schema => "schema",
            Keyword::Type => "type",
            Keyword::Field => "field",
            Keyword::Name => "name",
            Keyword::Ask => "ask",
            Keyword::Document => "doc",
            Keyword::Definition => "def",
            Keyword::Row => "row",
            Keyword::Other => "other",
        })
    }
}

impl Keyword {
    /// Where lines with this keyword are counted, as it is told of a line too many.
    pub fn counting(self) -> &'static str {
        match self {
            Keyword::Definition | Keyword::Row => "no line with doc counts it",
            _ => "the schema has all that its first line counts",
        }
    }

    /// The form of the whole line.
    pub fn form(self) -> &'static str {
        match self {
            Keyword::Schema => "schema KIND NTYPES NFIELDS QUERY MUTATION SUBSCRIPTION",
            Keyword::Type => "type NAME KIND",
            Keyword::Field => "field OWNER NAME INNER",
            Keyword::Name => "name NUMBER TEXT",
            Keyword::Ask => "ask QUESTION ..",
            Keyword::Document => "doc STRICT NDEFS NROWS",
            Keyword::Definition =>
                "def KIND OPTYPE NAME CONDITION VARIABLES DIRECTIVES LOCATION NAMELOC CONDLOC FIRST END",
            Keyword::Row =>
                "row KIND NAME ALIAS CONDITION ARGUMENTS DIRECTIVES LOCATION NAMELOC CONDLOC END",
            Keyword::Other => "other",
        }
    }
}
