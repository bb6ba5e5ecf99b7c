// The typed lines, and how each is read from its words after the keyword.
use crate::problems::Problem;
use crate::word_list::Member::{Named, Number};
use crate::word_list::Words;
use document::{DefinitionRow, SelectionRow};
use line_order::{DocumentHead, Keyword, SchemaChoice, TableHead};
use schema::{Name, OperationType, Question};
use table_schema::{FieldRow, RootTypes, TypeRow};

/// What a line says.
#[derive(Clone, Copy)]
pub enum Line<'a> {
    /// Nothing: an empty line, or a comment alone.
    Blank,
    /// A new schema begins.
    Schema(SchemaChoice<TableHead>),
    /// A type of the schema.
    Type(TypeRow),
    /// A field of the schema.
    Field(FieldRow),
    /// A name has this text.
    Name(Name, &'a str),
    /// A question to the schema.
    Ask(Question),
    /// A document begins.
    Document(DocumentHead),
    /// A definition of the document.
    Definition(DefinitionRow),
    /// A selection of the document.
    Row(SelectionRow),
    /// The documents from here on are for another builder.
    Other,
}

/// The line with this keyword.
pub fn read_line<'a>(keyword: Keyword, words: &mut Words<'_, 'a>) -> Result<Line<'a>, Problem<'a>> {
    match keyword {
        Keyword::Schema => Ok(Line::Schema(read_schema(words)?)),
        Keyword::Type => Ok(Line::Type(read_type(words)?)),
        Keyword::Field => Ok(Line::Field(read_field(words)?)),
        Keyword::Name => read_name(words),
        Keyword::Ask => Ok(Line::Ask(read_question(words)?)),
        Keyword::Document => Ok(Line::Document(read_document(words)?)),
        Keyword::Definition => Ok(Line::Definition(read_definition(words)?)),
        Keyword::Row => Ok(Line::Row(read_row(words)?)),
        Keyword::Other => Ok(Line::Other),
    }
}

/// `KIND NTYPES NFIELDS QUERY MUTATION SUBSCRIPTION`
fn read_schema<'a>(words: &mut Words<'_, 'a>) -> Result<SchemaChoice<TableHead>, Problem<'a>> {
    match words.number()? {
        0 => {
            let head = read_head(words)?;
            if head == TableHead::default() {
                Ok(SchemaChoice::Open)
            } else {
                Err(Problem::OpenWithRows)
            }
        }
        1 => Ok(SchemaChoice::Table(read_head(words)?)),
        kind => Err(Problem::UnknownSchemaKind(kind)),
    }
}

/// `NTYPES NFIELDS QUERY MUTATION SUBSCRIPTION`
fn read_head<'a>(words: &mut Words<'_, 'a>) -> Result<TableHead, Problem<'a>> {
    let [types, fields, query, mutation, subscription] = words.members(&[
        Number, Number, Named, Named, Named,
    ])?;
    Ok(TableHead {
        types,
        fields,
        roots: RootTypes {
            query,
            mutation,
            subscription,
        },
    })
}

/// `NAME KIND`
fn read_type<'a>(words: &mut Words<'_, 'a>) -> Result<TypeRow, Problem<'a>> {
    let [name, kind] = words.members(&[Named, Number])?;
    Ok(TypeRow { name, kind })
}

/// `OWNER NAME INNER`
fn read_field<'a>(words: &mut Words<'_, 'a>) -> Result<FieldRow, Problem<'a>> {
    let [owner, name, inner] = words.members(&[Named, Named, Named])?;
    Ok(FieldRow { owner, name, inner })
}

/// `NUMBER TEXT`
fn read_name<'a>(words: &mut Words<'_, 'a>) -> Result<Line<'a>, Problem<'a>> {
    let number = words.number()?;
    let text = words.word()?;
    words.names().allow(number, text)?;
    Ok(Line::Name(number, text))
}

/// `root OPERATION`, `known TYPE`, `kind TYPE` or `field TYPE FIELD`
fn read_question<'a>(words: &mut Words<'_, 'a>) -> Result<Question, Problem<'a>> {
    match words.word()? {
        "root" => {
            words.take_form("ask root OPERATION");
            Ok(Question::Root(read_operation(words)?))
        }
        "known" => {
            words.take_form("ask known TYPE");
            Ok(Question::Known(words.name()?))
        }
        "kind" => {
            words.take_form("ask kind TYPE");
            Ok(Question::Kind(words.name()?))
        }
        "field" => {
            words.take_form("ask field TYPE FIELD");
            Ok(Question::Field(words.name()?, words.name()?))
        }
        word => Err(Problem::UnknownQuestion(word)),
    }
}

/// `query`, `mutation` or `subscription`, or the number 0, 1 or 2
fn read_operation<'a>(words: &mut Words<'_, 'a>) -> Result<OperationType, Problem<'a>> {
    match words.word()? {
        "query" | "0" => Ok(OperationType::Query),
        "mutation" | "1" => Ok(OperationType::Mutation),
        "subscription" | "2" => Ok(OperationType::Subscription),
        word => Err(Problem::UnknownOperation(word)),
    }
}

/// `STRICT NDEFS NROWS`
fn read_document<'a>(words: &mut Words<'_, 'a>) -> Result<DocumentHead, Problem<'a>> {
    let [strict, definitions, rows] = words.members(&[Number, Number, Number])?;
    if strict > 1 {
        return Err(Problem::UnknownStrictness(strict));
    }
    Ok(DocumentHead {
        strict: strict == 1,
        definitions,
        rows,
    })
}

/// `KIND OPTYPE NAME CONDITION VARIABLES DIRECTIVES LOCATION NAMELOC CONDLOC FIRST END`
fn read_definition<'a>(words: &mut Words<'_, 'a>) -> Result<DefinitionRow, Problem<'a>> {
    let members = words.members(&[
        Number, Number, Named, Named, Number, Number, Number, Number, Number, Number, Number,
    ])?;
    Ok(DefinitionRow::from(members))
}

/// `KIND NAME ALIAS CONDITION ARGUMENTS DIRECTIVES LOCATION NAMELOC CONDLOC END`
fn read_row<'a>(words: &mut Words<'_, 'a>) -> Result<SelectionRow, Problem<'a>> {
    let members = words.members(&[
        Number, Named, Named, Named, Number, Number, Number, Number, Number, Number,
    ])?;
    Ok(SelectionRow::from(members))
}
