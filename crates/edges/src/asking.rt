// Questions to a schema, asked of it itself and of it borrowed.
use crate::answer::{Answer as Told, Fault};
use crate::line::{Line, cut, number};
use schema::{
    Answer, FieldDefinition, FieldLookupError, Name, OperationType, Question, Schema, ask,
    field_or_meta_field, knows_by_field,
};
use std::alloc::Global;

fn question_of(line: &Line<'_>) -> Result<Question, Fault> {
    let (word, rest) = cut(line.words);
    let (first, second) = cut(rest);
    let name = number(first)?;
    match word {
        "root" => match name {
            0 => Ok(Question::Root(OperationType::Query)),
            1 => Ok(Question::Root(OperationType::Mutation)),
            _ => Ok(Question::Root(OperationType::Subscription)),
        },
        "known" => Ok(Question::Known(name)),
        "kind" => Ok(Question::Kind(name)),
        "field" => Ok(Question::Field(name, number(second)?)),
        _ => Err(Fault::BadLine),
    }
}

/// The answer of the schema: a field is told by the place of its definition and its inner type. `with_meta TYPE FIELD` asks for
/// a field with the meta-fields added.
pub fn asked<S: Schema>(heap: Global, schema: &S, line: &Line<'_>) -> Result<Told, Fault> {
    let (word, rest) = cut(line.words);
    if word == "with_meta" {
        let (type_name, field_name) = cut(rest);
        let (type_name, field_name) = (number(type_name)?, number(field_name)?);
        return field(heap, field_or_meta_field(schema, type_name, field_name));
    }
    let question = question_of(line)?;
    let answer = ask(schema, question);
    let borrowed = &schema;
    if ask(borrowed, question) != answer {
        return Ok(Told::Word("another answer where it is borrowed"));
    }
    if let Question::Field(type_name, field_name) = question {
        let is_known = answer != Answer::Field(Err(FieldLookupError::NoSuchType));
        if !is_known_alike(schema, type_name, field_name, is_known) {
            return Ok(Told::Word("another answer where the type is asked for"));
        }
    }
    match answer {
        Answer::Root(Some(name)) => Told::numbers(heap, &[name]),
        Answer::Kind(Some(kind)) => Told::numbers(heap, &[kind.number()]),
        Answer::Root(None) | Answer::Kind(None) => Ok(Told::Word("none")),
        Answer::Known(true) => Ok(Told::Word("known")),
        Answer::Known(false) => Ok(Told::Word("unknown")),
        Answer::Field(found) => field(heap, found),
    }
}

// A field by the place of its definition and its inner type, or why there is none.
fn field(heap: Global, found: Result<FieldDefinition, FieldLookupError>) -> Result<Told, Fault> {
    match found {
        Ok(found) => Told::numbers(heap, &[found.place, found.inner]),
        Err(FieldLookupError::NoSuchType) => Ok(Told::Word("no such type")),
        Err(FieldLookupError::NoSuchField) => Ok(Told::Word("no such field")),
    }
}

// Whether it is told alike that the type is known, or that it is not: by the field, by the type, and by the schema borrowed.
fn is_known_alike<S: Schema>(
    schema: &S,
    type_name: Name,
    field_name: Name,
    is_known: bool,
) -> bool {
    let borrowed = &schema;
    knows_by_field(schema, type_name, field_name) == is_known
        && schema.knows(type_name) == is_known
        && ask(borrowed, Question::Known(type_name)) == Answer::Known(is_known)
}
