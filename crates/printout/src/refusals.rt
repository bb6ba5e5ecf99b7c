// Why the rows of a schema or of a document, a call of the builder, or a call on a finished document are refused, in words
// and in numbers.
use builder::BuilderFault;
use document::DocumentFault;
use executable::ExecutableFault;
use refusal::Refusal;
use std::fmt;
use table_schema::SchemaFault;

/// A refused schema or document, a document that a builder refuses, or a finished one.
#[derive(Clone, Copy)]
pub enum Refused {
    Schema(SchemaFault),
    Document(DocumentFault),
    Builder(BuilderFault),
    Finished(ExecutableFault),
}

impl fmt::Display for Refused {
    fn fmt<W: fmt::Write>(&self, f: &mut fmt::Formatter<W>) -> fmt::Result {
        let Refusal { reason, layer, row } = match *self {
            Refused::Schema(fault) => {
                write!(f, "The schema is refused: {fault}")?;
                fault.into()
            }
            Refused::Document(fault) => {
                write!(f, "The document is refused: {fault}")?;
                fault.into()
            }
            Refused::Builder(fault) => {
                write!(f, "The builder refuses it: {fault}")?;
                fault.into()
            }
            Refused::Finished(fault) => {
                write!(f, "The finished document is refused: {fault}")?;
                fault.into()
            }
        };
        let number = reason.number();
        let layer = layer.number();
        write!(f, " (refusal {number}, layer {layer}, row {row}).")
    }
}
