// Literals and other expressions without parts, as nodes.
use crate::flat::Flat;
use crate::{Form, Want};
use dc_ast::ExprKind;
use dc_token::{IntegerType, character, integer, string_value};
use dc_types::Kind;

fn kind_of(integer_type: IntegerType) -> Kind {
    match integer_type {
        IntegerType::Int => Kind::I32,
        IntegerType::UnsignedInt => Kind::U32,
        IntegerType::Long => Kind::I64,
        IntegerType::UnsignedLong => Kind::U64,
    }
}

/// The form of an integer as it is written. The tokens of a text have integers of a type alone.
fn integer_form(spelling: &[u8]) -> Form {
    match integer(spelling) {
        Some(integer) => Form::Integer(kind_of(integer.integer_type), integer.value),
        None => Form::Integer(Kind::I32, 0),
    }
}

/// The form of a character as it is written. The tokens of a text have characters of one byte
/// alone.
fn character_form(spelling: &[u8]) -> Form {
    match character(spelling) {
        Some(byte) => Form::Char(byte),
        None => Form::Char(0),
    }
}

impl Flat<'_> {
    fn string_form(&mut self, spelling: &[u8]) -> Result<Form, Want> {
        let value = string_value(self.alloc, spelling)?;
        let bytes = self.names.number(value.as_slice())?;
        Ok(Form::Str(bytes))
    }

    /// The form of an expression without expressions or types inside. Others have none, and are
    /// read elsewhere.
    pub(crate) fn leaf(&mut self, at: u32, kind: &ExprKind) -> Result<Form, Want> {
        match kind {
            ExprKind::Integer(spelling) => Ok(integer_form(spelling.as_slice())),
            ExprKind::Str(spelling) => self.string_form(spelling.as_slice()),
            ExprKind::Character(spelling) => Ok(character_form(spelling.as_slice())),
            ExprKind::Property(basic, name) => {
                let of = self.add(at, Form::Basic(*basic))?;
                self.member_of(at, of, name)
            }
            ExprKind::True => Ok(Form::True),
            ExprKind::False => Ok(Form::False),
            ExprKind::This => Ok(Form::This),
            ExprKind::Dollar => Ok(Form::Dollar),
            _ => Ok(Form::Null),
        }
    }
}
